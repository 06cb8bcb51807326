// Runs the program of a table under a list of choices, and prints how the run ends and what was observed.
//
// The first two arguments name the files of the table and of the choices, a byte a choice. Two more are the spread, a number, and the offsets
// of the nodes, numbers joined by commas, or - for none; without the two there is no spread and no offset. Standard output has the end in words,
// the tick, the choices used, the offsets where one is above 0, and the observations as a table, or `refused`, number, component and the question
// in words. What is wrong with the arguments or the files goes to standard error, and standard output is empty then.
#![tactic(auto)]

mod offset_list;

ghost use Rattle.std.specs.Prelude.{◌≤◌, length};

use std::env::{Env, FillError};
use std::fs::File;
use std::io::Read;
use std::rt::Files;

// Why an argument is not there, on standard error.
fn say_argument(errors: &impl Print, error: FillError) {
    match error {
        FillError::NotPresent => streams::say_line(errors, "argument: Invalid argument"),
        FillError::TooLong => streams::say_line(errors, "argument: File name too long"),
    }
}

// The file that an argument names, open for reading; none if there is none, and standard error says why.
fn open_argument<R: Env + Files>(rt: &R, errors: &impl Print, i: usize) -> Option<R::File> {
    let mut word = [0u8; 4096];
    match rt.arg(i, &mut word) {
        Ok(n) => open_named(rt, errors, &word[..n]),
        Err(error) => {
            say_argument(errors, error);
            None
        }
    }
}

// The file of a name, likewise.
fn open_named<R: Files>(rt: &R, errors: &impl Print, name: &[u8]) -> Option<R::File> {
    match str::from_utf8(name) {
        Ok(path) => match File::open(rt, path) {
            Ok(file) => Some(file),
            Err(error) => {
                let _ = println!(errors; "{path}: {error}");
                None
            }
        },
        Err(_) => {
            streams::say(errors, name);
            streams::say_line(errors, ": the name of a file is UTF-8");
            None
        }
    }
}

// The bytes of the files are read and run, those of the choices in the space lent.
fn run_files<F: Read>(
    output: &impl Print,
    errors: &impl Print,
    table_file: &mut F,
    choice_file: &mut F,
    spread: u32,
    offsets: &[u32],
    choices: &mut [u8],
) {
    // One byte more than a table may have, so that a longer file is seen.
    let mut table = [0u8; 8193];
    let n = streams::read_full(table_file, &mut table);
    let m = streams::read_full(choice_file, choices);
    let mut out = [0u8; run_words::ROOM];
    // The words are made, then written: what is put in out is all that is written.
    let size = run_words::write(&table[..n], &choices[..m], spread, offsets, &mut out);
    streams::write_or_say_line(
        output,
        errors,
        &out[..size],
        "The run could not be written.",
    );
}

// The array is lent as an array first: no proof has to count its zeros then.
fn run_in_array<F: Read>(
    output: &impl Print,
    errors: &impl Print,
    table_file: &mut F,
    choice_file: &mut F,
    spread: u32,
    offsets: &[u32],
    choices: &mut [u8; 1000001],
) {
    run_files(
        output,
        errors,
        table_file,
        choice_file,
        spread,
        offsets,
        choices,
    );
}

// Runs the table and the choices that the first two arguments name.
fn run_named<R: Env + Files + Print>(rt: &R, errors: &impl Print, spread: u32, offsets: &[u32]) {
    let Some(mut table_file) = open_argument(rt, errors, 1) else {
        return;
    };
    let Some(mut choice_file) = open_argument(rt, errors, 2) else {
        return;
    };
    // One choice more than a run may have, so that a longer list is seen.
    let mut choices = [0u8; 1000001];
    run_in_array(
        rt,
        errors,
        &mut table_file,
        &mut choice_file,
        spread,
        offsets,
        &mut choices,
    );
}

// The same with the offsets that the fourth argument is, in the space lent.
fn run_with_offsets<R: Env + Files + Print>(
    rt: &R,
    errors: &impl Print,
    spread: u32,
    list: &mut [u32],
)
    requires { 64 ≤ length list.old }
{
    let mut word = [0u8; 4096];
    let n = match rt.arg(4, &mut word) {
        Ok(n) => n,
        Err(error) => {
            say_argument(errors, error);
            return;
        }
    };
    match offset_list::read_offsets(&word[..n], list) {
        Some(count) => run_named(rt, errors, spread, &list[..count]),
        None => streams::say_line(
            errors,
            "The offsets are at most 64 numbers from 0 to 4,294,967,295, joined by commas, or - for none.",
        ),
    }
}

// The array is lent as an array first, likewise.
fn run_with_offsets_in_array<R: Env + Files + Print>(
    rt: &R,
    errors: &impl Print,
    spread: u32,
    list: &mut [u32; 64],
) {
    run_with_offsets(rt, errors, spread, list);
}

// The same with the spread that the third argument is.
fn run_with_spread<R: Env + Files + Print>(rt: &R, errors: &impl Print) {
    match arguments::argument(rt, 3) {
        Some(spread) => {
            let mut list = [0u32; 64];
            run_with_offsets_in_array(rt, errors, spread, &mut list);
        }
        None => streams::say_line(errors, "The spread is a number from 0 to 4,294,967,295."),
    }
}

fn main(rt: HostRuntime) {
    let errors = rt.stderr();
    match arguments::count(&rt) {
        3 => run_named(&rt, &errors, 0, &[]),
        5 => run_with_spread(&rt, &errors),
        _ => streams::say_line(&errors, "usage: trial_run TABLE CHOICES [SPREAD OFFSETS]"),
    }
}
