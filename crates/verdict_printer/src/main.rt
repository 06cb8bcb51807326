// Reads a table from standard input and prints its verdict in words (crate `verdict_words`).
//
// The one argument, in decimal, is the spread: how many ticks apart the nodes may wake. Without it they wake together. What is wrong with
// the argument goes to standard error, and standard output is empty then.
#![tactic(auto)]

use std::env::Env;
use std::io::Read;

// The table that is read, at a spread. The words are made, then written: what is put in out is all that is written.
fn print(table: &mut impl Read, output: &impl Print, errors: &impl Print, spread: u32) {
    // One byte more than a table may have, so that a longer input is seen.
    let mut input = [0u8; 8193];
    let n = streams::read_full(table, &mut input);
    let mut out = [0u8; verdict_words::ROOM];
    let size = verdict_words::write(&input[..n], spread, &mut out);
    streams::write_or_say_line(
        output,
        errors,
        &out[..size],
        "The verdict could not be written.",
    );
}

// The spread that is asked for, of so many words with the program's own name; none where what is asked is no number.
fn spread_asked(env: &impl Env, words: usize) -> Option<u32> {
    match words {
        0 | 1 => Some(0),
        2 => arguments::argument(env, 1),
        _ => None,
    }
}

fn main(rt: HostRuntime) {
    match spread_asked(&rt, arguments::count(&rt)) {
        Some(spread) => print(&mut rt.stdin(), &rt.stdout(), &rt.stderr(), spread),
        None => streams::say_line(
            &rt.stderr(),
            "usage: verdict_printer [SPREAD], a number up to 4294967295",
        ),
    }
}
