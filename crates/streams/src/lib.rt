// What a program reads and writes: an input up to the room lent, bytes on its output, and words where that fails.
// The room is lent or an array: there is no heap.
#![tactic(auto)]

ghost use Rattle.std.specs.Prelude.{take};
ghost use Rattle.std.specs.Io.KnownBytes.{Consumes};
ghost use Rattle.io.specs.Counts.{IsPrefixLen};

use std::io::Read;

// Reads until the room lent is full, the input ends or a read fails, and answers how many bytes stand at its front.
pub fn read_full<R: Read>(input: &mut R, room: &mut [u8]) -> usize
    ensures prefix_len { IsPrefixLen result room.new }
    ensures bytes { Consumes (R.remaining input.old) (R.remaining input.new) (take result room.new) }
{
    let mut done = 0;
    // A while: how many bytes a read gives is known when it is over.
    while done < room.len() {
        match input.read(&mut room[done..]) {
            Ok(0) => return done,
            Ok(n) => done += n,
            Err(_) => return done,
        }
    }
    done
}

// Writes all the bytes; where that fails, as on a full device, standard error has the words in their place.
pub fn write_or_say(output: &impl Print, errors: &impl Print, bytes: &[u8], words: &[u8]) {
    if output.write_all(bytes).is_err() {
        say(errors, words);
    }
}

// The same with a line of text.
pub fn write_or_say_line(output: &impl Print, errors: &impl Print, bytes: &[u8], words: &str) {
    if output.write_all(bytes).is_err() {
        say_line(errors, words);
    }
}

// So many bytes from the front on; nothing where there are fewer.
pub fn write_front(
    output: &impl Print,
    errors: &impl Print,
    bytes: &[u8],
    size: usize,
    words: &str,
) {
    if let Some(front) = bytes.get(..size) {
        write_or_say_line(output, errors, front, words);
    }
}

// Words on standard error. Where even that fails there is nobody to tell.
pub fn say(errors: &impl Print, words: &[u8]) {
    let _ = errors.write_all(words);
}

// A line of text on standard error.
pub fn say_line(errors: &impl Print, words: &str) {
    let _ = println!(errors; "{words}");
}

// A refusal in words on standard error.
pub fn say_refused(errors: &impl Print, number: u8, component: u8) {
    let mut words = [0u8; 170];
    let n = refusal_text::put_refusal_text(&mut words, 0, number, component);
    say(errors, &words[..n]);
}
