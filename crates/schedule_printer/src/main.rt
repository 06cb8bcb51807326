// Reads a table from standard input and prints its schedule, a line a passage, or `refused`, number, component (crate `schedule_words`).
#![tactic(auto)]

// The words are made, then written: what is put in out is all that is written.
fn main(rt: HostRuntime) {
    // One byte more than a table may have, so that a longer input is seen.
    let mut input = [0u8; 8193];
    let n = streams::read_full(&mut rt.stdin(), &mut input);
    let mut out = [0u8; schedule_words::ROOM];
    let size = schedule_words::write(&input[..n], &mut out);
    streams::write_or_say_line(
        &rt.stdout(),
        &rt.stderr(),
        &out[..size],
        "The schedule could not be written.",
    );
}
