// Reads a table from standard input and prints its schedule as a chart, a row a component, or `refused`, number, component (crate `chart_words`).
#![tactic(auto)]

// The words are made, then written: what is put in out is all that is written.
fn main(rt: HostRuntime) {
    // One byte more than a table may have, so that a longer input is seen.
    let mut input = [0u8; 8193];
    let n = streams::read_full(&mut rt.stdin(), &mut input);
    let mut out = [0u8; chart_words::ROOM];
    let size = chart_words::write(&input[..n], &mut out);
    streams::write_or_say_line(
        &rt.stdout(),
        &rt.stderr(),
        &out[..size],
        "The chart could not be written.",
    );
}
