// Reads a table from standard input and prints why a component took the edge that it passes over at a tick, and no other (crate `reason_words`).
//
// The two arguments are the component and the tick, in decimal. Without them standard output is empty, and standard error says what they are.
#![tactic(auto)]

fn main(rt: HostRuntime) {
    if arguments::count(&rt) != 3 {
        streams::say_line(
            &rt.stderr(),
            "usage: reason_printer COMPONENT TICK, with a table on standard input",
        );
        return;
    }
    // What is no number counts as the greatest one, which is neither a component nor a tick below a horizon.
    let component = arguments::argument(&rt, 1).unwrap_or(u32::MAX);
    let tick = arguments::argument(&rt, 2).unwrap_or(u32::MAX);
    // One byte more than a table may have, so that a longer input is seen.
    let mut input = [0u8; 8193];
    let n = streams::read_full(&mut rt.stdin(), &mut input);
    let mut out = [0u8; reason_words::ROOM];
    // The words are made, then written: what is put in out is all that is written.
    let size = reason_words::write(&input[..n], component, tick, &mut out);
    streams::write_or_say_line(
        &rt.stdout(),
        &rt.stderr(),
        &out[..size],
        "The reasons could not be written.",
    );
}
