// Reads a table from standard input, simulates runs of it with drawn work times, and prints how many ended late, in all and of each node, and the
// generator afterwards (crate `simulation_words`). Or it prints `refused`, number, component and the question in words.
//
// The arguments are the least and the most ticks of work and the runs, in decimal; a fourth one is the seed. Without them standard output is empty,
// and standard error says what they are.
#![tactic(auto)]

use generator::Generator;
use std::env::Env;
use std::io::Read;

// What is no number counts as the greatest, with which ticks of work and runs are refused.
fn simulate<R: Env + Print>(rt: &R, table: &mut impl Read, errors: &impl Print, seed: u32) {
    let lo = arguments::argument(rt, 1).unwrap_or(u32::MAX);
    let hi = arguments::argument(rt, 2).unwrap_or(u32::MAX);
    let runs = arguments::argument(rt, 3).unwrap_or(u32::MAX);
    // One byte more than a table may have, so that a longer input is seen.
    let mut input = [0u8; 8193];
    let n = streams::read_full(table, &mut input);
    let mut out = [0u8; simulation_words::ROOM];
    // The words are made, then written: what is put in out is all that is written.
    let size = simulation_words::write(&input[..n], lo, hi, runs, seed, &mut out);
    streams::write_or_say_line(rt, errors, &out[..size], "The counts could not be written.");
}

fn main(rt: HostRuntime) {
    let seed = match arguments::count(&rt) {
        4 => Generator::SEED,
        // What is no number counts as 0, which is refused.
        5 => arguments::argument(&rt, 4).unwrap_or(0),
        _ => {
            streams::say_line(
                &rt.stderr(),
                "usage: simulate_runs LO HI RUNS [SEED], with a table on standard input",
            );
            return;
        }
    };
    simulate(&rt, &mut rt.stdin(), &rt.stderr(), seed);
}
