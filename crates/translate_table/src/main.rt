// Reads a table from standard input and writes its program to standard output.
//
// Standard output holds the program's bytes and nothing else. After a refusal it holds nothing, and standard error has
// `refused`, number, component, and the question in words. The exit status does not tell the two apart.
#![tactic(auto)]

use model::Verdict;

fn main(rt: HostRuntime) {
    // One byte more than a table may have, so that a longer input is seen.
    let mut input = [0u8; 8193];
    let n = streams::read_full(&mut rt.stdin(), &mut input);
    // No program is longer.
    let mut program = [0u8; 24576];
    let translated = calls::translate(&input[..n], &mut program);
    match translated.verdict {
        Verdict::Accepted => streams::write_front(
            &rt.stdout(),
            &rt.stderr(),
            &program,
            translated.size,
            "The program could not be written.",
        ),
        Verdict::Refused(number, component) => streams::say_refused(
            &rt.stderr(),
            number,
            component,
        ),
    }
}
