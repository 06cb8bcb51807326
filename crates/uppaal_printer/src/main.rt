// Reads a table from standard input and prints it as a text for UPPAAL, or `refused`, number, component.
#![tactic(auto)]

ghost use Rattle.std.specs.Prelude.{◌≡◌, ◌≤◌, length, take};
ghost use Rattle.io.specs.Counts.{IsPrefixLen};
ghost use Rattle.uppaal_printer.specs.PrintedText.{printed_text};

use model::Verdict;

// All that is printed of a table, at the front of out; answers how many bytes.
fn put_printed(table: &[u8], out: &mut [u8]) -> usize
    requires { 64 ≤ length out.old }
    ensures prefix_len { IsPrefixLen result out.new }
    ensures out_after { take result out.new ≡ printed_text (length out.old) table.now }
{
    let c = uppaal_call::uppaal(table, out);
    let v = c.verdict;
    match v {
        Verdict::Accepted => c.size,
        Verdict::Refused(number, component) => text::put_refusal(out, 0, number, component),
    }
}

// The text is made, then written. What is put in out is all that is written.
fn print(output: &impl Print, errors: &impl Print, table: &[u8], out: &mut [u8])
    requires { 64 ≤ length out.old }
{
    let n = put_printed(table, out);
    streams::write_or_say_line(output, errors, &out[..n], "The text could not be written.");
}

// The array is lent as an array first: no proof has to count its zeros then.
fn print_in_array(output: &impl Print, errors: &impl Print, table: &[u8], out: &mut [u8; 2621440]) {
    print(output, errors, table, out);
}

fn main(rt: HostRuntime) {
    // One byte more than a table may have, so that a longer input is seen.
    let mut input = [0u8; 8193];
    let n = streams::read_full(&mut rt.stdin(), &mut input);
    let mut out = [0u8; 2621440];
    print_in_array(&rt.stdout(), &rt.stderr(), &input[..n], &mut out);
}
