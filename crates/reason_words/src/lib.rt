// All that is said of why a component took the edge that it passes over at a tick, and no other: the passage, then a line an edge from its
// location. Or `refused`, number, component and the question in words.
#![tactic(auto)]

ghost use Rattle.std.specs.Prelude.{◌≡◌, ◌≤◌, length, take};
ghost use Rattle.io.specs.Counts.{IsPrefixLen};
ghost use Rattle.reason_text.specs.ReasonText.{printed_reasons};

use model::Verdict;

// The passage has at most 130 bytes, each of 32 edges 180; no refusal is longer.
pub const ROOM: usize = 6000;

// All that is printed of a table, a component and a tick, at the front of out; answers how many bytes.
fn put_printed(table: &[u8], component: u32, tick: u32, out: &mut [u8]) -> usize
    requires { 6000 ≤ length out.old }
    ensures prefix_len { IsPrefixLen result out.new }
    ensures out_after { take result out.new ≡ printed_reasons table.now component tick }
{
    let asked = reasons::ask(table, component, tick);
    let v = asked.verdict;
    match v {
        Verdict::Refused(number, concerned) => refusal_text::put_refusal_text(
            out, 0, number, concerned,
        ),
        Verdict::Accepted => reason_text::put_reasons_text(out, table, asked),
    }
}

// The same in an array, whose length nobody has to prove.
pub fn write(table: &[u8], component: u32, tick: u32, out: &mut [u8; ROOM]) -> usize
    ensures prefix_len { IsPrefixLen result out.new }
    ensures out_after { take result out.new ≡ printed_reasons table.now component tick }
    ensures upper_bound { result ≤ 6000 }
{
    put_printed(table, component, tick, out)
}
