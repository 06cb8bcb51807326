// All that is said of the largest spread of the nodes' starts at which a table is accepted; or `refused`, number, component and the question in
// words, where it is not accepted without one.
#![tactic(auto)]

ghost use Rattle.std.specs.Prelude.{◌≤◌, length, take};
ghost use Rattle.io.specs.Counts.{IsPrefixLen};
ghost use Rattle.text.specs.Words.{Added};
ghost use Rattle.spread_words.specs.SpreadText.{spread_text, Printed};

use model::Verdict;
use text::{put, put_field};

// No refusal in words is longer.
pub const ROOM: usize = 170;

fn put_spread(out: &mut [u8], spread: u32) -> usize
    requires { 44 ≤ length out.old }
    ensures { Added out.old 0 (spread_text spread) out.new result × (result ≤ 44) }
{
    let at = put_field(out, 0, b"accepted up to a spread of ", spread);
    if spread == 1 {
        return put(out, at, b" tick\n");
    }
    put(out, at, b" ticks\n")
}

// All that is printed of a table, at the front of out; answers how many bytes.
fn put_printed(table: &[u8], out: &mut [u8]) -> usize
    requires { 170 ≤ length out.old }
    ensures prefix_len { IsPrefixLen result out.new }
    ensures printed { Printed table.now (take result out.new) }
{
    let largest = calls::spread::largest_spread(table);
    let v = largest.verdict;
    match v {
        Verdict::Accepted => put_spread(out, largest.spread),
        Verdict::Refused(number, component) => refusal_text::put_refusal_text(
            out, 0, number, component,
        ),
    }
}

// The same in an array, whose length nobody has to prove.
pub fn write(table: &[u8], out: &mut [u8; ROOM]) -> usize
    ensures prefix_len { IsPrefixLen result out.new }
    ensures printed { Printed table.now (take result out.new) }
    ensures upper_bound { result ≤ 170 }
{
    put_printed(table, out)
}
