// All that is said of a table's schedule as a chart, a row a component; or `refused`, number, component.
#![tactic(auto)]

ghost use Rattle.std.specs.Prelude.{◌≡◌, ◌≤◌, length, take};
ghost use Rattle.io.specs.Counts.{IsPrefixLen};
ghost use Rattle.chart_words.specs.ChartText.{printed_chart};

use model::Verdict;

// Eight rows: no chart is longer.
pub const ROOM: usize = 552;

// All that is printed of a table, at the front of out; answers how many bytes.
fn put_printed(table: &[u8], out: &mut [u8]) -> usize
    requires { 552 ≤ length out.old }
    ensures prefix_len { IsPrefixLen result out.new }
    ensures out_after { take result out.new ≡ printed_chart table.now }
{
    let c = timing_chart::timing_chart(table, out);
    let v = c.verdict;
    match v {
        Verdict::Accepted => c.size,
        Verdict::Refused(number, component) => text::put_refusal(out, 0, number, component),
    }
}

// The same in an array, whose length nobody has to prove.
pub fn write(table: &[u8], out: &mut [u8; ROOM]) -> usize
    ensures prefix_len { IsPrefixLen result out.new }
    ensures out_after { take result out.new ≡ printed_chart table.now }
    ensures upper_bound { result ≤ 552 }
{
    put_printed(table, out)
}
