// The call `timing_chart`: the schedule of an accepted table as a chart. The contract equates the answer, and every lent byte afterwards,
// with the call's definition in model's specs/Chart.antt, for all inputs.
#![tactic(auto)]

ghost use Rattle.std.specs.Prelude.{◌≡◌, ◌≤◌};
ghost use Rattle.model.specs.declared.Verdict.TheVariants.{Refused};
ghost use Rattle.model.specs.Reader.{byte};
ghost use Rattle.model.specs.Places.{Valid};
ghost use Rattle.model.specs.Chart.{chart_call};
ghost use Rattle.table.specs.Directory.{starts_of};

use calls::Called;
use model::{Verdict, layout};

fn refused(number: u8, component: u8) -> Called
    ensures { (result.verdict ≡ Refused number component) × (result.size ≡ 0) }
{
    Called {
        verdict: Verdict::Refused(number, component),
        size: 0,
    }
}

// The chart of a table that was read.
fn chart_into(table: &[u8], starts: [u16; 8], chart: &mut [u8]) -> Called
    requires { Valid table.now × (starts ≡ starts_of table.now (byte table.now 3)) }
    ensures { (result.verdict ≡ (chart_call table.now chart.old).verdict) × (result.size ≡ (chart_call table.now chart.old).size) × (chart.new ≡ (chart_call table.now chart.old).lent) × (result.size ≤ 552) }
{
    let mut rows = [0u32; 9216];
    let r = schedule::plan_rows(table, starts, &mut rows, 0);
    let v = r.verdict;
    let count = r.count;
    match v {
        Verdict::Refused(number, component) => refused(number, component),
        Verdict::Accepted => {
            let components = parts::wide(table[layout::TABLE_COMPONENTS]);
            let horizon = parts::word32(parts::word_at(table, layout::TABLE_HORIZON));
            if chart.len() < components * chart::ROW_WIDTH {
                return refused(13, 255);
            }
            chart::put_chart(table, &rows, count, components, horizon, chart);
            Called {
                verdict: Verdict::Accepted,
                size: components * chart::ROW_WIDTH,
            }
        }
    }
}

// The chart: one row of 69 bytes a component, laid over the front of the bytes lent.
pub fn timing_chart(table: &[u8], chart: &mut [u8]) -> Called
    ensures { (result.verdict ≡ (chart_call table.now chart.old).verdict) × (result.size ≡ (chart_call table.now chart.old).size) × (chart.new ≡ (chart_call table.now chart.old).lent) × (result.size ≤ 552) }
{
    let r = table::read(table);
    let v = r.verdict;
    match v {
        Verdict::Refused(number, component) => refused(number, component),
        Verdict::Accepted => {
            let starts = r.starts;
            chart_into(table, starts, chart)
        }
    }
}
