// Document 02, wish 6: the run of nodes that wake apart. The run of nodes that start together is its case without a spread and without offsets.
ghost use Rattle.std.specs.Prelude.{◌≡◌, List, ℕ, ◌*◌, ◌≤◌, length};
ghost use Rattle.model.specs.Lists.{accepted};
ghost use Rattle.model.specs.Reader.{byte};
ghost use Rattle.model.specs.Places.{Valid, read_of};
ghost use Rattle.model.specs.Schedule.{Passage};
ghost use Rattle.model.specs.Checks.{accepted_schedule_at};
ghost use Rattle.model.specs.Run.{setting_at, run, observation_width};
ghost use Rattle.model.specs.Calls.{not_run, ran, offsets_fine, run_call_at, Demand3ApartOf};
ghost use Rattle.model.specs.Observations.{ObservationsReadAt};
ghost use Rattle.model.specs.Finishes.{FinishesApartOf};
ghost use Rattle.table.specs.Directory.{starts_of};
ghost use Rattle.run.specs.Ends.{Planned, PlannedApart};
ghost use Rattle.calls.specs.Ran.{Answers};

use crate::Ran;
use model::{End, Verdict, layout};

fn not_run(number: u8, component: u8) -> Ran
    ensures { (lent : List ℕ) → Answers (not_run number component lent) result lent }
{
    Ran {
        verdict: Verdict::Refused(number, component),
        end: End::Horizon,
        tick: 0,
        used: 0,
        size: 0,
    }
}

// Whether no offset of so many nodes is above the spread; those past the last node are not looked at.
fn offsets_fine(offsets: &[u32], nodes: usize, spread: u32) -> bool
    ensures { result ≡ offsets_fine spread nodes offsets.now }
{
    let handed = &offsets[..nodes.min(offsets.len())];
    handed.iter().all(|offset| *offset <= spread)
}

// The run of a table whose schedule stands in the rows, nothing being refused.
fn run_permitted(
    table: &[u8],
    starts: [u16; 8],
    rows: &[u32],
    count: usize,
    offsets: &[u32],
    choices: &[u8],
    observations: &mut [u8],
) -> Ran
    requires { Valid table.now × (starts ≡ starts_of table.now (byte table.now 3)) × PlannedApart table.now rows.now count offsets.now × (count * observation_width ≤ length observations.old) × (length choices.now ≤ 1000000) }
    ensures { (G : ℕ) (S : List Passage) → accepted_schedule_at G (read_of table.now) ≡ accepted S → Answers (ran (run (setting_at (read_of table.now) (read_of table.now).horizon S offsets.now) choices.now) observations.old) result observations.new }
{
    let e = run::run_table(table, starts, rows, count, offsets, choices, observations);
    Ran {
        verdict: Verdict::Accepted,
        end: e.end,
        tick: e.tick as u32,
        used: e.used as u32,
        size: e.written,
    }
}

// The same with what refuses a run alone: 13 before 14 before 20.
fn run_planned(
    table: &[u8],
    starts: [u16; 8],
    rows: &[u32],
    count: usize,
    choices: &[u8],
    spread: u32,
    offsets: &[u32],
    observations: &mut [u8],
) -> Ran
    requires { Valid table.now × (starts ≡ starts_of table.now (byte table.now 3)) × Planned spread table.now rows.now count }
    ensures { Answers (run_call_at spread table.now offsets.now choices.now observations.old) result observations.new }
{
    if observations.len() < count * layout::OBSERVATION_WIDTH {
        return not_run(13, 255);
    }
    if 1000000 < choices.len() {
        return not_run(14, 255);
    }
    let nodes = parts::wide(table[layout::TABLE_COMPONENTS]);
    if !offsets_fine(offsets, nodes, spread) {
        return not_run(20, 255);
    }
    run_permitted(table, starts, rows, count, offsets, choices, observations)
}

// The same of a table that was read, at a spread that is not too wide.
fn run_read(
    table: &[u8],
    starts: [u16; 8],
    choices: &[u8],
    spread: u32,
    offsets: &[u32],
    observations: &mut [u8],
) -> Ran
    requires { Valid table.now × (starts ≡ starts_of table.now (byte table.now 3)) × (spread ≤ 1000) }
    ensures { Answers (run_call_at spread table.now offsets.now choices.now observations.old) result observations.new }
{
    let mut rows = [0u32; 9216];
    let r = schedule::plan_rows(table, starts, &mut rows, spread);
    let v = r.verdict;
    let n = r.count;
    match v {
        Verdict::Refused(number, component) => not_run(number, component),
        Verdict::Accepted => run_planned(
            table,
            starts,
            &rows,
            n,
            choices,
            spread,
            offsets,
            observations,
        ),
    }
}

// Runs the programs of a table accepted at a spread under a list of choices, each node with an offset within the spread; 36 bytes an
// observation. Every number and every lent byte is the definition's, demand 3 for nodes that wake apart holds of the run, what was
// written, read back, is what the run observed, and the tick in each observation lies in the previous window.
pub fn run_apart(
    table: &[u8],
    choices: &[u8],
    spread: u32,
    offsets: &[u32],
    observations: &mut [u8],
) -> Ran
    ensures { Answers (run_call_at spread table.now offsets.now choices.now observations.old) result observations.new × Demand3ApartOf spread table.now offsets.now choices.now × ObservationsReadAt spread table.now offsets.now choices.now observations.old × FinishesApartOf spread table.now offsets.now choices.now }
{
    let r = table::read_at(table, spread);
    let v = r.verdict;
    match v {
        Verdict::Refused(number, component) => not_run(number, component),
        Verdict::Accepted => {
            let starts = r.starts;
            run_read(table, starts, choices, spread, offsets, observations)
        }
    }
}
