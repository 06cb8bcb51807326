// The run to a horizon (document 02, wish 14): up to the table's own horizon of any accepted table; beyond it, where a state of all components comes again,
// to any horizon of four bytes. The definition is `run_to_call` in specs/Recurrence.antt of `recurrence`.
#![tactic(auto)]

pub mod steps;

ghost use Rattle.std.specs.Prelude.{◌≡◌, ◌&&◌, cond, false, true, List, ℕ, ◌*◌, ◌≤◌, ◌<◌, leb, ltb, length, None};
ghost use Rattle.std.specs.Option.{is_some};
ghost use Rattle.model.specs.Lists.{accepted};
ghost use Rattle.model.specs.Reader.{byte};
ghost use Rattle.model.specs.Places.{Valid, read_of};
ghost use Rattle.model.specs.Schedule.{Passage};
ghost use Rattle.model.specs.Run.{setting_to, run};
ghost use Rattle.model.specs.Calls.{not_run, ran};
ghost use Rattle.table.specs.Directory.{starts_of};
ghost use Rattle.schedule.specs.Filled.{AcceptedRows};
ghost use Rattle.recurrence.specs.Recurrence.{accepted_schedule_to, run_to_call};
ghost use Rattle.later_runs.specs.RunTo.{RunToTrue};
ghost use Rattle.long_run.specs.Ran.{AnswersTo};
ghost use Rattle.long_run.specs.Reached.{PairOf, Reached, RoomTo};

use model::{End, Verdict, layout};
use recurrence::Pair;

// The answer of a run to a horizon: the end, the tick, the choices used and the observations written; after a refusal `Horizon`, 0, 0 and 0.
#[derive(Clone, Copy)]
pub struct LongRan {
    pub verdict: Verdict,
    pub end: End,
    pub tick: u32,
    pub used: u64,
    pub size: u64,
}

fn not_run(number: u8, component: u8) -> LongRan
    ensures { (lent : List ℕ) → AnswersTo (not_run number component lent) result lent }
{
    LongRan {
        verdict: Verdict::Refused(number, component),
        end: End::Horizon,
        tick: 0,
        used: 0,
        size: 0,
    }
}

// The pair of an accepted table, where the horizon lies beyond the table's own; it is not looked for otherwise.
fn pair_beyond(
    table: &[u8],
    starts: [u16; 8],
    rows: &[u32],
    count: usize,
    own: u32,
    horizon: u32,
) -> Option<Pair>
    requires { AcceptedRows table.now rows.now count × (starts ≡ starts_of table.now (byte table.now 3)) }
    ensures { (own < horizon → PairOf table.now result) × (horizon ≤ own → result ≡ None) }
{
    if own < horizon {
        return period::pair_in(table, rows, count, starts);
    }
    None
}

// 29: whether the horizon can be run to.
fn reaches(pair: Option<Pair>, own: u32, horizon: u32) -> bool
    ensures { result ≡ (ltb 0 horizon && cond (leb horizon own) true (is_some pair)) }
{
    if horizon == 0 {
        return false;
    }
    let found = pair.is_some();
    if horizon <= own { true } else { found }
}

// Whether so many bytes hold 36 for each of so many passages.
fn holds(room: usize, passages: u64) -> bool
    requires { passages ≤ 34359738360 }
    ensures { (result ≡ true → passages * 36 ≤ room) × (result ≡ false → room < passages * 36) }
{
    passages * 36 <= room as u64
}

// The run of a table whose schedule stands in the rows, nothing being refused.
fn run_permitted(
    table: &[u8],
    starts: [u16; 8],
    rows: &mut [u32],
    count: usize,
    pair: Option<Pair>,
    horizon: u32,
    choices: &[u8],
    observations: &mut [u8],
) -> LongRan
    requires { Valid table.now × (starts ≡ starts_of table.now (byte table.now 3)) × Reached table.now rows.old count pair horizon × RoomTo table.now horizon (length observations.old) }
    ensures { (L : List Passage) → accepted_schedule_to (read_of table.now).table horizon ≡ accepted L → AnswersTo (ran (run (setting_to (read_of table.now) horizon L) choices.now) observations.old) result observations.new }
{
    let e = steps::run_table(
        table,
        starts,
        rows,
        count,
        pair,
        horizon,
        choices,
        observations,
    );
    LongRan {
        verdict: Verdict::Accepted,
        end: e.end,
        tick: e.tick as u32,
        used: e.used as u64,
        size: e.written as u64,
    }
}

// The same with what refuses a run alone: 29 before 13, which counts the passages to the horizon.
fn run_planned(
    table: &[u8],
    starts: [u16; 8],
    rows: &mut [u32],
    count: usize,
    horizon: u32,
    choices: &[u8],
    observations: &mut [u8],
) -> LongRan
    requires { Valid table.now × (starts ≡ starts_of table.now (byte table.now 3)) × AcceptedRows table.now rows.old count }
    ensures { AnswersTo (run_to_call table.now horizon choices.now observations.old) result observations.new }
{
    let own = parts::word32(parts::word_at(table, layout::TABLE_HORIZON));
    let pair = pair_beyond(table, starts, rows, count, own, horizon);
    if !reaches(pair, own, horizon) {
        return not_run(29, 255);
    }
    let passages = period::counting::passages_to(table, rows, count, pair, own, horizon);
    if !holds(observations.len(), passages) {
        return not_run(13, 255);
    }
    run_permitted(
        table,
        starts,
        rows,
        count,
        pair,
        horizon,
        choices,
        observations,
    )
}

// The same of a table that was read.
fn run_read(
    table: &[u8],
    starts: [u16; 8],
    horizon: u32,
    choices: &[u8],
    observations: &mut [u8],
) -> LongRan
    requires { Valid table.now × (starts ≡ starts_of table.now (byte table.now 3)) }
    ensures { AnswersTo (run_to_call table.now horizon choices.now observations.old) result observations.new }
{
    let mut rows = [0u32; 9216];
    let r = schedule::plan_rows(table, starts, &mut rows, 0);
    let v = r.verdict;
    let n = r.count;
    match v {
        Verdict::Refused(number, component) => not_run(number, component),
        Verdict::Accepted => run_planned(
            table,
            starts,
            &mut rows,
            n,
            horizon,
            choices,
            observations,
        ),
    }
}

// Runs the programs of an accepted table under a list of choices to a horizon; 36 bytes an observation. Every number and every lent byte is the
// definition's; demand 3 holds of the run to that horizon, and what was written, read back, is what the run observed.
pub fn run_to(table: &[u8], choices: &[u8], horizon: u32, observations: &mut [u8]) -> LongRan
    ensures { AnswersTo (run_to_call table.now horizon choices.now observations.old) result observations.new × RunToTrue table.now horizon choices.now observations.old }
{
    let r = table::read(table);
    let v = r.verdict;
    match v {
        Verdict::Refused(number, component) => not_run(number, component),
        Verdict::Accepted => {
            let starts = r.starts;
            run_read(table, starts, horizon, choices, observations)
        }
    }
}
