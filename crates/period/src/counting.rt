// How many passages the schedule to a horizon has (document 02, wish 14: "check 13 counts that horizon's passages"), with no list of them: by division,
// where it lies beyond the table's own. And the round that a run beyond that horizon repeats.
ghost use Rattle.std.specs.Prelude.{◌≡◌, List, ◌≤◌, ◌<◌, length, Some, true};
ghost use Rattle.std.specs.Option.{is_some};
ghost use Rattle.model.specs.Lists.{accepted};
ghost use Rattle.model.specs.Places.{read_of};
ghost use Rattle.model.specs.Schedule.{Passage};
ghost use Rattle.schedule.specs.Filled.{AcceptedRows};
ghost use Rattle.recurrence.specs.Recurrence.{recurrence, accepted_schedule_to};
ghost use Rattle.recurrence.proofs.Count.{entered_before};
ghost use Rattle.period.specs.Walking.{schedule_in};
ghost use Rattle.period.specs.Searching.{PairIs};
ghost use Rattle.period.specs.Rounds.{RoundOf};

use recurrence::Pair;

// The rows entered before the round's begin, those before its end, its end and its length.
#[derive(Clone, Copy)]
pub struct Round {
    pub first: usize,
    pub second: usize,
    pub until: u32,
    pub period: u32,
}

// How many rows are entered before the tick: they stand in the order of their entries.
fn entered_before(table: &[u8], rows: &[u32], count: usize, tick: u32) -> usize
    requires { AcceptedRows table.now rows.now count }
    ensures { (result ≡ entered_before (schedule_in table.now) tick) × (result ≤ 1024) }
{
    for i in 0..count {
        if tick <= rows::number(rows, i, rows::ENTRY) {
            return i;
        }
    }
    count
}

// How many passages the schedule to a horizon beyond the table's own has, by the table's pair.
fn passages_beyond(table: &[u8], rows: &[u32], count: usize, pair: Pair, horizon: u32) -> u64
    requires { AcceptedRows table.now rows.now count × PairIs (recurrence (read_of table.now).table (read_of table.now).horizon (schedule_in table.now)) (Some pair) × ((read_of table.now).horizon < horizon) }
    ensures { (L : List Passage) → accepted_schedule_to (read_of table.now).table horizon ≡ accepted L → result ≡ length L }
{
    let period = pair.to - pair.from;
    let beyond = horizon - pair.from;
    let first = entered_before(table, rows, count, pair.from);
    let second = entered_before(table, rows, count, pair.to);
    let rest = pair.from + beyond % period;
    let once = entered_before(table, rows, count, rest);
    let turns = beyond / period;
    let round = second - first;
    let more = (turns as u64) * (round as u64);
    (once as u64) + more
}

// How many passages the schedule to that horizon has: the table's own horizon is handed, and its pair, where the horizon lies beyond; there is one then.
pub fn passages_to(
    table: &[u8],
    rows: &[u32],
    count: usize,
    pair: Option<Pair>,
    own: u32,
    horizon: u32,
) -> u64
    requires { AcceptedRows table.now rows.now count × (own < horizon → PairIs (recurrence (read_of table.now).table (read_of table.now).horizon (schedule_in table.now)) pair) × (own ≡ (read_of table.now).horizon) × (own ≤ 60000) × (1 ≤ horizon) × (own < horizon → is_some pair ≡ true) }
    ensures { (L : List Passage) → accepted_schedule_to (read_of table.now).table horizon ≡ accepted L → result ≡ length L }
{
    if horizon <= own {
        return entered_before(table, rows, count, horizon) as u64;
    }
    match pair {
        Some(pair) => passages_beyond(table, rows, count, pair, horizon),
        None => unreachable!(),
    }
}

// The longest round from the pair's first tick on that ends below the table's own horizon, which is handed: as many periods as there are.
pub fn longest_round(table: &[u8], rows: &[u32], count: usize, pair: Pair, own: u32) -> Round
    requires { AcceptedRows table.now rows.now count × PairIs (recurrence (read_of table.now).table (read_of table.now).horizon (schedule_in table.now)) (Some pair) × (own ≡ (read_of table.now).horizon) × (own ≤ 60000) }
    ensures { RoundOf table.now result }
{
    let once = pair.to - pair.from;
    let after = own - 1 - pair.from;
    let turns = after / once;
    let period = turns * once;
    let until = pair.from + period;
    let first = entered_before(table, rows, count, pair.from);
    let second = entered_before(table, rows, count, until);
    Round {
        first,
        second,
        until,
        period,
    }
}
