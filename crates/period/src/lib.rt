// The first pair of ticks at which all components enter alike (document 02, wish 14). Clocks and variables at entry are not kept in the rows: they are
// carried along them, one entry a component. The rows alone tell the last tick at which all enter, and the last one before it at the same locations: a walk
// to both compares the states. Where they differ, a second walk seeks the last one in its states. That gives the distance, and the last walk goes to the
// first one whose states are there again at that distance. The definitions are specs/Recurrence.antt of `recurrence`.
#![tactic(auto)]

pub mod counting;
mod states;

ghost use Rattle.std.specs.Prelude.{◌≡◌, ◌↔◌, true, ℕ, ◌+◌, ◌*◌, ◌≤◌, ◌<◌, length};
ghost use Rattle.model.specs.Reader.{byte};
ghost use Rattle.model.specs.Places.{Valid, budgeted, read_of};
ghost use Rattle.model.specs.Table.{size};
ghost use Rattle.table.specs.Directory.{starts_of};
ghost use Rattle.rows.specs.Rows.{num};
ghost use Rattle.schedule.specs.Filled.{AcceptedRows};
ghost use Rattle.recurrence.specs.Recurrence.{recurrence, recurrence_call, PairTrue};
ghost use Rattle.recurrence.proofs.Joint.{RowsAlike};
ghost use Rattle.period.specs.Walking.{schedule_in, On, Joins, Stops};
ghost use Rattle.period.specs.Searching.{LastJoint, LastThere, LastLike, Apart, FirstLike, PairIs};
ghost use Rattle.period.specs.Telling.{Refuses, Tells};

use model::{Verdict, layout};
use recurrence::Pair;
use window::Entry;

// The verdict on a table, and the first pair of ticks at which all its components enter alike, if there is one.
#[derive(Clone, Copy)]
pub struct Repeating {
    pub verdict: Verdict,
    pub pair: Option<Pair>,
}

// A place in the rows, and for each component the entry of its next passage from there on.
#[derive(Clone, Copy)]
pub struct Walker {
    pub row: usize,
    pub entries: [Entry; 8],
}

// All components at their start.
fn start(table: &[u8], rows: &[u32], count: usize, starts: [u16; 8]) -> Walker
    requires { AcceptedRows table.now rows.now count × (starts ≡ starts_of table.now (byte table.now 3)) }
    ensures { On table.now count result × (result.row ≡ 0) }
{
    let components = parts::wide(table[layout::TABLE_COMPONENTS]);
    let clocks = [0u32; 4];
    let values = [0i16; 4];
    let none = Entry {
        location: 0,
        tick: 0,
        clocks,
        values,
    };
    let mut entries = [none; 8];
    for component in 0..components {
        entries[component] = schedule::start_entry(table, parts::word_place(starts[component]));
    }
    Walker { row: 0, entries }
}

// On to that row: at each row before it, the component that entered there goes on.
fn carry(
    table: &[u8],
    rows: &[u32],
    count: usize,
    from: Walker,
    until: usize,
    budgets: bool,
) -> Walker
    requires { AcceptedRows table.now rows.now count × On table.now count from × (from.row ≤ until) × (until ≤ count) × (budgets ≡ budgeted table.now) }
    ensures { On table.now count result × (result.row ≡ until) }
{
    let mut entries = from.entries;
    for row in from.row..until {
        let component = rows::index(rows, row, rows::COMPONENT);
        let next = replay::grown(table, rows, row, entries[component], budgets);
        entries[component] = next;
    }
    Walker {
        row: until,
        entries,
    }
}

// Whether from that row on stand all components, in their order, entered at one tick.
fn joins(rows: &[u32], count: usize, components: usize, row: usize) -> bool
    requires { (count * 9 ≤ length rows.now) × (count ≤ 1024) × (row < count) × (components ≤ 8) }
    ensures { (result ≡ true) ↔ Joins rows.now count components row }
{
    if count < row + components {
        return false;
    }
    let tick = rows::number(rows, row, rows::ENTRY);
    for c in 0..components {
        if rows::index(rows, row + c, rows::COMPONENT) != c {
            return false;
        }
        if rows::number(rows, row + c, rows::ENTRY) != tick {
            return false;
        }
    }
    true
}

// The first row, from that one on, at which all enter; the number of rows where there is none.
fn to_joint(rows: &[u32], count: usize, components: usize, from: usize) -> usize
    requires { (count * 9 ≤ length rows.now) × (count ≤ 1024) × (from ≤ count) × (components ≤ 8) }
    ensures { Stops rows.now count components from result }
{
    for row in from..count {
        if joins(rows, count, components, row) {
            return row;
        }
    }
    count
}

// On from a row to the next one at which all enter; to the number of rows where there is none.
fn next_joint(
    table: &[u8],
    rows: &[u32],
    count: usize,
    components: usize,
    from: Walker,
    budgets: bool,
) -> Walker
    requires { AcceptedRows table.now rows.now count × On table.now count from × (from.row < count) × (components ≤ 8) × (budgets ≡ budgeted table.now) }
    ensures { On table.now count result × Stops rows.now count components (from.row + 1) result.row }
{
    let next = to_joint(rows, count, components, from.row + 1);
    carry(table, rows, count, from, next, budgets)
}

// The last row at which all enter, sought from the end; they do at the first.
fn last_joint(rows: &[u32], count: usize, components: usize) -> usize
    requires { (count * 9 ≤ length rows.now) × (count ≤ 1024) × (1 ≤ components) × (components ≤ 8) × Joins rows.now count components 0 }
    ensures { LastJoint rows.now count components result }
{
    for row in (1..count).rev() {
        if joins(rows, count, components, row) {
            return row;
        }
    }
    0
}

// The last row before that one at which all enter at its locations.
fn last_there(rows: &[u32], count: usize, components: usize, last: usize) -> Option<usize>
    requires { (count * 9 ≤ length rows.now) × (count ≤ 1024) × (1 ≤ components) × (components ≤ 8) × Joins rows.now count components last }
    ensures { LastThere rows.now count components last result }
{
    for row in (0..last).rev() {
        if states::enter_there(rows, count, components, row, last) {
            return Some(row);
        }
    }
    None
}

// The last row before that one at which all enter in its states.
fn last_like(
    table: &[u8],
    rows: &[u32],
    count: usize,
    starts: [u16; 8],
    components: usize,
    first: Walker,
    last: Walker,
    budgets: bool,
) -> Option<usize>
    requires { AcceptedRows table.now rows.now count × (starts ≡ starts_of table.now (byte table.now 3)) × (components ≡ size (read_of table.now).table) × (budgets ≡ budgeted table.now) × On table.now count first × On table.now count last × Joins rows.now count components first.row × Joins rows.now count components last.row × (first.row ≡ 0) }
    ensures { LastLike table.now rows.now count components last.row result }
{
    let mut like = None;
    let mut here = first;
    // A while: how far a walker goes on is read from the rows.
    while here.row < last.row {
        if states::alike(table, rows, count, starts, components, here, last) {
            like = Some(here.row);
        }
        here = next_joint(table, rows, count, components, here, budgets);
    }
    like
}

// The same by the row alone: mostly it is the last one at its locations, and one walk to both suffices.
fn like_before(
    table: &[u8],
    rows: &[u32],
    count: usize,
    starts: [u16; 8],
    components: usize,
    first: Walker,
    last: usize,
    budgets: bool,
) -> Option<usize>
    requires { AcceptedRows table.now rows.now count × (starts ≡ starts_of table.now (byte table.now 3)) × (components ≡ size (read_of table.now).table) × (budgets ≡ budgeted table.now) × On table.now count first × Joins rows.now count components first.row × Joins rows.now count components last × (first.row ≡ 0) }
    ensures { LastLike table.now rows.now count components last result }
{
    let near = last_there(rows, count, components, last)?;
    let here = carry(table, rows, count, first, near, budgets);
    let there = carry(table, rows, count, here, last, budgets);
    if states::alike(table, rows, count, starts, components, here, there) {
        return Some(near);
    }
    last_like(
        table, rows, count, starts, components, first, there, budgets,
    )
}

// Whether the second row is entered at that tick, in the states of the first.
fn alike_at(
    table: &[u8],
    rows: &[u32],
    count: usize,
    starts: [u16; 8],
    components: usize,
    first: Walker,
    second: Walker,
    tick: u32,
) -> bool
    requires { AcceptedRows table.now rows.now count × (starts ≡ starts_of table.now (byte table.now 3)) × (components ≡ size (read_of table.now).table) × On table.now count first × On table.now count second × Joins rows.now count components first.row × Joins rows.now count components second.row × (second.row < count) }
    ensures { (result ≡ true) ↔ ((num rows.now second.row 3 ≡ tick) × RowsAlike (schedule_in table.now) components first.row second.row) }
{
    if rows::number(rows, second.row, rows::ENTRY) != tick {
        return false;
    }
    states::alike(table, rows, count, starts, components, first, second)
}

// The first two rows, so many ticks apart, at which all enter in the same states: a walker at the early one, another that many ticks ahead.
fn first_like(
    table: &[u8],
    rows: &[u32],
    count: usize,
    starts: [u16; 8],
    components: usize,
    first: Walker,
    distance: u32,
    budgets: bool,
) -> Option<Pair>
    requires { AcceptedRows table.now rows.now count × (starts ≡ starts_of table.now (byte table.now 3)) × (components ≡ size (read_of table.now).table) × (budgets ≡ budgeted table.now) × On table.now count first × Joins rows.now count components first.row × (first.row ≡ 0) × (0 < distance) × (distance ≤ 200000) × ((y : ℕ) × (z : ℕ) × Apart table.now rows.now count components distance y z) }
    ensures { FirstLike table.now rows.now count components distance result }
{
    let mut early = first;
    let mut late = first;
    // A while: two walkers take turns, by the ticks of their rows.
    while late.row < count {
        let from = rows::number(rows, early.row, rows::ENTRY);
        let to = from + distance;
        if rows::number(rows, late.row, rows::ENTRY) < to {
            late = next_joint(table, rows, count, components, late, budgets);
        } else {
            if alike_at(table, rows, count, starts, components, early, late, to) {
                return Some(Pair { from, to });
            }
            early = next_joint(table, rows, count, components, early, budgets);
        }
    }
    None
}

// The pair of an accepted table, whose passages are the rows.
pub fn pair_in(table: &[u8], rows: &[u32], count: usize, starts: [u16; 8]) -> Option<Pair>
    requires { AcceptedRows table.now rows.now count × (starts ≡ starts_of table.now (byte table.now 3)) }
    ensures { PairIs (recurrence (read_of table.now).table (read_of table.now).horizon (schedule_in table.now)) result }
{
    let components = parts::wide(table[layout::TABLE_COMPONENTS]);
    let budgets = decoder::budgeted(table);
    let first = start(table, rows, count, starts);
    let last = last_joint(rows, count, components);
    let like = like_before(table, rows, count, starts, components, first, last, budgets)?;
    let distance = rows::number(rows, last, rows::ENTRY) - rows::number(rows, like, rows::ENTRY);
    first_like(
        table, rows, count, starts, components, first, distance, budgets,
    )
}

fn refused(number: u8, component: u8) -> Repeating
    ensures { Refuses result number component }
{
    Repeating {
        verdict: Verdict::Refused(number, component),
        pair: None,
    }
}

// The pair of a table that was read.
fn pair_read(table: &[u8], starts: [u16; 8]) -> Repeating
    requires { Valid table.now × (starts ≡ starts_of table.now (byte table.now 3)) }
    ensures { Tells (recurrence_call table.now) result }
{
    let mut rows = [0u32; 9216];
    let planned = schedule::plan_rows(table, starts, &mut rows, 0);
    let verdict = planned.verdict;
    match verdict {
        Verdict::Refused(number, concerned) => refused(number, concerned),
        Verdict::Accepted => {
            let pair = pair_in(table, &rows, planned.count, starts);
            Repeating {
                verdict: Verdict::Accepted,
                pair,
            }
        }
    }
}

// The first pair of ticks at which all components of a table enter alike.
pub fn pair(table: &[u8]) -> Repeating
    ensures tells { Tells (recurrence_call table.now) result }
    ensures pair_true { PairTrue table.now }
{
    let r = table::read(table);
    let v = r.verdict;
    match v {
        Verdict::Refused(number, concerned) => refused(number, concerned),
        Verdict::Accepted => {
            let starts = r.starts;
            pair_read(table, starts)
        }
    }
}
