// The schedule of a valid table, as rows in a lent slice: refusals 7 to 9, the messages, then checks 10 to 12.
#![tactic(auto)]

ghost use Rattle.std.specs.Prelude.{◌≡◌, [], ◌∷◌, ◌++◌, ℕ, ◌+◌, ◌*◌, ◌≤◌, ◌<◌, length, drop, pos};
ghost use Rattle.std.proofs.lemmas.List.Edits.{sets};
ghost use Rattle.model.specs.declared.Verdict.TheVariants.{Accepted, Refused};
ghost use Rattle.model.specs.Lists.{each};
ghost use Rattle.model.specs.Reader.{byte};
ghost use Rattle.model.specs.Places.{budgeted, Valid, start_of};
ghost use Rattle.model.specs.Schedule.{seven_of};
ghost use Rattle.table.specs.Directory.{starts_of};
ghost use Rattle.window.specs.Indexed.{first_from, Indexed};
ghost use Rattle.rows.specs.Rows.{row_passage, rows_of, RowsPlaced};
ghost use Rattle.schedule.specs.Filled.{Filled, schedule_of, accepted_schedule_in};
ghost use Rattle.schedule.specs.Going.{kept_of, Soonest, Stands, Turned, Started, Begins, Listed, Stops, unfinished, EdgesIndexed};

use model::{Verdict, layout};
use window::{Entry, TakenEdge, Unopened};

// The open passage of a component.
#[derive(Clone, Copy)]
pub struct Node {
    pub entry: Entry,
    pub place: usize,
    pub row: usize,
}

// The message of a passage that closes, where it leads to, and what opens there.
#[derive(Clone, Copy)]
pub struct Turn {
    pub message: u8,
    pub at: Entry,
    pub opening: Result<TakenEdge, Unopened>,
}

// The verdict on the openings at tick 0, and the open passages with the ticks at which they end; after a refusal the entry of the opening refused.
#[derive(Clone, Copy)]
pub struct Opened {
    pub verdict: Verdict,
    pub nodes: [Node; 8],
    pub ends: [u32; 8],
    pub at: Entry,
}

// The verdict, and how many passages there are (0 after a refusal).
#[derive(Clone, Copy)]
pub struct Scheduled {
    pub verdict: Verdict,
    pub count: usize,
}

// How the schedule ended; after a refusal how many passages were opened before, and the entry of the opening refused.
#[derive(Clone, Copy)]
pub struct Ended {
    pub scheduled: Scheduled,
    pub passage: usize,
    pub at: Entry,
}

fn listed(count: usize) -> Scheduled
    ensures { (result.verdict ≡ Accepted) × (result.count ≡ count) }
{
    Scheduled {
        verdict: Verdict::Accepted,
        count,
    }
}

// A refusal: its number and the component concerned; no passages.
fn refused(number: u8, component: usize) -> Scheduled
    requires { component < 8 }
    ensures { (result.verdict ≡ Refused number component) × (result.count ≡ 0) }
{
    Scheduled {
        verdict: Verdict::Refused(number, component as u8),
        count: 0,
    }
}

// The same with the opening at which that happens.
fn refused_at(number: u8, component: usize, passage: usize, at: Entry) -> Ended
    requires { component < 8 }
    ensures { (result.scheduled.verdict ≡ Refused number component) × (result.scheduled.count ≡ 0) × (result.passage ≡ passage) × (result.at ≡ at) }
{
    Ended {
        scheduled: refused(number, component),
        passage,
        at,
    }
}

// Clocks and variables start at 0, at the initial location.
pub fn start_entry(table: &[u8], start: usize) -> Entry
    requires { start + 3 < length table.now }
    ensures { (result.location ≡ byte table.now (start + 3)) × (result.tick ≡ 0) × (result.clocks ≡ 0 ∷ 0 ∷ 0 ∷ 0 ∷ []) × (result.values ≡ pos 0 ∷ pos 0 ∷ pos 0 ∷ pos 0 ∷ []) }
{
    let clocks = [0u32; 4];
    let values = [0i16; 4];
    Entry {
        location: table[start + 3],
        tick: 0,
        clocks,
        values,
    }
}

// The open passage that closes next: the least end, on a tie the lowest component.
fn soonest(ends: &[u32], count: usize) -> usize
    requires { (1 ≤ count) × (count ≤ 8) × (count ≤ length ends.now) }
    ensures { Soonest ends.now count result }
{
    let mut best: usize = 0;
    for i in 1..count {
        if ends[i] < ends[best] {
            best = i;
        }
    }
    best
}

// Writes row n: the passage over that edge, entered there, with that link.
fn put_opened(rows: &mut [u32], row: usize, component: u8, at: Entry, taken: TakenEdge, back: usize)
    requires { (row * 9 + 9 ≤ length rows.old) × (row < 1024) × (taken.place < 65536) × (back < 65536) × (at.tick ≤ 60000) × (taken.ready ≤ 65535) × (taken.end ≤ 65535) }
    ensures { rows.new ≡ sets rows.old (row * 9) (component ∷ taken.edge ∷ at.location ∷ at.tick ∷ (at.tick + taken.ready) ∷ (at.tick + taken.end) ∷ 255 ∷ taken.place ∷ back ∷ []) }
{
    rows::put_row(
        rows,
        row,
        component,
        taken.edge,
        at.location,
        at.tick,
        at.tick + taken.ready,
        at.tick + taken.end,
        taken.place,
        back,
    );
}

// A passage of component c closes at its end: its message, where it leads to with that, and what opens there.
fn next_turn(
    table: &[u8],
    rows: &[u32],
    count: usize,
    start: usize,
    component: u8,
    node: Node,
    end: u32,
    horizon: u32,
    index: &[u16],
    budgets: bool,
) -> Turn
    requires { RowsPlaced table.now rows.now count × (start ≡ start_of table.now component) × Stands rows.now count component node end × (end ≤ 60000) × Indexed table.now index.now component start × (budgets ≡ budgeted table.now) }
    ensures { Turned table.now rows.now count component horizon node end result }
{
    let place = node.place;
    let entry = node.entry;
    let message = rows::message(table, rows, count, node.row, horizon);
    let at = window::leave(&table[place..], message, end, entry, budgets);
    let opening = window::open(table, start, component, at, index, budgets);
    Turn {
        message,
        at,
        opening,
    }
}

// What is kept of a passage over that edge, entered there, in that row.
fn kept(at: Entry, taken: TakenEdge, row: usize) -> Node
    ensures { result ≡ kept_of at taken row }
{
    Node {
        entry: at,
        place: taken.place,
        row,
    }
}

fn no_node() -> Node {
    let clocks = [0u32; 4];
    let values = [0i16; 4];
    let entry = Entry {
        location: 0,
        tick: 0,
        clocks,
        values,
    };
    Node {
        entry,
        place: 0,
        row: 0,
    }
}

// Notes the edges of all components by the location that they leave.
fn index_edges(table: &[u8], starts: [u16; 8], index: &mut [u16], budgets: bool)
    requires { Valid table.now × (starts ≡ starts_of table.now (byte table.now 3)) × (640 ≤ length index.old) × ((component q : ℕ) → component < 8 → q < 16 → first_from index.old component q ≡ 32) × (budgets ≡ budgeted table.now) }
    ensures { EdgesIndexed table.now index.new }
{
    let count = parts::wide(table[layout::TABLE_COMPONENTS]);
    for component in 0..count {
        window::index::put_edges(
            table,
            parts::word_place(starts[component]),
            component,
            index,
            budgets,
        );
    }
}

// The openings at tick 0, components 0 upward: rows 0 upward.
fn begin(table: &[u8], starts: [u16; 8], rows: &mut [u32], index: &[u16], budgets: bool) -> Opened
    requires { Valid table.now × (starts ≡ starts_of table.now (byte table.now 3)) × (9216 ≤ length rows.old) × EdgesIndexed table.now index.now × (budgets ≡ budgeted table.now) }
    ensures { Begins table.now rows.new result }
{
    let count = parts::wide(table[layout::TABLE_COMPONENTS]);
    let none = no_node();
    let mut nodes = [none; 8];
    let mut ends = [0u32; 8];
    for component in 0..count {
        let start = parts::word_place(starts[component]);
        let at = start_entry(table, start);
        let opening = window::open(table, start, component as u8, at, index, budgets);
        match opening {
            Err(why) => {
                return Opened {
                    verdict: Verdict::Refused(why.number(), component as u8),
                    nodes,
                    ends,
                    at,
                };
            }
            Ok(taken) => {
                put_opened(rows, component, component as u8, at, taken, component);
                nodes[component] = kept(at, taken, component);
                ends[component] = at.tick + taken.end;
            }
        }
    }
    let at = none.entry;
    Opened {
        verdict: Verdict::Accepted,
        nodes,
        ends,
        at,
    }
}

// While the least end of an open passage is below the horizon, that passage closes, gets its message, and its component's next opens.
fn go_on(
    table: &[u8],
    starts: [u16; 8],
    rows: &mut [u32],
    from: [Node; 8],
    until: [u32; 8],
    index: &[u16],
    budgets: bool,
) -> Ended
    requires { Valid table.now × (starts ≡ starts_of table.now (byte table.now 3)) × (9216 ≤ length rows.old) × Started table.now rows.old from until × EdgesIndexed table.now index.now × (budgets ≡ budgeted table.now) }
    ensures lists { Listed table.now (unfinished table.now) result.scheduled rows.new }
    ensures stops { Stops table.now result }
{
    let count = parts::wide(table[layout::TABLE_COMPONENTS]);
    let horizon = parts::word32(parts::word_at(table, layout::TABLE_HORIZON));
    let mut nodes = from;
    let mut ends = until;
    let mut filled = count;
    // A loop: how many passages open is known only where the least end reaches the horizon.
    loop {
        let component = soonest(&ends, count);
        let end = ends[component];
        let node = nodes[component];
        if horizon <= end {
            let at = node.entry;
            return Ended {
                scheduled: listed(filled),
                passage: filled,
                at,
            };
        }
        let turn = next_turn(
            table,
            rows,
            filled,
            parts::word_place(starts[component]),
            component as u8,
            node,
            end,
            horizon,
            index,
            budgets,
        );
        let at = turn.at;
        if 1024 <= filled {
            return refused_at(7, component, filled, at);
        }
        let opening = turn.opening;
        match opening {
            Err(why) => {
                return refused_at(why.number(), component, filled, at);
            }
            Ok(next) => {
                let back = rows::open_before(rows, filled, at.tick + next.end + 1);
                put_opened(rows, filled, component as u8, at, next, back);
                rows::put_message(rows, node.row, turn.message);
                nodes[component] = kept(at, next, filled);
                ends[component] = at.tick + next.end;
            }
        }
        filled += 1;
    }
}

// Makes the schedule (checks 7 to 9), messages included, and says where it stops.
pub fn schedule_to_end(table: &[u8], starts: [u16; 8], rows: &mut [u32]) -> Ended
    requires { Valid table.now × (starts ≡ starts_of table.now (byte table.now 3)) × (9216 ≤ length rows.old) }
    ensures fills { Filled table.now (schedule_of table.now) result.scheduled rows.new }
    ensures stops { Stops table.now result }
{
    let budgets = decoder::budgeted(table);
    let mut index = [32u16; 640];
    index_edges(table, starts, &mut index, budgets);
    let begun = begin(table, starts, rows, &index, budgets);
    let verdict = begun.verdict;
    match verdict {
        Verdict::Refused(number, component) => {
            let at = begun.at;
            Ended {
                scheduled: Scheduled {
                    verdict: Verdict::Refused(number, component),
                    count: 0,
                },
                passage: parts::wide(component),
                at,
            }
        }
        Verdict::Accepted => {
            let nodes = begun.nodes;
            let ends = begun.ends;
            let r = go_on(table, starts, rows, nodes, ends, &index, budgets);
            let scheduled = r.scheduled;
            rows::put_messages(
                table,
                rows,
                scheduled.count,
                parts::word32(parts::word_at(table, layout::TABLE_HORIZON)),
            );
            r
        }
    }
}

// Makes the schedule (checks 7 to 9), messages included.
pub fn schedule_rows(table: &[u8], starts: [u16; 8], rows: &mut [u32]) -> Scheduled
    requires { Valid table.now × (starts ≡ starts_of table.now (byte table.now 3)) × (9216 ≤ length rows.old) }
    ensures { Filled table.now (schedule_of table.now) result rows.new }
{
    let ended = schedule_to_end(table, starts, rows);
    ended.scheduled
}

// The same with checks 10 to 12 at a spread.
pub fn plan_rows(table: &[u8], starts: [u16; 8], rows: &mut [u32], spread: u32) -> Scheduled
    requires { Valid table.now × (starts ≡ starts_of table.now (byte table.now 3)) × (9216 ≤ length rows.old) }
    ensures { Filled table.now (accepted_schedule_in spread table.now) result rows.new }
{
    let r = schedule_rows(table, starts, rows);
    let verdict = r.verdict;
    match verdict {
        Verdict::Refused(_, _) => r,
        Verdict::Accepted => {
            let checked = checks::check_messages(
                table,
                rows,
                r.count,
                parts::word32(parts::word_at(table, layout::TABLE_HORIZON)),
                spread,
            );
            match checked {
                Verdict::Refused(number, component) => Scheduled {
                    verdict: Verdict::Refused(number, component),
                    count: 0,
                },
                Verdict::Accepted => r,
            }
        }
    }
}

// The seven fields of row i, as passage number k of the list.
pub fn put_seven(rows: &[u32], i: usize, out: &mut [u32], k: usize)
    requires { (i * 9 + 9 ≤ length rows.now) × (k * 7 + 7 ≤ length out.old) × (k ≤ 1024) }
    ensures { out.new ≡ sets out.old (k * 7) (seven_of (row_passage rows.now i)) }
{
    let at = k * 7;
    out[at] = rows::number(rows, i, rows::COMPONENT);
    out[at + 1] = rows::number(rows, i, rows::EDGE);
    out[at + 2] = rows::number(rows, i, rows::LOCATION);
    out[at + 3] = rows::number(rows, i, rows::ENTRY);
    out[at + 4] = rows::number(rows, i, rows::READY);
    out[at + 5] = rows::number(rows, i, rows::END);
    out[at + 6] = rows::number(rows, i, rows::MESSAGE);
}

// Copies the seven fields of n rows; what lies past them stays.
pub fn put_fields(rows: &[u32], count: usize, out: &mut [u32])
    requires { (count * 9 ≤ length rows.now) × (count * 7 ≤ length out.old) × (count ≤ 1024) }
    ensures { out.new ≡ each seven_of (rows_of rows.now count) ++ drop (count * 7) out.old }
{
    for i in 0..count {
        put_seven(rows, i, out, i);
    }
}
