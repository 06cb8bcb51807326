// Why this edge (document 02, wish 7): the passage of a component at a tick, and the reason of each edge from its location. The definitions are
// specs/Reasons.antt of `model`.
#![tactic(auto)]

pub mod telling;

ghost use Rattle.std.specs.Prelude.{◌≡◌, ◌+◌, ◌*◌, ◌≤◌, ◌<◌, length};
ghost use Rattle.model.specs.declared.Verdict.TheVariants.{Refused};
ghost use Rattle.model.specs.Lists.{All, accepted};
ghost use Rattle.model.specs.Schedule.{passage_arc};
ghost use Rattle.model.specs.Reader.{byte};
ghost use Rattle.model.specs.Places.{budgeted, read_of, start_of, Valid};
ghost use Rattle.model.specs.Reasons.{asked, reasons_call, ReasonsTrue};
ghost use Rattle.model.specs.Reasons.{told as toldOf};
ghost use Rattle.table.specs.Directory.{starts_of};
ghost use Rattle.window.specs.Views.{entry_of};
ghost use Rattle.rows.specs.Rows.{num, row_passage, RowKnown};
ghost use Rattle.replay.specs.Growing.{relocated};
ghost use Rattle.reasons.specs.Stays.{Walked, Stayed, named_by, Present, Answers};
ghost use Rattle.reasons.specs.Telling.{Tells};

use model::{Verdict, layout};
use window::Entry;

// The row of a passage, and its entry with clocks and variables.
#[derive(Clone, Copy)]
pub struct Stay {
    pub row: usize,
    pub at: Entry,
}

// The passage that a question names: its number, where its component starts in the table, its fields, and its entry with clocks and variables. After
// a refusal there is none, and only the verdict counts.
#[derive(Clone, Copy)]
pub struct Asked {
    pub verdict: Verdict,
    pub number: usize,
    pub start: usize,
    pub component: u8,
    pub edge: u8,
    pub message: u8,
    pub ready: u32,
    pub end: u32,
    pub at: Entry,
}

// The verdict, the number of the passage, and how many edges are told; both are 0 after a refusal.
#[derive(Clone, Copy)]
pub struct Told {
    pub verdict: Verdict,
    pub passage: usize,
    pub size: usize,
}

// The passage of row i, entered with these clocks and variables at the location of the row.
fn stay_in(rows: &[u32], i: usize, at: Entry) -> Stay
    requires { (i * 9 + 9 ≤ length rows.now) × (num rows.now i 2 < 256) }
    ensures { (result.row ≡ i) × (entry_of result.at ≡ relocated (num rows.now i 2) (entry_of at)) }
{
    let clocks = at.clocks;
    let values = at.values;
    Stay {
        row: i,
        at: Entry {
            location: rows::number(rows, i, rows::LOCATION) as u8,
            tick: at.tick,
            clocks,
            values,
        },
    }
}

// The passage of component c, which starts there in the table, at the tick, among the rows.
fn stay_at(
    table: &[u8],
    start: usize,
    rows: &[u32],
    count: usize,
    c: u8,
    tick: u32,
    budgets: bool,
) -> Stay
    requires { Walked table.now rows.now count c tick × (start ≡ start_of table.now c) × (budgets ≡ budgeted table.now) }
    ensures { Stayed table.now rows.now count c tick result }
{
    let mut at = schedule::start_entry(table, start);
    for i in 0..count {
        if rows::number(rows, i, rows::COMPONENT) == parts::wide32(c) {
            if tick < rows::number(rows, i, rows::END) {
                return stay_in(rows, i, at);
            }
            at = replay::grown(table, rows, i, at, budgets);
        }
    }
    Stay { row: count, at }
}

// The passage of component c, which starts there in the table, at the tick, with its fields.
fn named(
    table: &[u8],
    start: usize,
    rows: &[u32],
    count: usize,
    c: u8,
    tick: u32,
    budgets: bool,
) -> Asked
    requires { Walked table.now rows.now count c tick × (start ≡ start_of table.now c) × (budgets ≡ budgeted table.now) }
    ensures { Answers table.now (asked table.now c tick) result }
{
    let stay = stay_at(table, start, rows, count, c, tick, budgets);
    let i = stay.row;
    let at = stay.at;
    Asked {
        verdict: Verdict::Accepted,
        number: i,
        start,
        component: c,
        edge: rows::number(rows, i, rows::EDGE) as u8,
        message: rows::number(rows, i, rows::MESSAGE) as u8,
        ready: rows::number(rows, i, rows::READY),
        end: rows::number(rows, i, rows::END),
        at,
    }
}

// Nothing is named.
fn nothing(number: u8, component: u8) -> Asked
    ensures { result.verdict ≡ Refused number component }
{
    let clocks = [0u32; 4];
    let values = [0i16; 4];
    Asked {
        verdict: Verdict::Refused(number, component),
        number: 0,
        start: 0,
        component: 0,
        edge: 0,
        message: 0,
        ready: 0,
        end: 0,
        at: Entry {
            location: 0,
            tick: 0,
            clocks,
            values,
        },
    }
}

// The question in a table that was read.
fn ask_read(table: &[u8], starts: [u16; 8], component: u32, tick: u32) -> Asked
    requires { Valid table.now × (starts ≡ starts_of table.now (byte table.now 3)) }
    ensures { Answers table.now (asked table.now component tick) result }
{
    let mut rows = [0u32; 9216];
    let planned = schedule::plan_rows(table, starts, &mut rows, 0);
    let verdict = planned.verdict;
    match verdict {
        Verdict::Refused(number, concerned) => nothing(number, concerned),
        Verdict::Accepted => {
            if parts::wide32(table[layout::TABLE_COMPONENTS]) <= component {
                return nothing(21, 255);
            }
            if parts::word32(parts::word_at(table, layout::TABLE_HORIZON)) <= tick {
                return nothing(21, 255);
            }
            let c = component as u8;
            let start = parts::word_place(starts[parts::wide(c)]);
            let budgets = decoder::budgeted(table);
            named(table, start, &rows, planned.count, c, tick, budgets)
        }
    }
}

// The passage that a component and a tick name, if the table is accepted and they are there.
pub fn ask(table: &[u8], component: u32, tick: u32) -> Asked
    ensures { Answers table.now (asked table.now component tick) result }
{
    let r = table::read(table);
    let v = r.verdict;
    match v {
        Verdict::Refused(number, concerned) => nothing(number, concerned),
        Verdict::Accepted => {
            let starts = r.starts;
            ask_read(table, starts, component, tick)
        }
    }
}

fn refused(number: u8, component: u8) -> Told
    ensures { (result.verdict ≡ Refused number component) × (result.passage ≡ 0) × (result.size ≡ 0) }
{
    Told {
        verdict: Verdict::Refused(number, component),
        passage: 0,
        size: 0,
    }
}

// The reasons of the edges from the location of a passage, laid over the front of the lent bytes.
fn tell(table: &[u8], asked: Asked, told: &mut [u8]) -> Told
    requires { Present table.now asked }
    ensures { Tells (toldOf told.old (accepted (named_by table.now asked))) result told.new × (result.passage ≤ 1024) × (result.size ≤ 32) }
{
    let at = asked.at;
    let budgets = decoder::budgeted(table);
    let size = telling::count_edges(table, asked.start, asked.component, at.location, budgets);
    if told.len() / 3 < size {
        return refused(13, 255);
    }
    telling::put_reasons(
        table,
        asked.start,
        asked.component,
        at,
        asked.edge,
        asked.ready,
        told,
        budgets,
    );
    Told {
        verdict: Verdict::Accepted,
        passage: asked.number,
        size,
    }
}

// Why a component took the edge that it passes over at a tick, and no other: three bytes an edge from its location.
pub fn reasons(table: &[u8], component: u32, tick: u32, told: &mut [u8]) -> Told
    ensures tells { Tells (reasons_call table.now component tick told.old) result told.new }
    ensures reasons_true { ReasonsTrue table.now component tick × (result.passage ≤ 1024) × (result.size ≤ 32) }
{
    let asked = ask(table, component, tick);
    let v = asked.verdict;
    match v {
        Verdict::Refused(number, concerned) => refused(number, concerned),
        Verdict::Accepted => tell(table, asked, told),
    }
}
