// Where the schedule stops: the opening that 7, 8 or 9 refuses, and why (document 01, 'Checks, in this order'). The definitions are
// specs/Opening.antt of `opening_place`.
#![tactic(auto)]

pub mod reasons;
pub mod updates;

ghost use Rattle.std.specs.Prelude.{◌≡◌, cond, ◌+◌, ◌≤◌, ◌<◌, pos, length, take};
ghost use Rattle.std.proofs.Math.Option.{some};
ghost use Rattle.model.specs.Table.{size};
ghost use Rattle.model.specs.Reader.{byte};
ghost use Rattle.model.specs.Places.{start_of, Valid, read_of, component_in};
ghost use Rattle.table.specs.Directory.{starts_of};
ghost use Rattle.schedule.specs.Going.{stop_of, stop_in};
ghost use Rattle.model.specs.Run.{four};
ghost use Rattle.opening_place.specs.Opening.{no_opening, opening_told, opening_of};

use model::{Verdict, layout};
use opening_place::RefusedOpening;
use window::Entry;

// How many edges leave the location, and how many of them have each reason.
#[derive(Clone, Copy)]
pub struct Tally {
    pub leaving: u8,
    pub blocked: u8,
    pub windowless: u8,
}

// The edge taken and its first update that leaves the range.
#[derive(Clone, Copy)]
pub struct Overflow {
    pub edge: u8,
    pub update: u8,
}

// What is told where no update leaves the range.
const NO_OVERFLOW: Overflow = Overflow {
    edge: 255,
    update: 255,
};

// No opening is refused.
fn no_opening() -> RefusedOpening
    ensures { result ≡ no_opening }
{
    let clocks = [0u32; 4];
    let values = [0i16; 4];
    RefusedOpening {
        number: 0,
        component: 255,
        passage: 0,
        location: 0,
        tick: 0,
        clocks,
        values,
        leaving: 0,
        blocked: 0,
        windowless: 0,
        edge: 255,
        update: 255,
    }
}

fn shown<T: Copy>(there: bool, item: T, absent: T) -> T
    ensures { result ≡ cond there item absent }
{
    if there { item } else { absent }
}

// The clocks or variables that a component has, with another value for those that it lacks.
fn first_shown<T: Copy>(count: u8, items: [T; 4], absent: T) -> [T; 4]
    ensures { result ≡ four absent (take count items) }
{
    [
        shown(0 < count, items[0], absent),
        shown(1 < count, items[1], absent),
        shown(2 < count, items[2], absent),
        shown(3 < count, items[3], absent),
    ]
}

// The opening of component c, which starts there in the table, that is refused with that number.
fn told(table: &[u8], start: usize, number: u8, c: u8, passage: usize, at: Entry) -> RefusedOpening
    requires { Valid table.now × (c < size (read_of table.now).table) × (start ≡ start_of table.now c) × (at.location < length (component_in table.now c).locations) × (passage ≤ 1024) }
    ensures { result ≡ opening_told (some (stop_of table.now number passage c at)) }
{
    let clocks = at.clocks;
    let values = at.values;
    let reasons = reasons::reasons_for(table, start, c, number, at);
    let overflow = updates::overflow_for(table, start, c, number, at).unwrap_or(NO_OVERFLOW);
    RefusedOpening {
        number,
        component: c,
        passage: passage as u32,
        location: at.location,
        tick: at.tick,
        clocks: first_shown(table[start + layout::COMPONENT_CLOCKS], clocks, 0),
        values: first_shown(table[start + layout::COMPONENT_VARIABLES], values, 0),
        leaving: reasons.leaving,
        blocked: reasons.blocked,
        windowless: reasons.windowless,
        edge: overflow.edge,
        update: overflow.update,
    }
}

// The opening refused in a table that was read.
fn locate_read(table: &[u8], starts: [u16; 8]) -> RefusedOpening
    requires { Valid table.now × (starts ≡ starts_of table.now (byte table.now 3)) }
    ensures { result ≡ opening_told (stop_in table.now) }
{
    let mut rows = [0u32; 9216];
    let ended = schedule::schedule_to_end(table, starts, &mut rows);
    let scheduled = ended.scheduled;
    let verdict = scheduled.verdict;
    match verdict {
        Verdict::Accepted => no_opening(),
        Verdict::Refused(number, component) => {
            let at = ended.at;
            let start = parts::word_place(starts[parts::wide(component)]);
            told(table, start, number, component, ended.passage, at)
        }
    }
}

// The opening that is refused with 7, 8 or 9; number 0 for any other table.
pub fn locate(table: &[u8]) -> RefusedOpening
    ensures { result ≡ opening_of table.now }
{
    let r = table::read(table);
    let v = r.verdict;
    match v {
        Verdict::Refused(_, _) => no_opening(),
        Verdict::Accepted => {
            let starts = r.starts;
            locate_read(table, starts)
        }
    }
}
