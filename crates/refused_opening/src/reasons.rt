// Why no edge is a candidate at an entry: of the edges that leave the location, how many fail by their data bounds, and how many of the others have no
// window.
ghost use Rattle.std.specs.Prelude.{◌≡◌, ◌+◌, ◌*◌, ◌≤◌, ◌<◌, length};
ghost use Rattle.model.specs.Table.{size};
ghost use Rattle.model.specs.Places.{start_of, Valid, read_of, component_in};
ghost use Rattle.window.specs.Views.{entry_of};
ghost use Rattle.opening_place.specs.Opening.{reasons_for};
ghost use Rattle.schedule.specs.Going.{stop_of};
ghost use Rattle.refused_opening.specs.Counting.{leaves, fails, shut, reasons_of, reasons_among};

use crate::Tally;
use model::{Location, layout};
use window::{Entry, Standing};

fn tallied(tally: Tally, standing: Standing) -> Tally
    requires { (tally.leaving < 255) × (tally.blocked < 255) × (tally.windowless < 255) }
    ensures { (result.leaving ≡ tally.leaving + leaves standing) × (result.blocked ≡ tally.blocked + fails standing) × (result.windowless ≡ tally.windowless + shut standing) }
{
    match standing {
        Standing::Elsewhere => tally,
        Standing::Blocked(_) => Tally {
            leaving: tally.leaving + 1,
            blocked: tally.blocked + 1,
            windowless: tally.windowless,
        },
        Standing::Windowless => Tally {
            leaving: tally.leaving + 1,
            blocked: tally.blocked,
            windowless: tally.windowless + 1,
        },
        Standing::Candidate(_, _) => Tally {
            leaving: tally.leaving + 1,
            blocked: tally.blocked,
            windowless: tally.windowless,
        },
    }
}

fn none_counted() -> Tally
    ensures { (result.leaving ≡ 0) × (result.blocked ≡ 0) × (result.windowless ≡ 0) }
{
    Tally {
        leaving: 0,
        blocked: 0,
        windowless: 0,
    }
}

// The edges of component c, which starts there in the table, at an entry of a location that it has.
fn count_edges(table: &[u8], start: usize, c: u8, location: Location, at: Entry) -> Tally
    requires { Valid table.now × (c < size (read_of table.now).table) × (start ≡ start_of table.now c) × (location.clock < 4) }
    ensures { reasons_of result ≡ reasons_among location (entry_of at) (component_in table.now c).arcs }
{
    let budgets = decoder::budgeted(table);
    let count = parts::wide(table[start + layout::COMPONENT_EDGES]);
    let mut place = start
        + layout::COMPONENT_HEADER
        + parts::wide(table[start + layout::COMPONENT_LOCATIONS]) * layout::LOCATION_WIDTH;
    let mut tally = none_counted();
    for _ in 0..count {
        let found = window::judge(&table[place..], location, at, budgets);
        tally = tallied(tally, found);
        place += decoder::arc_length(&table[place..], budgets);
    }
    tally
}

// The reasons that are told with 8.
pub fn reasons_for(table: &[u8], start: usize, c: u8, number: u8, at: Entry) -> Tally
    requires { Valid table.now × (c < size (read_of table.now).table) × (start ≡ start_of table.now c) × (at.location < length (component_in table.now c).locations) }
    ensures { reasons_of result ≡ reasons_for (stop_of table.now number 0 c at) }
{
    if number != 8 {
        return none_counted();
    }
    let there = start
        + layout::COMPONENT_HEADER
        + parts::wide(at.location) * layout::LOCATION_WIDTH;
    let location = decoder::location_at(&table[there..]);
    count_edges(table, start, c, location, at)
}
