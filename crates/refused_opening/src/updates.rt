// Which update of the edge taken leaves the range.
ghost use Rattle.std.specs.Prelude.{◌≡◌, ◌*◌, ◌≤◌, ◌<◌, length};
ghost use Rattle.model.specs.Lists.{All};
ghost use Rattle.model.specs.Table.{size};
ghost use Rattle.model.specs.Reader.{update_at};
ghost use Rattle.model.specs.Places.{list_at, arc_at, start_of, Valid, read_of, component_in};
ghost use Rattle.window.specs.Views.{entry_of, option_of, ArcReady};
ghost use Rattle.opening_place.specs.Opening.{first_out, overflow, overflow_for};
ghost use Rattle.schedule.specs.Going.{stop_of};
ghost use Rattle.refused_opening.specs.Counting.{overflow_of};

use crate::Overflow;
use model::{Action, layout};
use window::Entry;

// Of `count` updates, in order; `updates` begins at the first update.
fn first_of(updates: &[u8], count: u8, values: [i16; 4]) -> Option<u8>
    requires { (count * 4 ≤ length updates.now) × All (λ u. u.variable < 4) (list_at update_at 4 count updates.now) }
    ensures { option_of result ≡ first_out 0 (list_at update_at 4 count updates.now) values }
{
    let mut changed = values;
    let mut at: usize = 0;
    for done in 0..count {
        match window::updates::update(&updates[at..], 1, changed) {
            None => return Some(done),
            Some(after) => changed = after,
        }
        at += layout::UPDATE_WIDTH;
    }
    None
}

// Of the edge at the front of the bytes (only an internal edge has updates).
fn first_out(bytes: &[u8], values: [i16; 4], budgets: bool) -> Option<u8>
    requires { ArcReady budgets bytes.now }
    ensures { option_of result ≡ first_out 0 (arc_at budgets bytes.now).updates values }
{
    let action = decoder::action_at(bytes, budgets);
    match action {
        Action::Internal => {
            let items = decoder::items_place(bytes, budgets);
            first_of(&bytes[items..], bytes[layout::EDGE_ITEMS], values)
        }
        Action::Send(_) => None,
        Action::Receive => None,
    }
}

// The edge that component c, which starts there in the table, takes as it enters, and its update.
fn overflow_there(table: &[u8], start: usize, c: u8, at: Entry) -> Option<Overflow>
    requires { Valid table.now × (c < size (read_of table.now).table) × (start ≡ start_of table.now c) × (at.location < length (component_in table.now c).locations) }
    ensures { overflow_of result ≡ overflow (component_in table.now c) (entry_of at) }
{
    let budgets = decoder::budgeted(table);
    let mut index = [32u16; 640];
    window::index::put_edges(table, start, parts::wide(c), &mut index, budgets);
    let found = window::choose(table, start, c, at, &index, budgets);
    let chosen = found.choice;
    if 65535 < chosen.ready {
        return None;
    }
    let place = chosen.place;
    let values = at.values;
    let update = first_out(&table[place..], values, budgets)?;
    Some(Overflow {
        edge: chosen.edge as u8,
        update,
    })
}

// The overflow that is told with 9.
pub fn overflow_for(table: &[u8], start: usize, c: u8, number: u8, at: Entry) -> Option<Overflow>
    requires { Valid table.now × (c < size (read_of table.now).table) × (start ≡ start_of table.now c) × (at.location < length (component_in table.now c).locations) }
    ensures { overflow_of result ≡ overflow_for (stop_of table.now number 0 c at) }
{
    if number != 9 {
        return None;
    }
    overflow_there(table, start, c, at)
}
