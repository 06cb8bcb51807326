// Clocks and variables are not kept in the rows: they are found again along them, passage by passage.
#![tactic(auto)]

ghost use Rattle.std.specs.Prelude.{◌≤◌, ◌≡◌};
ghost use Rattle.model.specs.Lists.{All};
ghost use Rattle.model.specs.Schedule.{passage_arc};
ghost use Rattle.model.specs.Places.{budgeted, read_of};
ghost use Rattle.rows.specs.Rows.{num, row_passage, RowKnown};
ghost use Rattle.replay.specs.Growing.{Grown};

use window::Entry;

// Clocks and variables after the passage of row i, from those at its entry; the location stays. The parts of `window::leave`, which is made for its
// one caller, the schedule: with a second one the compiler would no longer put it there.
pub fn grown(table: &[u8], rows: &[u32], i: usize, at: Entry, budgets: bool) -> Entry
    requires { RowKnown table.now rows.now i × (at.tick ≤ num rows.now i 5) × All (λ x. x ≤ at.tick) at.clocks × (budgets ≡ budgeted table.now) }
    ensures { Grown (passage_arc (read_of table.now).table (row_passage rows.now i)) (num rows.now i 5) at result }
{
    let place = rows::index(rows, i, rows::PLACE);
    let end = rows::number(rows, i, rows::END);
    let before = at.values;
    let values = window::updates::edge_update(&table[place..], before, budgets).unwrap_or(before);
    let young = at.clocks;
    let edge = decoder::edge_at(&table[place..], budgets);
    let clocks = window::age(edge.mask, end - at.tick, young);
    Entry {
        location: at.location,
        tick: end,
        clocks,
        values,
    }
}
