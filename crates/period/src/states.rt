// Whether two states of all components are the same: locations, and of clocks and variables as many as each component has.
ghost use Rattle.std.specs.Prelude.{◌≡◌, ◌↔◌, true, ◌+◌, ◌*◌, ◌≤◌, ◌<◌, length};
ghost use Rattle.model.specs.Reader.{byte};
ghost use Rattle.model.specs.Places.{Valid, read_of};
ghost use Rattle.model.specs.Table.{size};
ghost use Rattle.table.specs.Directory.{starts_of};
ghost use Rattle.schedule.specs.Filled.{AcceptedRows};
ghost use Rattle.recurrence.proofs.Joint.{RowsAlike};
ghost use Rattle.period.specs.Walking.{schedule_in, On, Joins, SameNumbers, NumbersAgree, PlacesAgree};

use crate::Walker;
use model::layout;
use window::Entry;

// Whether two entries of a component with so many clocks and variables have them in common.
fn same_numbers(first: Entry, second: Entry, clocks: u8, variables: u8) -> bool
    requires { (clocks ≤ 4) × (variables ≤ 4) }
    ensures { (result ≡ true) ↔ SameNumbers clocks variables first second }
{
    let clocks = usize::from(clocks);
    let variables = usize::from(variables);
    first.clocks[..clocks] == second.clocks[..clocks]
        && first.values[..variables] == second.values[..variables]
}

// Whether all components have their clocks and variables in common at both places.
fn numbers_agree(
    table: &[u8],
    starts: [u16; 8],
    components: usize,
    first: Walker,
    second: Walker,
) -> bool
    requires { Valid table.now × (starts ≡ starts_of table.now (byte table.now 3)) × (components ≡ size (read_of table.now).table) }
    ensures { (result ≡ true) ↔ NumbersAgree table.now components first second }
{
    let here = first.entries;
    let there = second.entries;
    for c in 0..components {
        let start = parts::word_place(starts[c]);
        let clocks = table[start + layout::COMPONENT_CLOCKS];
        let variables = table[start + layout::COMPONENT_VARIABLES];
        if !same_numbers(here[c], there[c], clocks, variables) {
            return false;
        }
    }
    true
}

// Whether the locations of the rows from both on are the same.
fn places_agree(rows: &[u32], count: usize, components: usize, first: usize, second: usize) -> bool
    requires { (count * 9 ≤ length rows.now) × (count ≤ 1024) × (first + components ≤ count) × (second + components ≤ count) }
    ensures { (result ≡ true) ↔ PlacesAgree rows.now components first second }
{
    for c in 0..components {
        let here = rows::number(rows, first + c, rows::LOCATION);
        let there = rows::number(rows, second + c, rows::LOCATION);
        if here != there {
            return false;
        }
    }
    true
}

// Whether all components enter at that row, at the locations of the other.
pub fn enter_there(rows: &[u32], count: usize, components: usize, row: usize, other: usize) -> bool
    requires { (count * 9 ≤ length rows.now) × (count ≤ 1024) × (row < count) × (1 ≤ components) × (components ≤ 8) × (other + components ≤ count) }
    ensures { (result ≡ true) ↔ (Joins rows.now count components row × PlacesAgree rows.now components row other) }
{
    if crate::joins(rows, count, components, row) {
        return places_agree(rows, count, components, row, other);
    }
    false
}

// Whether all components enter in the same states at two rows at which all enter.
pub fn alike(
    table: &[u8],
    rows: &[u32],
    count: usize,
    starts: [u16; 8],
    components: usize,
    first: Walker,
    second: Walker,
) -> bool
    requires { AcceptedRows table.now rows.now count × (starts ≡ starts_of table.now (byte table.now 3)) × (components ≡ size (read_of table.now).table) × On table.now count first × On table.now count second × Joins rows.now count components first.row × Joins rows.now count components second.row }
    ensures { (result ≡ true) ↔ RowsAlike (schedule_in table.now) components first.row second.row }
{
    if !places_agree(rows, count, components, first.row, second.row) {
        return false;
    }
    numbers_agree(table, starts, components, first, second)
}
