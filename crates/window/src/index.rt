// The edges of a component by the location that they leave: noted once, so that an opening looks at no other edge.
ghost use Rattle.std.specs.Prelude.{◌≡◌, ℕ, ◌+◌, ◌*◌, ◌≤◌, ◌<◌, length};
ghost use Rattle.model.specs.Table.{size};
ghost use Rattle.model.specs.Places.{budgeted, arc_place, start_of, Valid, read_of, component_in};
ghost use Rattle.window.specs.Indexed.{first_from, place_of, Indexed, Within, PlacesPut, LinksPut};

use model::layout;

// A component has 80 numbers in the index: for each location the first edge that leaves it, for each edge the next one that leaves the same location,
// and for each edge the place of its first byte.
pub const NEXT: usize = 16;

pub const PLACE: usize = 48;

pub const COMPONENT_WIDTH: usize = 80;

// Notes the place of each edge of component c, which starts there in the table.
fn put_places(table: &[u8], start: usize, c: usize, index: &mut [u16], budgets: bool)
    requires { Valid table.now × (c < size (read_of table.now).table) × (start ≡ start_of table.now c) × (c < 8) × (c * 80 + 80 ≤ length index.old) × (length table.now ≤ 8192) × (budgets ≡ budgeted table.now) }
    ensures { PlacesPut table.now index.old index.new c start (length (component_in table.now c).arcs) }
{
    let from = c * COMPONENT_WIDTH + PLACE;
    let count = parts::wide(table[start + layout::COMPONENT_EDGES]);
    let mut place = start
        + layout::COMPONENT_HEADER
        + parts::wide(table[start + layout::COMPONENT_LOCATIONS]) * layout::LOCATION_WIDTH;
    for e in 0..count {
        index[from + e] = place as u16;
        place += decoder::arc_length(&table[place..], budgets);
    }
}

// Links the edges of component c whose places are noted, from the last to the first: those that leave one location, each with the next.
fn put_links(table: &[u8], start: usize, c: usize, index: &mut [u16])
    requires { Valid table.now × (c < size (read_of table.now).table) × (start ≡ start_of table.now c) × (c < 8) × (c * 80 + 80 ≤ length index.old) × ((e : ℕ) → e < length (component_in table.now c).arcs → place_of index.old c e ≡ arc_place table.now start e) × ((q : ℕ) → q < 16 → first_from index.old c q ≡ 32) }
    ensures { LinksPut table.now index.old index.new c 0 }
{
    let from = c * COMPONENT_WIDTH;
    let count = parts::wide(table[start + layout::COMPONENT_EDGES]);
    for e in (0..count).rev() {
        let place = index[from + PLACE + e] as usize;
        let first = from + parts::wide(table[place + layout::EDGE_SOURCE]);
        index[from + NEXT + e] = index[first];
        index[first] = e as u16;
    }
}

// Notes the edges of component c, which starts there in the table, in its part of the index.
pub fn put_edges(table: &[u8], start: usize, c: usize, index: &mut [u16], budgets: bool)
    requires { Valid table.now × (c < size (read_of table.now).table) × (start ≡ start_of table.now c) × (c < 8) × (c * 80 + 80 ≤ length index.old) × (length table.now ≤ 8192) × ((q : ℕ) → q < 16 → first_from index.old c q ≡ 32) × (budgets ≡ budgeted table.now) }
    ensures noted { Indexed table.now index.new c start }
    ensures others { Within index.old index.new c }
{
    put_places(table, start, c, index, budgets);
    put_links(table, start, c, index);
}
