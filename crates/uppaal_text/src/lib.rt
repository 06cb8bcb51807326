// Writes a valid table for UPPAAL: its processes and the system. What lies past the buffer's end is counted and not stored.
// Text is put into a lent slice, from a place on, and the place behind it is answered: memory is fixed, and what does not fit is counted.
#![tactic(auto)]

ghost use Rattle.std.specs.Prelude.{◌≡◌, ◌++◌, ℕ, ◌+◌, ◌-◌, ◌*◌, ◌≤◌, ◌<◌, length, drop};
ghost use Rattle.model.specs.Lists.{each, from};
ghost use Rattle.model.specs.Table.{location_of};
ghost use Rattle.model.specs.Reader.{byte};
ghost use Rattle.model.specs.Places.{arc_at, Valid, read_of};
ghost use Rattle.table.specs.Directory.{starts_of};
ghost use Rattle.blocks.specs.Put.{Put};
ghost use Rattle.translator.specs.Front.{front_component};
ghost use Rattle.words.specs.Words.{ascii};
ghost use Rattle.uppaal.specs.Xta.{location};
ghost use Rattle.uppaal.specs.XtaText.{listed, name_text, location_text, transition_text, process_text, process_texts, system_text};
ghost use Rattle.uppaal.specs.Export.{plain_location, process_for, system_for};
ghost use Rattle.uppaal_steps.specs.Steps.{Writable, edge_text};
ghost use Rattle.uppaal_text.specs.Texts.{Exportable, further_name, names_text, head_text, place_text, plain_text, edges_text};

use model::{Location, layout};
use uppaal_steps::Origin;

// A name with a number, behind another.
fn put_further_name(letter: &[u8], number: u8, out: &mut [u8], at: usize) -> usize
    requires { (length letter.now ≤ 1) × (at + 13 ≤ 2305843009213693952) }
    ensures { Put out.old at (further_name letter.now number) result out.new × (result ≤ at + 13) }
{
    let name = words::put_words(out, at, b", ");
    words::put_field(out, name, letter, number as u32)
}

// Those from number 1 on.
fn put_further_names(letter: &[u8], count: u8, out: &mut [u8], at: usize) -> usize
    requires { (length letter.now ≤ 1) × (1 ≤ count) × (count ≤ 16) × (at + (count - 1) * 13 ≤ 2305843009213693952) }
    ensures { Put out.old at (each (further_name letter.now) (from 1 (count - 1))) result out.new × (result ≤ at + (count - 1) * 13) }
{
    let mut next = at;
    for i in 1..count {
        next = put_further_name(letter, i, out, next);
    }
    next
}

// So many names, numbered from 0, if any.
fn put_names(before: &[u8], letter: &[u8], count: u8, out: &mut [u8], at: usize) -> usize
    requires { (length before.now ≤ 18) × (length letter.now ≤ 1) × (count ≤ 16) × (at + 240 ≤ 2305843009213693952) }
    ensures { Put out.old at (names_text before.now letter.now count) result out.new × (result ≤ at + 240) }
{
    if count == 0 {
        return at;
    }
    let first = words::put_words(out, at, before);
    let second = words::put_field(out, first, letter, 0);
    let third = put_further_names(letter, count, out, second);
    words::put_words(out, third, b";\n")
}

// A location of the table, behind another.
fn put_location(number: u8, location: Location, out: &mut [u8], at: usize) -> usize
    requires { at + 60 ≤ 2305843009213693952 }
    ensures { Put out.old at (plain_text number location) result out.new × (result ≤ at + 60) }
{
    let first = words::put_field(out, at, b",\n  L", number as u32);
    let second = words::put_field(out, first, b" { x", location.clock as u32);
    let third = words::put_field(out, second, b" <= ", location.bound as u32);
    words::put_words(out, third, b" }")
}

// The locations of the component at the front, each behind another.
fn put_locations(component: &[u8], budgets: bool, out: &mut [u8], at: usize) -> usize
    requires { Exportable budgets component.now × (at + 1000 ≤ 2305843009213693952) }
    ensures { Put out.old at (each (λ l. place_text (plain_location (front_component budgets component.now) l)) (from 0 (byte component.now 2))) result out.new × (result ≤ at + 1000) }
{
    let count = component[layout::COMPONENT_LOCATIONS];
    let mut next = at;
    for number in 0..count {
        let place = layout::COMPONENT_HEADER + usize::from(number) * layout::LOCATION_WIDTH;
        let location = decoder::location_at(&component[place..]);
        next = put_location(number, location, out, next);
    }
    next
}

// The edge at this place of the component at the front: its transitions, or its waiting locations. `steps` is handed on, as in `uppaal_steps::put_edge`.
fn put_edge_at(
    component: &[u8],
    place: usize,
    number: u8,
    budgets: bool,
    steps: bool,
    out: &mut [u8],
    at: usize,
) -> usize
    requires { Exportable budgets component.now × (place ≤ length component.now) × Writable budgets (drop place component.now) × ((arc_at budgets (drop place component.now)).edge.source < byte component.now 2) × (at + 112500 ≤ 2305843009213693952) }
    ensures { Put out.old at (edge_text steps (location_of (front_component budgets component.now) (arc_at budgets (drop place component.now)).edge.source) (front_component budgets component.now).clocks number (arc_at budgets (drop place component.now))) result out.new × (result ≤ at + 112500) }
{
    let edge = decoder::edge_at(&component[place..], budgets);
    let source = usize::from(edge.source);
    let location = decoder::location_at(
        &component[layout::COMPONENT_HEADER + source * layout::LOCATION_WIDTH..],
    );
    let origin = Origin {
        number,
        location,
        clocks: component[layout::COMPONENT_CLOCKS],
        budgets,
    };
    uppaal_steps::put_edge(&component[place..], origin, steps, out, at)
}

// All edges of the component at the front.
fn put_edges(component: &[u8], budgets: bool, steps: bool, out: &mut [u8], at: usize) -> usize
    requires { Exportable budgets component.now × (at + 3600000 ≤ 2305843009213693952) }
    ensures { Put out.old at (edges_text steps (front_component budgets component.now) 0 (front_component budgets component.now).arcs) result out.new × (result ≤ at + 3600000) }
{
    let locations = usize::from(component[layout::COMPONENT_LOCATIONS]);
    let mut place = layout::COMPONENT_HEADER + locations * layout::LOCATION_WIDTH;
    let mut next = at;
    let edges = component[layout::COMPONENT_EDGES];
    // Where the next edge stands is read from the bytes.
    for number in 0..edges {
        next = put_edge_at(component, place, number, budgets, steps, out, next);
        place += decoder::arc_length(&component[place..], budgets);
    }
    next
}

// The locations and the waiting locations. Each is written behind a comma, and over the first comma what they begin with.
fn put_states(component: &[u8], budgets: bool, out: &mut [u8], at: usize) -> usize
    requires { Exportable budgets component.now × (at + 3700000 ≤ 2305843009213693952) }
    ensures { Put out.old at (listed "state\n  " ",\n  " location_text (process_for (front_component budgets component.now)).locations) result out.new × (result ≤ at + 3700000) }
{
    let first = put_locations(component, budgets, out, at + 4);
    let next = put_edges(component, budgets, false, out, first);
    words::put_words(out, at, b"state\n  ");
    next
}

// The transitions, in the same way.
fn put_transitions(component: &[u8], budgets: bool, out: &mut [u8], at: usize) -> usize
    requires { Exportable budgets component.now × (at + 3700000 ≤ 2305843009213693952) }
    ensures { Put out.old at (listed "trans\n  " ",\n  " transition_text (process_for (front_component budgets component.now)).transitions) result out.new × (result ≤ at + 3700000) }
{
    let next = put_edges(component, budgets, true, out, at + 4);
    words::put_words(out, at, b"trans\n  ");
    next
}

// A process before its locations.
fn put_head(component: &[u8], number: u8, out: &mut [u8], at: usize) -> usize
    requires { (7 ≤ length component.now) × (byte component.now 4 ≤ 4) × (byte component.now 5 ≤ 4) × (at + 510 ≤ 2305843009213693952) }
    ensures { Put out.old at (head_text number (byte component.now 4) (byte component.now 5)) result out.new × (result ≤ at + 510) }
{
    let first = words::put_field(out, at, b"\nprocess P", number as u32);
    let second = words::put_words(out, first, b"() {\n");
    let third = put_names(
        b"clock ",
        b"x",
        component[layout::COMPONENT_CLOCKS],
        out,
        second,
    );
    put_names(
        b"int[-32768,32767] ",
        b"v",
        component[layout::COMPONENT_VARIABLES],
        out,
        third,
    )
}

// The initial location.
fn put_init(component: &[u8], out: &mut [u8], at: usize) -> usize
    requires { (7 ≤ length component.now) × (at + 30 ≤ 2305843009213693952) }
    ensures { Put out.old at (ascii ";\ninit " ++ (name_text (location (byte component.now 3)) ++ ascii ";\n")) result out.new × (result ≤ at + 30) }
{
    let initial = component[layout::COMPONENT_INITIAL];
    let first = words::put_field(out, at, b";\ninit L", initial as u32);
    words::put_words(out, first, b";\n")
}

// The process of the component at the front.
fn put_process(component: &[u8], number: u8, budgets: bool, out: &mut [u8], at: usize) -> usize
    requires { Exportable budgets component.now × (at + 8000000 ≤ 2305843009213693952) }
    ensures { Put out.old at (process_text number (process_for (front_component budgets component.now))) result out.new × (result ≤ at + 8000000) }
{
    let first = put_head(component, number, out, at);
    let second = put_states(component, budgets, out, first);
    let third = put_init(component, out, second);
    let fourth = put_transitions(component, budgets, out, third);
    words::put_words(out, fourth, b";\n}\n")
}

// The processes of all components.
fn put_processes(table: &[u8], starts: [u16; 8], out: &mut [u8], at: usize) -> usize
    requires { Valid table.now × (starts ≡ starts_of table.now (byte table.now 3)) × (at + 64000000 ≤ 2305843009213693952) }
    ensures { Put out.old at (process_texts 0 (system_for (read_of table.now).table).processes) result out.new × (result ≤ at + 64000000) }
{
    let budgets = decoder::budgeted(table);
    let count = table[layout::TABLE_COMPONENTS];
    let mut next = at;
    for number in 0..count {
        let start = usize::from(starts[usize::from(number)]);
        next = put_process(&table[start..], number, budgets, out, next);
    }
    next
}

// The text of a valid table, from a place on; answers the place behind it.
pub fn put_system(table: &[u8], starts: [u16; 8], out: &mut [u8], at: usize) -> usize
    requires { Valid table.now × (starts ≡ starts_of table.now (byte table.now 3)) × (at + 64000480 ≤ 2305843009213693952) }
    ensures { Put out.old at (system_text (system_for (read_of table.now).table)) result out.new × (result ≤ at + 64000480) }
{
    let first = put_names(b"chan ", b"c", table[layout::TABLE_CHANNELS], out, at);
    let second = put_processes(table, starts, out, first);
    put_names(
        b"\nsystem ",
        b"P",
        table[layout::TABLE_COMPONENTS],
        out,
        second,
    )
}
