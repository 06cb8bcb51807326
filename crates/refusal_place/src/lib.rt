// Where the reader stopped: the place of a refusal with 4, 5 or 6 (document 01, 'Checks, in this order'). The definitions are specs/Ranges.antt and
// specs/Walk.antt.
#![tactic(auto)]

mod contents;
mod edges;
mod steps;

ghost use Rattle.std.specs.Prelude.{◌≡◌, ◌+◌, min, ◌≤◌, ◌<◌, length};
ghost use Rattle.model.specs.Reader.{byte, header_at};
ghost use Rattle.refusal_place.specs.Ranges.{part_number};
ghost use Rattle.refusal_place.specs.Walk.{nowhere, sizes_from, length_stated, body_from, component_from, component, components, place_of};

use crate::edges::{edges, locations, of_component, one_part};
use crate::steps::{byte_at, ends, fits, going, judged, number_at};
use model::{Sizes, TableHeader, layout};
use parts::PartFault;

// The parts of a table, in document 01's words: "each part (component, its first 7 bytes, location, edge's 7 bytes, bound, item)". A component begins
// with its length; what is left over at its end, and behind the last one, is told as a part too.
#[derive(Clone, Copy, Debug, PartialEq, Eq)]
pub enum Part {
    ComponentLength,
    ComponentHead,
    Location,
    EdgeHead,
    ClockBound,
    DataBound,
    Update,
    Channel,
    Pair,
    ComponentEnd,
    TableEnd,
    Budget,
}

// The number of a part, where an enum cannot go; 0 is no part.
impl From<Part> for u8 {
    ghost from_gives = { λ part number. number ≡ part_number part };

    fn from(part: Part) -> u8 {
        match part {
            Part::ComponentLength => 1,
            Part::ComponentHead => 2,
            Part::Location => 3,
            Part::EdgeHead => 4,
            Part::ClockBound => 5,
            Part::DataBound => 6,
            Part::Update => 7,
            Part::Channel => 8,
            Part::Pair => 9,
            Part::ComponentEnd => 10,
            Part::TableEnd => 11,
            Part::Budget => 12,
        }
    }
}

// A part by its numbers; 255 where it has none.
#[derive(Clone, Copy)]
pub struct Subject {
    pub component: u8,
    pub part: Part,
    pub edge: u8,
    pub index: u8,
}

// A number of a part: where it stands in it, in how many bytes, and its range: from least up to, and without, limit; 65,535 besides where it may be
// unbounded. A width of 0 says that it is no number of the part, but how many bytes there are.
#[derive(Clone, Copy)]
pub struct Field {
    pub offset: usize,
    pub width: usize,
    pub least: usize,
    pub limit: usize,
    pub unbounded: bool,
}

// Where the reader stopped: the number of the refusal, the part, the place of its first byte in the table, and the field at fault with its value. Where
// it did not stop the number is 0 and the component 255.
#[derive(Clone, Copy)]
pub struct Place {
    pub number: u8,
    pub component: u8,
    pub part: u8,
    pub edge: u8,
    pub index: u8,
    pub start: usize,
    pub offset: usize,
    pub width: usize,
    pub value: usize,
    pub least: usize,
    pub limit: usize,
    pub unbounded: bool,
}

// The reader on its way: the place of the next part, and where it stopped.
#[derive(Clone, Copy)]
pub struct Walk {
    pub at: usize,
    pub place: Place,
}

// ## Components

fn lesser(first: usize, second: usize) -> usize
    ensures { (result ≡ min first second) × (result ≤ second) }
{
    if first < second { first } else { second }
}

// A component's two length bytes fit the table, and so does the length that they state.
fn length_stated(table: &[u8], c: u8, w: Walk) -> Walk
    requires { (w.at ≤ length table.now) × (length table.now ≤ 8192) }
    ensures { (result ≡ length_stated table.now c w) × (result.at ≡ w.at) }
{
    let who = of_component(c, Part::ComponentLength);
    let there = table.len() - w.at;
    let field = Field {
        offset: layout::COMPONENT_LENGTH,
        width: 2,
        least: 0,
        limit: there + 1,
        unbounded: false,
    };
    let stated = number_at(table, w.at, 2);
    judged(
        PartFault::NoFit,
        who,
        field,
        stated,
        fits(table.len(), who, 2, w),
    )
}

// What follows the first 7 bytes of the component that starts at `from`: locations, then edges, and no byte more.
fn body(table: &[u8], end: usize, sizes: Sizes, c: u8, from: usize, w: Walk) -> Walk
    requires { (w.at ≤ end) × (end ≤ length table.now) × (length table.now ≤ 8192) × (from ≤ 8192) }
    ensures { (result ≡ body_from table.now end sizes c from w) × (result.at ≤ end) }
{
    let places = byte_at(table, from + layout::COMPONENT_LOCATIONS);
    let count = byte_at(table, from + layout::COMPONENT_EDGES);
    let located = locations(table, end, sizes, c, places, w);
    let all = edges(table, end, sizes, c, count, located);
    ends(end, of_component(c, Part::ComponentEnd), all)
}

fn sizes_from(table: &[u8], header: TableHeader, from: usize) -> Sizes
    requires { from ≤ 8192 }
    ensures { result ≡ sizes_from table.now header from }
{
    Sizes {
        channels: header.channels,
        locations: byte_at(table, from + layout::COMPONENT_LOCATIONS),
        clocks: byte_at(table, from + layout::COMPONENT_CLOCKS),
        variables: byte_at(table, from + layout::COMPONENT_VARIABLES),
        budgets: header.budgets,
    }
}

// The component that starts here.
fn component_from(table: &[u8], header: TableHeader, c: u8, w: Walk) -> Walk
    requires { (w.at ≤ length table.now) × (length table.now ≤ 8192) }
    ensures { (result ≡ component_from table.now header c w.at w) × (result.at ≤ length table.now) }
{
    let from = w.at;
    let end = from + lesser(number_at(table, from, 2), table.len() - from);
    let sizes = sizes_from(table, header, from);
    let known = length_stated(table, c, w);
    let head = one_part(
        table,
        end,
        sizes,
        of_component(c, Part::ComponentHead),
        known,
    );
    body(table, end, sizes, c, from, head)
}

fn component(table: &[u8], header: TableHeader, c: u8, w: Walk) -> Walk
    requires { (w.at ≤ length table.now) × (length table.now ≤ 8192) }
    ensures { (result ≡ component table.now header c w) × (result.at ≤ length table.now) }
{
    if going(w) {
        return component_from(table, header, c, w);
    }
    w
}

// The components, to the table's end.
fn components(table: &[u8], count: u8, header: TableHeader, w: Walk) -> Walk
    requires { (w.at ≤ length table.now) × (length table.now ≤ 8192) × (1 ≤ count) × (count ≡ byte table.now 3) × (header ≡ header_at table.now) }
    ensures { result ≡ components table.now w }
{
    let mut walk = w;
    for c in 0..count {
        walk = component(table, header, c, walk);
    }
    ends(table.len(), of_component(count - 1, Part::TableEnd), walk)
}

// ## The table

fn nowhere() -> Place
    ensures { result ≡ nowhere }
{
    Place {
        number: 0,
        component: 255,
        part: 0,
        edge: 0,
        index: 0,
        start: 0,
        offset: 0,
        width: 0,
        value: 0,
        least: 0,
        limit: 0,
        unbounded: false,
    }
}

// The place of a refusal with 4, 5 or 6; number 0 for any other table.
pub fn locate(table: &[u8]) -> Place
    ensures value { result ≡ place_of table.now }
    ensures offset_bound { 0 < result.number → result.start + result.offset ≤ 8192 }
{
    if table::header(table).is_err() {
        return nowhere();
    }
    let start = Walk {
        at: table::body_start(table),
        place: nowhere(),
    };
    let count = byte_at(table, layout::TABLE_COMPONENTS);
    let header = table::heading(table);
    let walked = components(table, count, header, start);
    walked.place
}
