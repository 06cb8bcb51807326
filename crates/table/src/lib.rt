// The reader: checks 1 to 6 of document 01, over the table's bytes.
#![tactic(auto)]

ghost use Rattle.std.specs.Prelude.{◌≡◌, ℕ, ◌+◌, ◌≤◌, ◌<◌, length, drop, get_or};
ghost use Rattle.model.specs.Reader.{head_fine, header_at, read_body, read_component, read_components, length_fine, count_fine, body_start, bands_fine};
ghost use Rattle.parts.specs.Place.{fault_number};
ghost use Rattle.table.specs.Directory.{part_fault, fault_in, question_number, header_number, refusal, header_of, reading_from, reading_of, reading_at};

use model::{Sizes, TableHeader, Verdict, layout};
use parts::{Kind, PartFault};

// The question that a header fails (docs/REFUSALS.md): is the version known, is the stated length that of the table, are the counts and bands in range?
#[derive(Clone, Copy, Debug, PartialEq, Eq)]
pub enum HeaderFault {
    Version,
    Length,
    Counts,
}

// The number of the question.
impl From<HeaderFault> for u8 {
    ghost from_gives = { λ fault number. number ≡ question_number fault };

    fn from(fault: HeaderFault) -> u8 {
        match fault {
            HeaderFault::Version => 1,
            HeaderFault::Length => 2,
            HeaderFault::Counts => 3,
        }
    }
}

// The reader's answer: the verdict, and where each component starts (0 for an absent one, and after a refusal).
#[derive(Clone, Copy)]
pub struct Reading {
    pub verdict: Verdict,
    pub starts: [u16; 8],
}

fn head_fine(component: &[u8]) -> bool
    requires { 7 ≤ length component.now }
    ensures { result ≡ head_fine component.now }
{
    let n = component[layout::COMPONENT_LOCATIONS];
    let places = parts::both(
        parts::both(1 <= n, n <= 16),
        component[layout::COMPONENT_INITIAL] < n,
    );
    let clocks = parts::both(
        parts::both(places, 1 <= component[layout::COMPONENT_CLOCKS]),
        component[layout::COMPONENT_CLOCKS] <= 4,
    );
    parts::both(
        parts::both(
            parts::both(clocks, component[layout::COMPONENT_VARIABLES] <= 4),
            1 <= component[layout::COMPONENT_EDGES],
        ),
        component[layout::COMPONENT_EDGES] <= 32,
    )
}

// The locations and edges of a component, after its first 7 bytes.
fn body(component: &[u8], heading: TableHeader) -> Result<(), PartFault>
    requires { (7 ≤ length component.now) × (get_or component.now 4 0 ≤ 4) }
    ensures { part_fault result ≡ fault_in (read_body heading component.now (drop 7 component.now)) }
{
    let count = component[layout::COMPONENT_LOCATIONS];
    let sizes = Sizes {
        channels: heading.channels,
        locations: count,
        clocks: component[layout::COMPONENT_CLOCKS],
        variables: component[layout::COMPONENT_VARIABLES],
        budgets: heading.budgets,
    };
    let start = layout::COMPONENT_HEADER;
    let edges = parts::parts(component, start, count, Kind::Locations, sizes)?;
    let end = parts::arcs(component, edges, component[layout::COMPONENT_EDGES], sizes)?;
    if end < component.len() {
        return Err(PartFault::NoFit);
    }
    Ok(())
}

// A component, from its own bytes.
fn component(bytes: &[u8], heading: TableHeader) -> Result<(), PartFault>
    ensures { part_fault result ≡ fault_in (read_component heading bytes.now) }
{
    if bytes.len() < layout::COMPONENT_HEADER {
        return Err(PartFault::NoFit);
    }
    if !head_fine(bytes) {
        return Err(PartFault::OutOfRange);
    }
    body(bytes, heading)
}

fn refused(number: u8, component: u8) -> Reading
    ensures { result ≡ refusal number component }
{
    Reading {
        verdict: Verdict::Refused(number, component),
        starts: [0; 8],
    }
}

// The components, one after the other, to the table's end.
fn components(table: &[u8], count: u8, heading: TableHeader, from: usize) -> Reading
    requires { (from ≤ length table.now) × (length table.now ≤ 8192) × (1 ≤ count) × (count ≤ 8) × (from ≡ body_start table.now) }
    ensures { result ≡ reading_from table.now count (read_components heading count 0 (drop (body_start table.now) table.now)) }
{
    let mut starts = [0u16; 8];
    let mut at = from;
    for c in 0..count {
        if table.len() - at < 2 {
            return refused(4, c);
        }
        let n = usize::from(parts::word_at(table, at));
        if table.len() - at < n {
            return refused(4, c);
        }
        if let Err(fault) = component(&table[at..at + n], heading) {
            return refused(u8::from(fault), c);
        }
        starts[usize::from(c)] = at as u16;
        at += n;
    }
    if at < table.len() {
        return refused(4, count - 1);
    }
    Reading {
        verdict: Verdict::Accepted,
        starts,
    }
}

fn length_fine(table: &[u8]) -> bool
    ensures { result ≡ length_fine table.now }
{
    let n = table.len();
    if n < layout::TABLE_HEADER {
        return false;
    }
    parts::both(
        parts::both(layout::TABLE_HEADER <= n, n <= 8192),
        usize::from(parts::word_at(table, layout::TABLE_LENGTH)) == n,
    )
}

fn count_fine(table: &[u8]) -> bool
    requires { 7 ≤ length table.now }
    ensures { result ≡ count_fine table.now }
{
    let n = table[layout::TABLE_COMPONENTS];
    let horizon = parts::word_at(table, layout::TABLE_HORIZON);
    let nodes = parts::both(1 <= n, n <= 8);
    parts::both(
        parts::both(
            parts::both(nodes, table[layout::TABLE_CHANNELS] <= 16),
            1 <= horizon,
        ),
        horizon <= 60000,
    )
}

// Where the components start: after the header, and from version 2 on after one byte a channel.
pub fn body_start(table: &[u8]) -> usize
    requires { 7 ≤ length table.now }
    ensures { (result ≡ body_start table.now) × (7 ≤ result) × (result ≤ 262) }
{
    if 2 <= table[layout::TABLE_VERSION] {
        layout::TABLE_HEADER + usize::from(table[layout::TABLE_CHANNELS])
    } else {
        layout::TABLE_HEADER
    }
}

// Whether the bands fit and are in range.
fn bands_fine(table: &[u8]) -> bool
    requires { 7 ≤ length table.now }
    ensures { result ≡ bands_fine table.now }
{
    let from = body_start(table);
    if table.len() < from {
        return false;
    }
    table[layout::TABLE_HEADER..from]
        .iter()
        .all(|band| *band <= 3)
}

// The first of checks 1 to 3 that a table fails.
pub fn header(table: &[u8]) -> Result<(), HeaderFault>
    ensures { header_number result ≡ header_of table.now }
{
    if table.len() < 1 {
        return Err(HeaderFault::Version);
    }
    let version = table[layout::TABLE_VERSION];
    if !parts::both(1 <= version, version <= 3) {
        return Err(HeaderFault::Version);
    }
    if !length_fine(table) {
        return Err(HeaderFault::Length);
    }
    if !count_fine(table) {
        return Err(HeaderFault::Counts);
    }
    if !bands_fine(table) {
        return Err(HeaderFault::Counts);
    }
    Ok(())
}

// What the header tells of the components.
pub fn heading(table: &[u8]) -> TableHeader
    requires { 7 ≤ length table.now }
    ensures { result ≡ header_at table.now }
{
    TableHeader {
        channels: table[layout::TABLE_CHANNELS],
        budgets: layout::BUDGET_VERSION <= table[layout::TABLE_VERSION],
    }
}

// Reads a table: checks 1 to 6.
pub fn read(table: &[u8]) -> Reading
    ensures { result ≡ reading_of table.now }
{
    if let Err(fault) = header(table) {
        return refused(u8::from(fault), 255);
    }
    components(
        table,
        table[layout::TABLE_COMPONENTS],
        heading(table),
        body_start(table),
    )
}

// Reads a table for a spread of the nodes' starts: 19 for one above 1,000, after check 3 and before check 4.
pub fn read_at(table: &[u8], spread: u32) -> Reading
    ensures { result ≡ reading_at spread table.now }
{
    let r = read(table);
    if spread <= 1000 {
        return r;
    }
    let v = r.verdict;
    match v {
        Verdict::Accepted => refused(19, 255),
        Verdict::Refused(number, component) => {
            if number <= 3 {
                refused(number, component)
            } else {
                refused(19, 255)
            }
        }
    }
}
