// The parts of a component: each is tried for fit, then for its numbers, front to back (checks 4 to 6 of document 01).
#![tactic(auto)]

ghost use Rattle.std.specs.Prelude.{◌≡◌, ◌&&◌, ◌||◌, [], ℕ, ◌+◌, ◌*◌, ◌^◌, ◌≤◌, ◌<◌, min, length, drop};
ghost use Rattle.std.proofs.Math.Option.{none};
ghost use Rattle.model.specs.Reader.{word, many, location_fine, clock_guard_fine, data_guard_fine, update_fine, pair_fine, counts_fine, edge_fine, read_channel, read_pairs, read_items, read_budget, read_arc_parts, read_arc_body, read_arc, listed};
ghost use Rattle.parts.specs.Kinds.{kind_of};
ghost use Rattle.parts.specs.Place.{Passed, fault_number, width_of, fine_of, passes, channels_before};

use model::{Sizes, layout};

// The question that a part fails (docs/REFUSALS.md): does it fit, is every number in its range, is no channel listed twice?
#[derive(Clone, Copy, Debug, PartialEq, Eq)]
pub enum PartFault {
    NoFit,
    OutOfRange,
    ListedTwice,
}

// The number of the question.
impl From<PartFault> for u8 {
    ghost from_gives = { λ fault number. number ≡ fault_number fault };

    fn from(fault: PartFault) -> u8 {
        match fault {
            PartFault::NoFit => 4,
            PartFault::OutOfRange => 5,
            PartFault::ListedTwice => 6,
        }
    }
}

// The parts of one width.
#[derive(Clone, Copy, Debug, PartialEq, Eq)]
pub enum Kind {
    Locations,
    ClockGuards,
    DataGuards,
    Updates,
}

// What an edge does, by the first of its 7 bytes: 0, 1, or from 2 on. The reader takes no byte above 2 (`edge_fine`).
#[derive(Clone, Copy, Debug, PartialEq, Eq)]
pub enum EdgeKind {
    Internal,
    Send,
    Receive,
}

impl From<u8> for EdgeKind {
    ghost from_gives = { λ byte kind. kind ≡ kind_of byte };

    fn from(byte: u8) -> EdgeKind {
        match byte {
            0 => EdgeKind::Internal,
            1 => EdgeKind::Send,
            _ => EdgeKind::Receive,
        }
    }
}

// A byte or a number of two bytes as a wider number, and that it is below 256 or 65,536. `From` says the first alone, and many proofs take the second.
pub fn wide(byte: u8) -> usize
    ensures { (result ≡ byte) × (result < 256) }
{
    byte as usize
}

pub fn wide16(byte: u8) -> u16
    ensures { (result ≡ byte) × (result < 256) }
{
    byte as u16
}

pub fn wide32(byte: u8) -> u32
    ensures { (result ≡ byte) × (result < 256) }
{
    byte as u32
}

pub fn word32(word: u16) -> u32
    ensures { (result ≡ word) × (result < 65536) }
{
    word as u32
}

pub fn word_place(word: u16) -> usize
    ensures { (result ≡ word) × (result < 65536) }
{
    word as usize
}

// The number of the two bytes at a place. By a sum: behind `from_be_bytes` a clock bound's high is tested with four instructions more.
pub fn word_at(bytes: &[u8], at: usize) -> u16
    requires { at + 1 < length bytes.now }
    ensures { result ≡ word bytes.now at }
{
    wide16(bytes[at]) * 256 + wide16(bytes[at + 1])
}

// Both operands are computed: no branch, and a proof without cases in the callers.
pub fn both(first: bool, second: bool) -> bool
    ensures { result ≡ first && second }
{
    if first { second } else { false }
}

pub fn either(first: bool, second: bool) -> bool
    ensures { result ≡ first || second }
{
    if first { true } else { second }
}

fn location_fine(bytes: &[u8], sizes: Sizes) -> bool
    requires { 3 ≤ length bytes.now }
    ensures { result ≡ location_fine sizes bytes.now }
{
    both(
        bytes[layout::LOCATION_CLOCK] < sizes.clocks,
        word_at(bytes, layout::LOCATION_BOUND) <= 60000,
    )
}

fn clock_guard_fine(bytes: &[u8], sizes: Sizes) -> bool
    requires { 5 ≤ length bytes.now }
    ensures { result ≡ clock_guard_fine sizes bytes.now }
{
    let high = word_at(bytes, layout::GUARD_HIGH);
    both(
        both(
            bytes[layout::GUARD_SUBJECT] < sizes.clocks,
            word_at(bytes, layout::GUARD_LOW) <= 60000,
        ),
        either(high <= 60000, high == 65535),
    )
}

fn data_guard_fine(bytes: &[u8], sizes: Sizes) -> bool
    requires { 5 ≤ length bytes.now }
    ensures { result ≡ data_guard_fine sizes bytes.now }
{
    bytes[layout::GUARD_SUBJECT] < sizes.variables
}

fn update_fine(bytes: &[u8], sizes: Sizes) -> bool
    requires { 4 ≤ length bytes.now }
    ensures { result ≡ update_fine sizes bytes.now }
{
    both(
        bytes[layout::UPDATE_VARIABLE] < sizes.variables,
        bytes[layout::UPDATE_ADDS] <= 1,
    )
}

fn width(kind: Kind) -> usize
    ensures { result ≡ width_of kind }
{
    match kind {
        Kind::Locations => layout::LOCATION_WIDTH,
        Kind::ClockGuards => layout::GUARD_WIDTH,
        Kind::DataGuards => layout::GUARD_WIDTH,
        Kind::Updates => layout::UPDATE_WIDTH,
    }
}

fn fine(kind: Kind, bytes: &[u8], sizes: Sizes) -> bool
    requires { width_of kind ≤ length bytes.now }
    ensures { result ≡ fine_of kind sizes bytes.now }
{
    match kind {
        Kind::Locations => location_fine(bytes, sizes),
        Kind::ClockGuards => clock_guard_fine(bytes, sizes),
        Kind::DataGuards => data_guard_fine(bytes, sizes),
        Kind::Updates => update_fine(bytes, sizes),
    }
}

// n parts of one width.
pub fn parts(
    component: &[u8],
    from: usize,
    count: u8,
    kind: Kind,
    sizes: Sizes,
) -> Result<usize, PartFault>
    requires { from ≤ length component.now }
    ensures { Passed component.now from result (many (passes kind sizes) count (drop from component.now)) }
{
    let w = width(kind);
    let mut at = from;
    for _ in 0..count {
        if component.len() - at < w {
            return Err(PartFault::NoFit);
        }
        if !fine(kind, &component[at..], sizes) {
            return Err(PartFault::OutOfRange);
        }
        at += w;
    }
    Ok(at)
}

fn pair_fine(bytes: &[u8], sizes: Sizes) -> bool
    requires { 2 ≤ length bytes.now }
    ensures { result ≡ pair_fine sizes bytes.now }
{
    both(
        bytes[layout::PAIR_CHANNEL] < sizes.channels,
        bytes[layout::PAIR_LOCATION] < sizes.locations,
    )
}

// Whether one of the first n pairs has the channel.
pub fn listed_before(bytes: &[u8], count: usize, channel: u8) -> bool
    requires { count * 2 ≤ length bytes.now }
    ensures { result ≡ listed channel (channels_before bytes.now count) }
{
    (0..count).any(|k| bytes[k * layout::PAIR_WIDTH] == channel)
}

// The pairs of a receive edge: each must fit, be in range, and have a channel of its own.
fn pairs(component: &[u8], from: usize, count: u8, sizes: Sizes) -> Result<usize, PartFault>
    requires { from ≤ length component.now }
    ensures { Passed component.now from result (read_pairs sizes count [] (drop from component.now)) }
{
    for i in 0..usize::from(count) {
        let at = from + i * layout::PAIR_WIDTH;
        if component.len() - at < layout::PAIR_WIDTH {
            return Err(PartFault::NoFit);
        }
        if !pair_fine(&component[at..], sizes) {
            return Err(PartFault::OutOfRange);
        }
        if listed_before(&component[from..], i, component[at]) {
            return Err(PartFault::ListedTwice);
        }
    }
    Ok(from + usize::from(count) * layout::PAIR_WIDTH)
}

// The channel of a send edge.
fn channel(component: &[u8], at: usize, sizes: Sizes) -> Result<usize, PartFault>
    requires { at ≤ length component.now }
    ensures { Passed component.now at result (read_channel sizes (drop at component.now)) }
{
    if component.len() - at < 1 {
        return Err(PartFault::NoFit);
    }
    if sizes.channels <= component[at] {
        return Err(PartFault::OutOfRange);
    }
    Ok(at + 1)
}

fn items(component: &[u8], at: usize, kind: u8, count: u8, sizes: Sizes) -> Result<usize, PartFault>
    requires { at ≤ length component.now }
    ensures { Passed component.now at result (read_items sizes kind count (drop at component.now)) }
{
    match kind {
        0 => parts(component, at, count, Kind::Updates, sizes),
        1 => channel(component, at, sizes),
        _ => pairs(component, at, count, sizes),
    }
}

// The kind is its byte, here and in `items`: an `EdgeKind` made of it costs the reader ten instructions an edge.
fn counts_fine(kind: u8, guards: u8, items: u8) -> bool
    ensures { result ≡ counts_fine kind guards items }
{
    match kind {
        0 => both(guards <= 4, items <= 4),
        1 => both(guards <= 4, items == 1),
        _ => both(both(guards == 0, 1 <= items), items <= 8),
    }
}

// The masks of so many clocks lie below this. No component has more than 4.
pub fn mask_limit(clocks: u8) -> u8
    ensures { result ≡ 2 ^ min clocks 4 }
{
    match clocks {
        0 => 1,
        1 => 2,
        2 => 4,
        3 => 8,
        _ => 16,
    }
}

fn edge_fine(bytes: &[u8], sizes: Sizes) -> bool
    requires { (7 ≤ length bytes.now) × (sizes.clocks ≤ 4) }
    ensures { result ≡ edge_fine sizes bytes.now }
{
    let kind = bytes[layout::EDGE_KIND];
    let ends = both(
        both(kind <= 2, bytes[layout::EDGE_SOURCE] < sizes.locations),
        bytes[layout::EDGE_DESTINATION] < sizes.locations,
    );
    let masked = both(ends, bytes[layout::EDGE_MASK] < mask_limit(sizes.clocks));
    both(
        both(masked, bytes[layout::EDGE_CLOCK_GUARDS] <= 4),
        counts_fine(
            kind,
            bytes[layout::EDGE_DATA_GUARDS],
            bytes[layout::EDGE_ITEMS],
        ),
    )
}

// The budget of an edge, where edges have one.
fn budget(component: &[u8], at: usize, sizes: Sizes) -> Result<usize, PartFault>
    requires { at ≤ length component.now }
    ensures { Passed component.now at result (read_budget sizes.budgets (drop at component.now)) }
{
    if !sizes.budgets {
        return Ok(at);
    }
    if component.len() - at < layout::BUDGET_WIDTH {
        return Err(PartFault::NoFit);
    }
    if layout::MOST_BUDGET < word_at(component, at) {
        return Err(PartFault::OutOfRange);
    }
    Ok(at + layout::BUDGET_WIDTH)
}

// What follows the 7 bytes of the edge at a place and its budget: clock bounds, data bounds, items.
fn arc_parts(component: &[u8], at: usize, from: usize, sizes: Sizes) -> Result<usize, PartFault>
    requires { (at + 7 ≤ length component.now) × (from ≤ length component.now) }
    ensures { Passed component.now from result (read_arc_parts sizes (drop at component.now) none (drop from component.now)) }
{
    let clock_guards = component[at + layout::EDGE_CLOCK_GUARDS];
    let data_guards = component[at + layout::EDGE_DATA_GUARDS];
    let count = component[at + layout::EDGE_ITEMS];
    let data = parts(component, from, clock_guards, Kind::ClockGuards, sizes)?;
    let rest = parts(component, data, data_guards, Kind::DataGuards, sizes)?;
    items(component, rest, component[at], count, sizes)
}

// What follows the 7 bytes of the edge at a place.
fn arc_body(component: &[u8], at: usize, sizes: Sizes) -> Result<usize, PartFault>
    requires { at + 7 ≤ length component.now }
    ensures { Passed component.now (at + 7) result (read_arc_body sizes (drop at component.now) (drop (at + 7) component.now)) }
{
    let from = budget(component, at + layout::EDGE_HEADER, sizes)?;
    arc_parts(component, at, from, sizes)
}

// An edge: its 7 bytes, and what follows them.
pub fn arc(component: &[u8], at: usize, sizes: Sizes) -> Result<usize, PartFault>
    requires { (at ≤ length component.now) × (sizes.clocks ≤ 4) }
    ensures { Passed component.now at result (read_arc sizes (drop at component.now)) }
{
    if component.len() - at < layout::EDGE_HEADER {
        return Err(PartFault::NoFit);
    }
    if !edge_fine(&component[at..], sizes) {
        return Err(PartFault::OutOfRange);
    }
    arc_body(component, at, sizes)
}

// n edges.
pub fn arcs(component: &[u8], from: usize, count: u8, sizes: Sizes) -> Result<usize, PartFault>
    requires { (from ≤ length component.now) × (sizes.clocks ≤ 4) }
    ensures { Passed component.now from result (many (read_arc sizes) count (drop from component.now)) }
{
    let mut at = from;
    for _ in 0..count {
        at = arc(component, at, sizes)?;
    }
    Ok(at)
}
