// Decodes the parts of an accepted table, one at a time, from the part's first byte on.
#![tactic(auto)]

ghost use Rattle.std.specs.Prelude.{◌≡◌, ℕ, ◌+◌, ◌*◌, ◌≤◌, ◌<◌, length};
ghost use Rattle.model.specs.Lists.{or_else};
ghost use Rattle.model.specs.Reader.{word, complement, location_at, clock_guard_at, data_guard_at, update_at, pair_at};
ghost use Rattle.model.specs.Places.{items_length, arc_head_length, items_place, arc_length, budget_at, arc_at, budgeted};

use model::{Action, ClockGuard, DataGuard, Edge, Location, Pair, Update, layout};

pub fn location_at(bytes: &[u8]) -> Location
    requires { 3 ≤ length bytes.now }
    ensures { result ≡ location_at bytes.now }
{
    Location {
        clock: bytes[layout::LOCATION_CLOCK],
        bound: parts::word_at(bytes, layout::LOCATION_BOUND),
    }
}

pub fn clock_guard_at(bytes: &[u8]) -> ClockGuard
    requires { 5 ≤ length bytes.now }
    ensures { result ≡ clock_guard_at bytes.now }
{
    ClockGuard {
        clock: bytes[layout::GUARD_SUBJECT],
        low: parts::word_at(bytes, layout::GUARD_LOW),
        high: parts::word_at(bytes, layout::GUARD_HIGH),
    }
}

// Two's complement. By hand: a node's own processor gets this code by the rules of node/proved/retarget.awk, which do not take `cast_signed`.
fn signed(number: u16) -> i16
    ensures { result ≡ complement number }
{
    if number < 32768 {
        number as i16
    } else {
        ((number as i32) - 65536) as i16
    }
}

pub fn signed_at(bytes: &[u8], at: usize) -> i16
    requires { at + 1 < length bytes.now }
    ensures { result ≡ complement (word bytes.now at) }
{
    signed(parts::word_at(bytes, at))
}

pub fn data_guard_at(bytes: &[u8]) -> DataGuard
    requires { 5 ≤ length bytes.now }
    ensures { result ≡ data_guard_at bytes.now }
{
    DataGuard {
        variable: bytes[layout::GUARD_SUBJECT],
        low: signed_at(bytes, layout::GUARD_LOW),
        high: signed_at(bytes, layout::GUARD_HIGH),
    }
}

pub fn update_at(bytes: &[u8]) -> Update
    requires { 4 ≤ length bytes.now }
    ensures { result ≡ update_at bytes.now }
{
    Update {
        variable: bytes[layout::UPDATE_VARIABLE],
        adds: bytes[layout::UPDATE_ADDS] == 1,
        number: signed_at(bytes, layout::UPDATE_NUMBER),
    }
}

pub fn pair_at(bytes: &[u8]) -> Pair
    requires { 2 ≤ length bytes.now }
    ensures { result ≡ pair_at bytes.now }
{
    Pair {
        channel: bytes[layout::PAIR_CHANNEL],
        location: bytes[layout::PAIR_LOCATION],
    }
}

// How many bytes `count` items of an edge have. The kind is its byte, here and in `action_at`: an `EdgeKind` made of it costs six to twelve
// instructions of some 25.
pub fn items_length(kind: u8, count: u8) -> usize
    ensures { result ≡ items_length kind count }
{
    match kind {
        0 => usize::from(count) * layout::UPDATE_WIDTH,
        1 => 1,
        _ => usize::from(count) * layout::PAIR_WIDTH,
    }
}

// Whether a table's edges have a budget: "Table version 3".
pub fn budgeted(table: &[u8]) -> bool
    requires { 1 ≤ length table.now }
    ensures { result ≡ budgeted table.now }
{
    layout::BUDGET_VERSION <= table[layout::TABLE_VERSION]
}

// How many bytes stand before an edge's bounds.
pub fn head_length(budgets: bool) -> usize
    ensures { (result ≡ arc_head_length budgets) × (7 ≤ result) × (result ≤ 9) }
{
    if budgets {
        layout::EDGE_HEADER + layout::BUDGET_WIDTH
    } else {
        layout::EDGE_HEADER
    }
}

// Where an edge's items start.
pub fn items_place(bytes: &[u8], budgets: bool) -> usize
    requires { 7 ≤ length bytes.now }
    ensures { (result ≡ items_place budgets bytes.now) × (result ≤ 2559) }
{
    head_length(budgets)
        + (usize::from(bytes[layout::EDGE_CLOCK_GUARDS])
            + usize::from(bytes[layout::EDGE_DATA_GUARDS]))
            * layout::GUARD_WIDTH
}

pub fn arc_length(bytes: &[u8], budgets: bool) -> usize
    requires { 7 ≤ length bytes.now }
    ensures { result ≡ arc_length budgets bytes.now }
{
    items_place(bytes, budgets) + items_length(bytes[layout::EDGE_KIND], bytes[layout::EDGE_ITEMS])
}

// What the edge at the front does; a send's channel is its one item. (The items of the two others stand behind the bounds, from
// `items_place` on, and are decoded one at a time.)
pub fn action_at(bytes: &[u8], budgets: bool) -> Action
    requires { (7 ≤ length bytes.now) × (arc_length budgets bytes.now ≤ length bytes.now) }
    ensures { result ≡ (arc_at budgets bytes.now).edge.action }
{
    match bytes[layout::EDGE_KIND] {
        0 => Action::Internal,
        1 => Action::Send(bytes[items_place(bytes, budgets)]),
        _ => Action::Receive,
    }
}

// The edge at the front, without its bounds and items.
pub fn edge_at(bytes: &[u8], budgets: bool) -> Edge
    requires { (7 ≤ length bytes.now) × (arc_length budgets bytes.now ≤ length bytes.now) }
    ensures { result ≡ (arc_at budgets bytes.now).edge }
{
    Edge {
        source: bytes[layout::EDGE_SOURCE],
        destination: bytes[layout::EDGE_DESTINATION],
        mask: bytes[layout::EDGE_MASK],
        action: action_at(bytes, budgets),
    }
}

// The budget of the edge at the front, 0 where edges have none, as the definitions take it.
pub fn budget_at(bytes: &[u8], budgets: bool) -> u16
    requires { arc_head_length budgets ≤ length bytes.now }
    ensures { result ≡ or_else (budget_at budgets bytes.now) 0 }
{
    if !budgets {
        return 0;
    }
    parts::word_at(bytes, layout::EDGE_BUDGET)
}
