// The numbers of each part, in the order of its bytes (specs/Ranges.antt).
ghost use Rattle.std.specs.Prelude.{◌≡◌, [], ◌∷◌, ◌+◌, ◌≤◌};
ghost use Rattle.model.specs.Reader.{byte};
ghost use Rattle.refusal_place.specs.Ranges.{head_fields, location_fields, edge_fields, data_limit, item_least, item_limit, budget_fields, clock_bound_fields, data_bound_fields, update_fields, channel_fields, pair_fields, byte_field, ticks_field};
ghost use Rattle.parts.specs.Kinds.{kind_byte};
ghost use Rattle.refusal_place.specs.Walk.{ranged, contents};

use crate::steps::{byte_at, ranged};
use crate::{Field, Subject, Walk};
use model::{Sizes, layout};
use parts::EdgeKind;

// A number of one byte must be in its range.
fn byte_range(
    table: &[u8],
    who: Subject,
    offset: usize,
    least: usize,
    limit: usize,
    w: Walk,
) -> Walk
    requires { (w.at ≤ 8192) × (offset ≤ 8) }
    ensures { (result ≡ ranged table.now who (byte_field offset least limit) w) × (result.at ≡ w.at) }
{
    let field = Field {
        offset,
        width: 1,
        least,
        limit,
        unbounded: false,
    };
    ranged(table, who, field, w)
}

// A number of ticks must be 0 to 60,000, or 65,535 where it may be unbounded.
fn bound_range(table: &[u8], who: Subject, offset: usize, unbounded: bool, w: Walk) -> Walk
    requires { (w.at ≤ 8192) × (offset ≤ 8) }
    ensures { (result ≡ ranged table.now who (ticks_field offset unbounded) w) × (result.at ≡ w.at) }
{
    let field = Field {
        offset,
        width: 2,
        least: 0,
        limit: 60001,
        unbounded,
    };
    ranged(table, who, field, w)
}

// A component's first 7 bytes, after its length.
pub fn component_head(table: &[u8], who: Subject, w: Walk) -> Walk
    requires { w.at ≤ 8192 }
    ensures { (result ≡ contents table.now who (head_fields (byte table.now (w.at + 2))) w) × (result.at ≡ w.at) }
{
    let n = usize::from(byte_at(table, w.at + layout::COMPONENT_LOCATIONS));
    let locations = byte_range(table, who, layout::COMPONENT_LOCATIONS, 1, 17, w);
    let initial = byte_range(table, who, layout::COMPONENT_INITIAL, 0, n, locations);
    let clocks = byte_range(table, who, layout::COMPONENT_CLOCKS, 1, 5, initial);
    let variables = byte_range(table, who, layout::COMPONENT_VARIABLES, 0, 5, clocks);
    byte_range(table, who, layout::COMPONENT_EDGES, 1, 33, variables)
}

pub fn location(table: &[u8], who: Subject, sizes: Sizes, w: Walk) -> Walk
    requires { w.at ≤ 8192 }
    ensures { (result ≡ contents table.now who (location_fields sizes) w) × (result.at ≡ w.at) }
{
    let clocks = usize::from(sizes.clocks);
    let clock = byte_range(table, who, layout::LOCATION_CLOCK, 0, clocks, w);
    bound_range(table, who, layout::LOCATION_BOUND, false, clock)
}

// The limit of an edge's count of data bounds, by its kind.
fn data_limit(kind: EdgeKind) -> usize
    ensures { result ≡ data_limit (kind_byte kind) }
{
    match kind {
        EdgeKind::Internal | EdgeKind::Send => 5,
        EdgeKind::Receive => 1,
    }
}

// The limits of its count of items.
fn item_least(kind: EdgeKind) -> usize
    ensures { result ≡ item_least (kind_byte kind) }
{
    match kind {
        EdgeKind::Internal => 0,
        EdgeKind::Send | EdgeKind::Receive => 1,
    }
}

fn item_limit(kind: EdgeKind) -> usize
    ensures { result ≡ item_limit (kind_byte kind) }
{
    match kind {
        EdgeKind::Internal => 5,
        EdgeKind::Send => 2,
        EdgeKind::Receive => 9,
    }
}

// An edge's counts of bounds and items.
fn edge_counts(table: &[u8], who: Subject, kind: EdgeKind, w: Walk) -> Walk
    requires { w.at ≤ 8192 }
    ensures { (result ≡ contents table.now who (byte_field 4 0 5 ∷ byte_field 5 0 (data_limit (kind_byte kind)) ∷ byte_field 6 (item_least (kind_byte kind)) (item_limit (kind_byte kind)) ∷ []) w) × (result.at ≡ w.at) }
{
    let clock = byte_range(table, who, layout::EDGE_CLOCK_GUARDS, 0, 5, w);
    let data = byte_range(
        table,
        who,
        layout::EDGE_DATA_GUARDS,
        0,
        data_limit(kind),
        clock,
    );
    byte_range(
        table,
        who,
        layout::EDGE_ITEMS,
        item_least(kind),
        item_limit(kind),
        data,
    )
}

// An edge's 7 bytes.
pub fn edge_head(table: &[u8], who: Subject, sizes: Sizes, w: Walk) -> Walk
    requires { w.at ≤ 8192 }
    ensures { (result ≡ contents table.now who (edge_fields sizes (byte table.now w.at)) w) × (result.at ≡ w.at) }
{
    let own = EdgeKind::from(byte_at(table, w.at));
    let n = usize::from(sizes.locations);
    let limit = usize::from(parts::mask_limit(sizes.clocks));
    let kind = byte_range(table, who, layout::EDGE_KIND, 0, 3, w);
    let source = byte_range(table, who, layout::EDGE_SOURCE, 0, n, kind);
    let destination = byte_range(table, who, layout::EDGE_DESTINATION, 0, n, source);
    let mask = byte_range(table, who, layout::EDGE_MASK, 0, limit, destination);
    edge_counts(table, who, own, mask)
}

// An edge's budget.
pub fn budget(table: &[u8], who: Subject, w: Walk) -> Walk
    requires { w.at ≤ 8192 }
    ensures { (result ≡ contents table.now who budget_fields w) × (result.at ≡ w.at) }
{
    bound_range(table, who, 0, false, w)
}

pub fn clock_bound(table: &[u8], who: Subject, sizes: Sizes, w: Walk) -> Walk
    requires { w.at ≤ 8192 }
    ensures { (result ≡ contents table.now who (clock_bound_fields sizes) w) × (result.at ≡ w.at) }
{
    let clocks = usize::from(sizes.clocks);
    let clock = byte_range(table, who, layout::GUARD_SUBJECT, 0, clocks, w);
    let low = bound_range(table, who, layout::GUARD_LOW, false, clock);
    bound_range(table, who, layout::GUARD_HIGH, true, low)
}

pub fn data_bound(table: &[u8], who: Subject, sizes: Sizes, w: Walk) -> Walk
    requires { w.at ≤ 8192 }
    ensures { (result ≡ contents table.now who (data_bound_fields sizes) w) × (result.at ≡ w.at) }
{
    let variables = usize::from(sizes.variables);
    byte_range(table, who, layout::GUARD_SUBJECT, 0, variables, w)
}

pub fn update(table: &[u8], who: Subject, sizes: Sizes, w: Walk) -> Walk
    requires { w.at ≤ 8192 }
    ensures { (result ≡ contents table.now who (update_fields sizes) w) × (result.at ≡ w.at) }
{
    let variables = usize::from(sizes.variables);
    let variable = byte_range(table, who, layout::UPDATE_VARIABLE, 0, variables, w);
    byte_range(table, who, layout::UPDATE_ADDS, 0, 2, variable)
}

pub fn channel(table: &[u8], who: Subject, sizes: Sizes, w: Walk) -> Walk
    requires { w.at ≤ 8192 }
    ensures { (result ≡ contents table.now who (channel_fields sizes) w) × (result.at ≡ w.at) }
{
    let channels = usize::from(sizes.channels);
    byte_range(table, who, layout::PAIR_CHANNEL, 0, channels, w)
}

pub fn pair(table: &[u8], who: Subject, sizes: Sizes, w: Walk) -> Walk
    requires { w.at ≤ 8192 }
    ensures { (result ≡ contents table.now who (pair_fields sizes) w) × (result.at ≡ w.at) }
{
    let first = channel(table, who, sizes, w);
    let locations = usize::from(sizes.locations);
    byte_range(table, who, layout::PAIR_LOCATION, 0, locations, first)
}
