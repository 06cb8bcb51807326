// The parts of a component one after the other, up to its edges (specs/Walk.antt).
ghost use Rattle.std.specs.Prelude.{◌≡◌, true, ◌+◌, ◌*◌, ◌≤◌, length, IfSome};
ghost use Rattle.refusal_place.specs.declared.Part.TheVariants.{Location, Pair};
ghost use Rattle.refusal_place.specs.Ranges.{width_of};
ghost use Rattle.parts.specs.Kinds.{kind_byte};
ghost use Rattle.refusal_place.specs.Passing.{EdgeFine};
ghost use Rattle.refusal_place.specs.Walk.{going, inside, one_part, one_pair, numbered, of_component, of_edge, several, pairs, items, budget_part, edge_from, edge, edges};

use crate::steps::{byte_at, fits, going, passed, stops_if};
use crate::{Field, Part, Subject, Walk, contents};
use model::{Sizes, layout};
use parts::{EdgeKind, Kind, PartFault};

// ## Parts

pub fn width(part: Part) -> usize
    ensures { (result ≡ width_of part) × (result ≤ 8) }
{
    match part {
        Part::ComponentLength => 2,
        Part::ComponentHead => layout::COMPONENT_HEADER,
        Part::Location => layout::LOCATION_WIDTH,
        Part::EdgeHead => layout::EDGE_HEADER,
        Part::ClockBound => layout::GUARD_WIDTH,
        Part::DataBound => layout::GUARD_WIDTH,
        Part::Update => layout::UPDATE_WIDTH,
        Part::Channel => 1,
        Part::Pair => layout::PAIR_WIDTH,
        Part::ComponentEnd => 0,
        Part::TableEnd => 0,
        Part::Budget => layout::BUDGET_WIDTH,
    }
}

// "Each part must fit before its contents are tried."
pub fn inside(table: &[u8], end: usize, sizes: Sizes, who: Subject, w: Walk) -> Walk
    requires { (w.at ≤ end) × (end ≤ 8192) }
    ensures { (result ≡ inside table.now end sizes who w) × (result.at ≡ w.at) }
{
    let part = who.part;
    let fit = fits(end, who, width(part), w);
    match part {
        Part::ComponentLength => fit,
        Part::ComponentHead => contents::component_head(table, who, fit),
        Part::Location => contents::location(table, who, sizes, fit),
        Part::EdgeHead => contents::edge_head(table, who, sizes, fit),
        Part::ClockBound => contents::clock_bound(table, who, sizes, fit),
        Part::DataBound => contents::data_bound(table, who, sizes, fit),
        Part::Update => contents::update(table, who, sizes, fit),
        Part::Channel => contents::channel(table, who, sizes, fit),
        Part::Pair => contents::pair(table, who, sizes, fit),
        Part::ComponentEnd => fit,
        Part::TableEnd => fit,
        Part::Budget => contents::budget(table, who, fit),
    }
}

pub fn one_part(table: &[u8], end: usize, sizes: Sizes, who: Subject, w: Walk) -> Walk
    requires { (w.at ≤ end) × (end ≤ 8192) }
    ensures { (result ≡ one_part table.now end sizes who w) × (result.at ≤ end) }
{
    let part = who.part;
    passed(width(part), inside(table, end, sizes, who, w))
}

// A pair, whose channel must be none of those before it; the first stands at `from`.
pub fn one_pair(table: &[u8], end: usize, from: usize, sizes: Sizes, who: Subject, w: Walk) -> Walk
    requires { (w.at ≤ end) × (end ≤ length table.now) × (length table.now ≤ 8192) × (who.part ≡ Pair) × (going w ≡ true → w.at ≡ from + who.index * 2) }
    ensures { (result ≡ one_pair table.now end from sizes who w) × (result.at ≤ end) }
{
    let tried = inside(table, end, sizes, who, w);
    if !going(tried) {
        return tried;
    }
    let at = tried.at;
    let channel = table[at];
    let field = Field {
        offset: layout::PAIR_CHANNEL,
        width: 1,
        least: 0,
        limit: usize::from(sizes.channels),
        unbounded: false,
    };
    let twice = parts::listed_before(&table[from..], usize::from(who.index), channel);
    passed(
        layout::PAIR_WIDTH,
        stops_if(
            twice,
            PartFault::ListedTwice,
            who,
            field,
            usize::from(channel),
            tried,
        ),
    )
}

// ## Parts one after the other

pub fn numbered(who: Subject, index: u8) -> Subject
    ensures { result ≡ numbered who index }
{
    Subject { index, ..who }
}

pub fn of_component(component: u8, part: Part) -> Subject
    ensures { result ≡ of_component component part }
{
    Subject {
        component,
        part,
        edge: 255,
        index: 255,
    }
}

pub fn of_edge(component: u8, edge: u8, part: Part) -> Subject
    ensures { result ≡ of_edge component edge part }
{
    Subject {
        component,
        part,
        edge,
        index: 255,
    }
}

// n parts of one kind.
pub fn several(table: &[u8], end: usize, sizes: Sizes, who: Subject, count: u8, w: Walk) -> Walk
    requires { (w.at ≤ end) × (end ≤ 8192) }
    ensures { (result ≡ several table.now end sizes who count w) × (result.at ≤ end) }
{
    let mut walk = w;
    for i in 0..count {
        walk = one_part(table, end, sizes, numbered(who, i), walk);
    }
    walk
}

// The pairs of a receive edge.
pub fn pairs(table: &[u8], end: usize, sizes: Sizes, who: Subject, count: u8, w: Walk) -> Walk
    requires { (w.at ≤ end) × (end ≤ length table.now) × (length table.now ≤ 8192) × (who.part ≡ Pair) }
    ensures { (result ≡ pairs table.now end sizes who count w) × (result.at ≤ end) }
{
    let from = w.at;
    let mut walk = w;
    for i in 0..count {
        walk = one_pair(table, end, from, sizes, numbered(who, i), walk);
    }
    walk
}

// The items of an edge, by its kind.
pub fn items(
    table: &[u8],
    end: usize,
    sizes: Sizes,
    c: u8,
    e: u8,
    kind: EdgeKind,
    count: u8,
    w: Walk,
) -> Walk
    requires { (w.at ≤ end) × (end ≤ length table.now) × (length table.now ≤ 8192) }
    ensures { (result ≡ items table.now end sizes c e (kind_byte kind) count w) × (result.at ≤ end) }
{
    match kind {
        EdgeKind::Internal => several(table, end, sizes, of_edge(c, e, Part::Update), count, w),
        EdgeKind::Send => {
            let who = numbered(of_edge(c, e, Part::Channel), 0);
            one_part(table, end, sizes, who, w)
        }
        EdgeKind::Receive => pairs(table, end, sizes, of_edge(c, e, Part::Pair), count, w),
    }
}

// The budget of an edge, where edges have one.
fn budget_part(table: &[u8], end: usize, sizes: Sizes, c: u8, e: u8, w: Walk) -> Walk
    requires { (w.at ≤ end) × (end ≤ 8192) }
    ensures { (result ≡ budget_part table.now end sizes c e w) × (result.at ≤ end) }
{
    if sizes.budgets {
        return one_part(table, end, sizes, of_edge(c, e, Part::Budget), w);
    }
    w
}

// The edge that starts here: its 7 bytes, its budget, then clock bounds, data bounds, items.
pub fn edge_from(table: &[u8], end: usize, sizes: Sizes, c: u8, e: u8, w: Walk) -> Walk
    requires { (w.at ≤ end) × (end ≤ length table.now) × (length table.now ≤ 8192) }
    ensures { (result ≡ edge_from table.now end sizes c e w.at w) × (result.at ≤ end) }
{
    let from = w.at;
    let kind = EdgeKind::from(byte_at(table, from));
    let clock_bounds = byte_at(table, from + layout::EDGE_CLOCK_GUARDS);
    let data_bounds = byte_at(table, from + layout::EDGE_DATA_GUARDS);
    let count = byte_at(table, from + layout::EDGE_ITEMS);
    let head = one_part(table, end, sizes, of_edge(c, e, Part::EdgeHead), w);
    let budget = budget_part(table, end, sizes, c, e, head);
    let clocks = several(
        table,
        end,
        sizes,
        of_edge(c, e, Part::ClockBound),
        clock_bounds,
        budget,
    );
    let data = several(
        table,
        end,
        sizes,
        of_edge(c, e, Part::DataBound),
        data_bounds,
        clocks,
    );
    items(table, end, sizes, c, e, kind, count, data)
}

// The locations: passed over if the reader finds them in order.
pub fn locations(table: &[u8], end: usize, sizes: Sizes, c: u8, count: u8, w: Walk) -> Walk
    requires { (w.at ≤ end) × (end ≤ length table.now) × (length table.now ≤ 8192) }
    ensures { (result ≡ several table.now end sizes (of_component c Location) count w) × (result.at ≤ end) }
{
    if !going(w) {
        return w;
    }
    match parts::parts(&table[..end], w.at, count, Kind::Locations, sizes) {
        Ok(next) => Walk { at: next, ..w },
        Err(_) => several(table, end, sizes, of_component(c, Part::Location), count, w),
    }
}

// Where the edge at a place ends, if the reader finds it in order.
fn fine_edge(table: &[u8], end: usize, sizes: Sizes, at: usize) -> Option<usize>
    requires { (at ≤ end) × (end ≤ length table.now) }
    ensures { IfSome result (λ next. EdgeFine table.now end sizes at next) }
{
    if 4 < sizes.clocks {
        return None;
    }
    parts::arc(&table[..end], at, sizes).ok()
}

// An edge that the reader finds in order is passed over, any other is walked.
pub fn edge(table: &[u8], end: usize, sizes: Sizes, c: u8, e: u8, w: Walk) -> Walk
    requires { (w.at ≤ end) × (end ≤ length table.now) × (length table.now ≤ 8192) }
    ensures { (result ≡ edge table.now end sizes c e w) × (result.at ≤ end) }
{
    if !going(w) {
        return w;
    }
    match fine_edge(table, end, sizes, w.at) {
        Some(next) => Walk { at: next, ..w },
        None => edge_from(table, end, sizes, c, e, w),
    }
}

pub fn edges(table: &[u8], end: usize, sizes: Sizes, c: u8, count: u8, w: Walk) -> Walk
    requires { (w.at ≤ end) × (end ≤ length table.now) × (length table.now ≤ 8192) }
    ensures { (result ≡ edges table.now end sizes c count w) × (result.at ≤ end) }
{
    let mut walk = w;
    for e in 0..count {
        walk = edge(table, end, sizes, c, e, walk);
    }
    walk
}
