// The window of an edge, the edge taken, and what a passage leads to (document 01, 'Passage and schedule').
#![tactic(auto)]

ghost use Rattle.std.specs.Prelude.{◌≡◌, cond, ◌&&◌, ℕ, suc, ◌+◌, ◌-◌, ◌*◌, min, max, ◌≤◌, ◌<◌, eqb, ltb, length};
ghost use Rattle.std.specs.Int.Signed.{le_z};
ghost use Rattle.model.specs.Lists.{All};
ghost use Rattle.model.specs.Table.{size};
ghost use Rattle.model.specs.Reader.{clock_guard_at, data_guard_at, pair_at};
ghost use Rattle.model.specs.Places.{list_at, arc_at, budgeted, arc_place, start_of, Valid, read_of, component_in};
ghost use Rattle.model.specs.Window.{clock_at, ready_of, past_of, data_within, first_failing, considered, choice, looked, aged, paired, leads_to, leaves};
ghost use Rattle.model.specs.Schedule.{opening};
ghost use Rattle.window.specs.Indexed.{Indexed};
ghost use Rattle.window.specs.Views.{past_from, standing_of, SmallDelays, entry_of, pick_of, Kept, message_of, opening_of, number_of, ArcReady, Placed, better_of};

pub mod index;
pub mod updates;

use model::{Action, ClockGuard, DataGuard, Location, layout};

// A component as it enters a location. The clocks and variables that it lacks stand among the four and are never read.
#[derive(Clone, Copy)]
pub struct Entry {
    pub location: u8,
    pub tick: u32,
    pub clocks: [u32; 4],
    pub values: [i16; 4],
}

// The delays at which invariant and clock bounds hold: from ready up to, and without, past.
#[derive(Clone, Copy)]
pub struct Delays {
    pub ready: u32,
    pub past: u32,
}

// An edge, the place of its first byte, and its window, both ends included, counted from the entry.
#[derive(Clone, Copy)]
pub struct TakenEdge {
    pub edge: u8,
    pub place: usize,
    pub ready: u32,
    pub end: u32,
}

// The best edge so far, as plain numbers without gaps between them. A ready above 65535 says that there is none.
// A struct, not an Option: the search hands it from edge to edge, and asks only which ready is the earlier, with one comparison where there is none too.
#[derive(Clone, Copy)]
pub struct Choice {
    pub edge: usize,
    pub place: usize,
    pub ready: u32,
    pub end: u32,
}

// What an edge is at an entry: it leaves another location, a data bound fails (the first that does), it has no window of at least one tick's length and
// the budget's, or it is a candidate, with its ready and the first delay past its end.
#[derive(Clone, Copy)]
pub enum Standing {
    Elsewhere,
    Blocked(u8),
    Windowless,
    Candidate(u32, u32),
}

// What the search found: the edge taken, and how many edges were looked at.
#[derive(Clone, Copy)]
pub struct Search {
    pub choice: Choice,
    pub looked: usize,
}

// Why no passage opens: no edge from the location entered has a window that is long enough, or an update of the edge taken leaves the range.
#[derive(Clone, Copy, PartialEq, Eq)]
pub enum Unopened {
    NoWindow,
    OutOfRange,
}

impl Unopened {
    // The number of the refusal (docs/REFUSALS.md).
    pub fn number(self) -> u8
        ensures { result ≡ number_of self }
    {
        match self {
            Unopened::NoWindow => 8,
            Unopened::OutOfRange => 9,
        }
    }
}

// One clock bound narrows a window.
fn narrowed(delays: Delays, guard: ClockGuard, clock: u32) -> Delays
    requires { (delays.ready ≤ 65535) × (delays.past ≤ 65536) }
    ensures { (result.ready ≡ max (guard.low - clock) delays.ready) × (result.past ≡ cond (eqb guard.high 65535) delays.past (min (suc guard.high - clock) delays.past)) × (result.ready ≤ 65535) × (result.past ≤ 65536) }
{
    let ready = u32::from(guard.low).saturating_sub(clock).max(delays.ready);
    if guard.high == 65535 {
        return Delays {
            ready,
            past: delays.past,
        };
    }
    let past = (u32::from(guard.high) + 1)
        .saturating_sub(clock)
        .min(delays.past);
    Delays { ready, past }
}

// How many ticks of a location's invariant are left, from its clock on.
fn stays(location: Location, clocks: [u32; 4]) -> u32
    requires { location.clock < 4 }
    ensures { (result ≡ suc location.bound - clock_at clocks location.clock) × (result ≤ 65536) }
{
    let clock = clocks[usize::from(location.clock)];
    (u32::from(location.bound) + 1).saturating_sub(clock)
}

// The window that `count` clock bounds leave of so many ticks; `guards` begins at the first bound. One that is ready at the delay `before` or later
// isn't asked for: the bounds are left as soon as they say so.
fn window_within(before: u32, left: u32, guards: &[u8], count: u8, clocks: [u32; 4]) -> Delays
    requires { (count * 5 ≤ length guards.now) × (left ≤ 65536) × All (λ g. g.clock < 4) (list_at clock_guard_at 5 count guards.now) }
    ensures { (result.ready < before → (result.ready ≡ ready_of (list_at clock_guard_at 5 count guards.now) clocks) × (result.past ≡ past_from left (list_at clock_guard_at 5 count guards.now) clocks)) × (result.ready ≤ ready_of (list_at clock_guard_at 5 count guards.now) clocks) × (result.ready ≤ 65535) × (result.past ≤ 65536) }
{
    let mut delays = Delays {
        ready: 0,
        past: left,
    };
    let mut at: usize = 0;
    for _ in 0..count {
        let guard = decoder::clock_guard_at(&guards[at..]);
        delays = narrowed(delays, guard, clocks[usize::from(guard.clock)]);
        if before <= delays.ready {
            return delays;
        }
        at += layout::GUARD_WIDTH;
    }
    delays
}

// The window that an invariant and `count` clock bounds leave; `guards` begins at the first bound.
pub fn window(guards: &[u8], count: u8, location: Location, clocks: [u32; 4]) -> Delays
    requires { (count * 5 ≤ length guards.now) × (location.clock < 4) × All (λ g. g.clock < 4) (list_at clock_guard_at 5 count guards.now) }
    ensures { (result.ready ≡ ready_of (list_at clock_guard_at 5 count guards.now) clocks) × (result.past ≡ past_of location (list_at clock_guard_at 5 count guards.now) clocks) × (result.ready ≤ 65535) × (result.past ≤ 65536) }
{
    let left = stays(location, clocks);
    window_within(65536, left, guards, count, clocks)
}

fn within(value: i16, low: i16, high: i16) -> bool
    ensures { result ≡ le_z low value && le_z value high }
{
    parts::both(low <= value, value <= high)
}

// Whether a data bound holds.
fn data_within(guard: DataGuard, values: [i16; 4]) -> bool
    requires { guard.variable < 4 }
    ensures { result ≡ data_within guard values }
{
    within(values[usize::from(guard.variable)], guard.low, guard.high)
}

// The number of the first of `count` data bounds that fails, `count` where all hold; `guards` begins at the first bound.
fn first_failing(guards: &[u8], count: u8, values: [i16; 4]) -> u8
    requires { (count * 5 ≤ length guards.now) × All (λ g. g.variable < 4) (list_at data_guard_at 5 count guards.now) }
    ensures { result ≡ first_failing (list_at data_guard_at 5 count guards.now) values }
{
    let mut at: usize = 0;
    for held in 0..count {
        let guard = decoder::data_guard_at(&guards[at..]);
        if !data_within(guard, values) {
            return held;
        }
        at += layout::GUARD_WIDTH;
    }
    count
}

// The earlier of two, on a tie the first.
fn better(best: Choice, candidate: Choice) -> Choice
    ensures { result ≡ better_of best candidate }
{
    if candidate.ready < best.ready {
        candidate
    } else {
        best
    }
}

// The least length of a window: a tick, or its budget.
fn least_length(budget: u16) -> u32
    ensures { result ≡ max 1 budget }
{
    if budget == 0 {
        1
    } else {
        parts::word32(budget)
    }
}

// Whether a window has at least one tick's length, and the budget's.
fn long_enough(delays: Delays, budget: u16) -> bool
    requires { delays.ready ≤ 65535 }
    ensures { result ≡ ltb (suc delays.ready) delays.past && ltb (delays.ready + budget) delays.past }
{
    delays.ready + least_length(budget) < delays.past
}

// What the edge at the front of the bytes is.
pub fn judge(bytes: &[u8], location: Location, at: Entry, budgets: bool) -> Standing
    requires { ArcReady budgets bytes.now × (location.clock < 4) }
    ensures stands { result ≡ standing_of location (entry_of at) (arc_at budgets bytes.now) }
    ensures small { SmallDelays result }
{
    let edge = decoder::edge_at(bytes, budgets);
    if edge.source != at.location {
        return Standing::Elsewhere;
    }
    let head = decoder::head_length(budgets);
    let first = head + parts::wide(bytes[layout::EDGE_CLOCK_GUARDS]) * layout::GUARD_WIDTH;
    let values = at.values;
    let guards = bytes[layout::EDGE_DATA_GUARDS];
    let failing = first_failing(&bytes[first..], guards, values);
    if failing < guards {
        return Standing::Blocked(failing);
    }
    let clocks = at.clocks;
    let delays = window(
        &bytes[head..],
        bytes[layout::EDGE_CLOCK_GUARDS],
        location,
        clocks,
    );
    let budget = decoder::budget_at(bytes, budgets);
    if !long_enough(delays, budget) {
        return Standing::Windowless;
    }
    Standing::Candidate(delays.ready, delays.past)
}

// The edge at the front of the bytes, number e, at that place in the table: it replaces the best so far, or it does not. The same as by `judge`
// (`considered_by` in proofs/Considering.antt), whose answer would have to be stored and read again for each edge of each opening.
fn considered_edge(
    bytes: &[u8],
    e: u8,
    place: usize,
    location: Location,
    left: u32,
    at: Entry,
    best: Choice,
    budgets: bool,
) -> Choice
    requires { ArcReady budgets bytes.now × ((arc_at budgets bytes.now).edge.source ≡ at.location) × (left ≡ suc location.bound - clock_at at.clocks location.clock) × (left ≤ 65536) }
    ensures picks { pick_of result ≡ considered location at.location at.clocks at.values e (arc_at budgets bytes.now) (pick_of best) }
    ensures keeps { (f : ℕ → ℕ) → f e ≡ place → Kept f best → Kept f result }
{
    let head = decoder::head_length(budgets);
    let first = head + parts::wide(bytes[layout::EDGE_CLOCK_GUARDS]) * layout::GUARD_WIDTH;
    let values = at.values;
    let guards = bytes[layout::EDGE_DATA_GUARDS];
    let failing = first_failing(&bytes[first..], guards, values);
    if failing < guards {
        return best;
    }
    let clocks = at.clocks;
    let delays = window_within(
        best.ready,
        left,
        &bytes[head..],
        bytes[layout::EDGE_CLOCK_GUARDS],
        clocks,
    );
    if best.ready <= delays.ready {
        return best;
    }
    let budget = decoder::budget_at(bytes, budgets);
    if !long_enough(delays, budget) {
        return best;
    }
    let candidate = Choice {
        edge: parts::wide(e),
        place,
        ready: delays.ready,
        end: delays.past - 1,
    };
    better(best, candidate)
}

// The edge that component c, which starts there in the table, takes as it enters: of those that leave its location, found by the index. The search
// is left as soon as one is a candidate with no delay; edges that leave other locations count as looked at on the way.
pub fn choose(table: &[u8], start: usize, c: u8, at: Entry, index: &[u16], budgets: bool) -> Search
    requires { Valid table.now × (c < size (read_of table.now).table) × (start ≡ start_of table.now c) × (at.location < length (component_in table.now c).locations) × Indexed table.now index.now c start × (budgets ≡ budgeted table.now) }
    ensures picks { pick_of result.choice ≡ choice (component_in table.now c) (entry_of at) }
    ensures counts { result.looked ≡ looked (component_in table.now c) (entry_of at) }
    ensures keeps { Kept (arc_place table.now start) result.choice }
{
    let count = parts::wide(table[start + layout::COMPONENT_EDGES]);
    let there = start
        + layout::COMPONENT_HEADER
        + parts::wide(at.location) * layout::LOCATION_WIDTH;
    let location = decoder::location_at(&table[there..]);
    let clocks = at.clocks;
    let left = stays(location, clocks);
    let from = parts::wide(c) * index::COMPONENT_WIDTH;
    let mut best = Choice {
        edge: 0,
        place: 0,
        ready: 65536,
        end: 0,
    };
    let mut e = index[from + parts::wide(at.location)] as usize;
    // A loop: the next edge is read from the index, no count of steps is known.
    loop {
        if count <= e {
            break Search {
                choice: best,
                looked: count,
            };
        }
        let place = index[from + index::PLACE + e] as usize;
        best = considered_edge(
            &table[place..],
            e as u8,
            place,
            location,
            left,
            at,
            best,
            budgets,
        );
        if best.ready == 0 {
            break Search {
                choice: best,
                looked: e + 1,
            };
        }
        e = index[from + index::NEXT + e] as usize;
    }
}

fn aged_clock(bit: u8, grown: u32, clock: u32) -> u32
    requires { (grown ≤ 1000000) × (clock ≤ 1000000) }
    ensures { result ≡ cond (eqb bit 1) 0 (clock + grown) }
{
    if bit == 1 { 0 } else { clock + grown }
}

// Masked clocks become 0, the others grow.
pub fn age(mask: u8, grown: u32, clocks: [u32; 4]) -> [u32; 4]
    requires { (grown ≤ 1000000) × All (λ x. x ≤ 1000000) clocks }
    ensures { result ≡ aged mask grown 0 clocks }
{
    [
        aged_clock(mask % 2, grown, clocks[0]),
        aged_clock(mask / 2 % 2, grown, clocks[1]),
        aged_clock(mask / 4 % 2, grown, clocks[2]),
        aged_clock(mask / 8 % 2, grown, clocks[3]),
    ]
}

// The location that `count` pairs have for a channel, else another; `pairs` begins at the first pair.
pub fn paired_location(pairs: &[u8], count: u8, channel: u8, other: u8) -> u8
    requires { count * 2 ≤ length pairs.now }
    ensures { result ≡ paired (list_at pair_at 2 count pairs.now) channel other }
{
    let mut at: usize = 0;
    for _ in 0..count {
        let pair = decoder::pair_at(&pairs[at..]);
        if pair.channel == channel {
            return pair.location;
        }
        at += layout::PAIR_WIDTH;
    }
    other
}

// Where the edge at the front of the bytes leads with a message (255: none).
pub fn leads_to(bytes: &[u8], message: u8, budgets: bool) -> u8
    requires { ArcReady budgets bytes.now }
    ensures { result ≡ leads_to (arc_at budgets bytes.now) (message_of message) }
{
    let edge = decoder::edge_at(bytes, budgets);
    if message == 255 {
        return edge.destination;
    }
    let action = edge.action;
    match action {
        Action::Internal => edge.destination,
        Action::Send(_) => edge.destination,
        Action::Receive => {
            let items = decoder::items_place(bytes, budgets);
            paired_location(
                &bytes[items..],
                bytes[layout::EDGE_ITEMS],
                message,
                edge.destination,
            )
        }
    }
}

// The entry that a passage over the edge at the front of the bytes leads to, at the tick `end`.
pub fn leave(bytes: &[u8], message: u8, end: u32, at: Entry, budgets: bool) -> Entry
    requires { ArcReady budgets bytes.now × (at.tick ≤ end) × (end ≤ 1000000) × All (λ x. x ≤ at.tick) at.clocks }
    ensures leads { entry_of result ≡ leaves (arc_at budgets bytes.now) (message_of message) end (entry_of at) }
    ensures young { All (λ x. x ≤ end) result.clocks }
{
    let before = at.values;
    let values = updates::edge_update(bytes, before, budgets).unwrap_or(before);
    let young = at.clocks;
    let edge = decoder::edge_at(bytes, budgets);
    let clocks = age(edge.mask, end - at.tick, young);
    Entry {
        location: leads_to(bytes, message, budgets),
        tick: end,
        clocks,
        values,
    }
}

// Checks 8 and 9: the passage that component c opens as it enters.
pub fn open(
    table: &[u8],
    start: usize,
    c: u8,
    at: Entry,
    index: &[u16],
    budgets: bool,
) -> Result<TakenEdge, Unopened>
    requires { Valid table.now × (c < size (read_of table.now).table) × (start ≡ start_of table.now c) × (at.location < length (component_in table.now c).locations) × Indexed table.now index.now c start × (budgets ≡ budgeted table.now) }
    ensures opens { opening_of c (component_in table.now c) (entry_of at) result ≡ opening c (component_in table.now c) (entry_of at) }
    ensures placed { Placed table.now start c result }
{
    let found = choose(table, start, c, at, index, budgets);
    let chosen = found.choice;
    if 65535 < chosen.ready {
        return Err(Unopened::NoWindow);
    }
    let place = chosen.place;
    let values = at.values;
    if updates::edge_update(&table[place..], values, budgets).is_none() {
        return Err(Unopened::OutOfRange);
    }
    Ok(TakenEdge {
        edge: chosen.edge as u8,
        place,
        ready: chosen.ready,
        end: chosen.end,
    })
}
