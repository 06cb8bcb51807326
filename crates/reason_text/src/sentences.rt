// A reason in words, with the numbers that make it so.
ghost use Rattle.std.specs.Prelude.{◌≡◌, cond, not, List, [], ◌∷◌, ◌++◌, ℕ, ◌+◌, ◌*◌, ◌≤◌, ◌<◌, ltb, length, get_or};
ghost use Rattle.model.specs.declared.Reason.TheVariants.{DataBound};
ghost use Rattle.model.specs.Lists.{place_of};
ghost use Rattle.model.specs.Places.{arc_at};
ghost use Rattle.model.specs.Window.{value_at, ready_of};
ghost use Rattle.model.specs.Reasons.{no_bound};
ghost use Rattle.window.specs.Views.{entry_of, ArcReady};
ghost use Rattle.text.specs.Words.{Added, field};
ghost use Rattle.reason_text.specs.Bounds.{bounds_at, BoundsLeave};
ghost use Rattle.reason_text.specs.ReasonText.{signed, allowed_words, bound_words, wider, by_words, ready_words, no_window_words, short_window_words, window_words, reason_words};

use model::{DataGuard, Location, Reason, layout};
use text::{put, put_decimal, put_field};
use window::{Delays, Entry};

// A signed number.
fn put_signed(out: &mut [u8], at: usize, value: i16) -> usize
    requires { at + 11 ≤ length out.old }
    ensures { Added out.old at (signed value) out.new result × (result ≤ at + 11) }
{
    if value < 0 {
        let complement = ((value as i32) + 65536) as u32;
        return put_field(out, at, b"-", 65536 - complement);
    }
    put_decimal(out, at, value as u32)
}

// What a data bound allows.
fn put_allowed(out: &mut [u8], at: usize, guard: DataGuard) -> usize
    requires { at + 36 ≤ length out.old }
    ensures { Added out.old at (allowed_words guard) out.new result × (result ≤ at + 36) }
{
    let low = put(out, at, b", allowed ");
    let to = put_signed(out, low, guard.low);
    let high = put(out, to, b" to ");
    put_signed(out, high, guard.high)
}

// A data bound that fails.
fn put_fails(out: &mut [u8], at: usize, number: u8, guard: DataGuard, value: i16) -> usize
    requires { at + 91 ≤ length out.old }
    ensures { Added out.old at (bound_words number guard value) out.new result × (result ≤ at + 91) }
{
    let fails = put_field(out, at, b"data bound ", number as u32);
    let variable = put_field(out, fails, b" fails: v", guard.variable as u32);
    let is = put(out, variable, b" is ");
    let allowed = put_signed(out, is, value);
    put_allowed(out, allowed, guard)
}

// Data bound number j of the edge at the front of the bytes.
fn put_bound(
    out: &mut [u8],
    at: usize,
    edge: &[u8],
    number: u8,
    values: [i16; 4],
    budgets: bool,
) -> usize
    requires { (at + 91 ≤ length out.old) × ArcReady budgets edge.now × (number < length (arc_at budgets edge.now).data_guards) }
    ensures { Added out.old at (let g = get_or (arc_at budgets edge.now).data_guards number no_bound in bound_words number g (value_at values g.variable)) out.new result × (result ≤ at + 91) }
{
    let first = decoder::head_length(budgets)
        + (parts::wide(edge[layout::EDGE_CLOCK_GUARDS]) + parts::wide(number))
            * layout::GUARD_WIDTH;
    let guard = decoder::data_guard_at(&edge[first..]);
    let i = parts::wide(guard.variable);
    put_fails(out, at, number, guard, values[i])
}

// Whether one window is over later than another, or ready sooner.
fn is_wider(over: bool, one: Delays, all: Delays) -> bool
    ensures { result ≡ cond over (ltb all.past one.past) (ltb one.ready all.ready) }
{
    if over {
        all.past < one.past
    } else {
        one.ready < all.ready
    }
}

// The number of the first of `count` clock bounds that decides when the edge is over, or ready; `guards` begins at the first bound.
fn deciding(
    guards: &[u8],
    count: u8,
    location: Location,
    clocks: [u32; 4],
    over: bool,
    all: Delays,
) -> u8
    requires { BoundsLeave guards.now count location clocks all }
    ensures { result ≡ place_of (λ g. not (wider over location (bounds_at count guards.now) clocks (g ∷ []))) (bounds_at count guards.now) }
{
    let mut at: usize = 0;
    for k in 0..count {
        let one = window::window(&guards[at..], 1, location, clocks);
        if !is_wider(over, one, all) {
            return k;
        }
        at += layout::GUARD_WIDTH;
    }
    count
}

// By which clock bound.
fn put_by(
    out: &mut [u8],
    at: usize,
    otherwise: &[u8],
    guards: &[u8],
    count: u8,
    location: Location,
    clocks: [u32; 4],
    over: bool,
    all: Delays,
) -> usize
    requires { (at + 26 ≤ length out.old) × (length otherwise.now ≤ 26) × BoundsLeave guards.now count location clocks all }
    ensures { Added out.old at (by_words otherwise.now over location (bounds_at count guards.now) clocks) out.new result × (result ≤ at + 26) }
{
    let none = window::window(guards, 0, location, clocks);
    if is_wider(over, none, all) {
        let bound = deciding(guards, count, location, clocks, over, all);
        return put_field(out, at, b" by clock bound ", bound as u32);
    }
    put(out, at, otherwise)
}

// From which tick on the lows of an edge's `count` clock bounds allow it.
fn put_ready(
    out: &mut [u8],
    at: usize,
    guards: &[u8],
    count: u8,
    location: Location,
    entry: Entry,
    all: Delays,
) -> usize
    requires { (at + 52 ≤ length out.old) × (entry.tick ≤ 60000) × BoundsLeave guards.now count location entry.clocks all }
    ensures { Added out.old at (ready_words location (entry_of entry) (bounds_at count guards.now)) out.new result × (result ≤ at + 52) }
{
    let clocks = entry.clocks;
    let by = put_field(out, at, b": ready at tick ", entry.tick + all.ready);
    put_by(out, by, b"", guards, count, location, clocks, false, all)
}

// An edge without a window of at least one tick's length.
fn put_no_window(
    out: &mut [u8],
    at: usize,
    guards: &[u8],
    count: u8,
    location: Location,
    entry: Entry,
    all: Delays,
) -> usize
    requires { (at + 160 ≤ length out.old) × (entry.tick ≤ 60000) × BoundsLeave guards.now count location entry.clocks all }
    ensures { Added out.old at (no_window_words location (entry_of entry) (bounds_at count guards.now)) out.new result × (result ≤ at + 160) }
{
    let clocks = entry.clocks;
    let ready = put(out, at, b"no window of at least one tick");
    let comma = put_ready(out, ready, guards, count, location, entry, all);
    let on = put_field(out, comma, b", over from tick ", entry.tick + all.past);
    let until = put(out, on, b" on");
    put_by(
        out,
        until,
        b" by the invariant",
        guards,
        count,
        location,
        clocks,
        true,
        all,
    )
}

// An edge whose window is shorter than its budget.
fn put_short_window(
    out: &mut [u8],
    at: usize,
    budget: u16,
    guards: &[u8],
    count: u8,
    location: Location,
    entry: Entry,
    all: Delays,
) -> usize
    requires { (at + 160 ≤ length out.old) × (entry.tick ≤ 60000) × BoundsLeave guards.now count location entry.clocks all × (1 ≤ all.past) }
    ensures { Added out.old at (short_window_words budget location (entry_of entry) (bounds_at count guards.now)) out.new result × (result ≤ at + 160) }
{
    let clocks = entry.clocks;
    let ready = put_field(
        out,
        at,
        b"window shorter than its budget of ",
        parts::word32(budget),
    );
    let comma = put_ready(out, ready, guards, count, location, entry, all);
    let until = put_field(out, comma, b", end at tick ", entry.tick + (all.past - 1));
    put_by(
        out,
        until,
        b" by the invariant",
        guards,
        count,
        location,
        clocks,
        true,
        all,
    )
}

// The window of the edge at the front of the bytes, where it keeps the edge from being a candidate.
fn put_window(
    out: &mut [u8],
    at: usize,
    edge: &[u8],
    location: Location,
    entry: Entry,
    budgets: bool,
) -> usize
    requires { (at + 160 ≤ length out.old) × ArcReady budgets edge.now × (location.clock < 4) × (entry.tick ≤ 60000) }
    ensures { Added out.old at (window_words location (entry_of entry) (arc_at budgets edge.now)) out.new result × (result ≤ at + 160) }
{
    let head = decoder::head_length(budgets);
    let count = edge[layout::EDGE_CLOCK_GUARDS];
    let clocks = entry.clocks;
    let all = window::window(&edge[head..], count, location, clocks);
    if all.ready + 1 < all.past {
        let budget = decoder::budget_at(edge, budgets);
        return put_short_window(out, at, budget, &edge[head..], count, location, entry, all);
    }
    put_no_window(out, at, &edge[head..], count, location, entry, all)
}

// When the edge at the front of the bytes is ready, which is later than the one taken.
fn put_later(
    out: &mut [u8],
    at: usize,
    edge: &[u8],
    location: Location,
    entry: Entry,
    budgets: bool,
) -> usize
    requires { (at + 31 ≤ length out.old) × ArcReady budgets edge.now × (location.clock < 4) × (entry.tick ≤ 60000) }
    ensures { Added out.old at (field "ready later, at tick " (entry.tick + ready_of (arc_at budgets edge.now).clock_guards entry.clocks)) out.new result × (result ≤ at + 31) }
{
    let head = decoder::head_length(budgets);
    let clocks = entry.clocks;
    let delays = window::window(
        &edge[head..],
        edge[layout::EDGE_CLOCK_GUARDS],
        location,
        clocks,
    );
    put_field(out, at, b"ready later, at tick ", entry.tick + delays.ready)
}

// The reason of the edge at the front of the bytes, where another was taken or this one.
pub fn put_reason(
    out: &mut [u8],
    at: usize,
    edge: &[u8],
    location: Location,
    entry: Entry,
    taken: u8,
    ready: u32,
    end: u32,
    reason: Reason,
    budgets: bool,
) -> usize
    requires { (at + 160 ≤ length out.old) × ArcReady budgets edge.now × (location.clock < 4) × (entry.tick ≤ 60000) × ((j : ℕ) → reason ≡ DataBound j → j < length (arc_at budgets edge.now).data_guards) }
    ensures { Added out.old at (reason_words location (entry_of entry) taken ready end (arc_at budgets edge.now) reason) out.new result × (result ≤ at + 160) }
{
    match reason {
        Reason::Taken => {
            let to = put_field(out, at, b"taken, ticks ", ready);
            put_field(out, to, b" to ", end)
        }
        Reason::DataBound(number) => {
            let values = entry.values;
            put_bound(out, at, edge, number, values, budgets)
        }
        Reason::NoWindow => put_window(out, at, edge, location, entry, budgets),
        Reason::ReadyLater => put_later(out, at, edge, location, entry, budgets),
        Reason::HigherNumber => {
            let higher = put_field(out, at, b"ready together with edge ", taken as u32);
            put(out, higher, b", numbered higher")
        }
    }
}
