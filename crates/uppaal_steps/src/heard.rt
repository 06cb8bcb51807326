// The steps of a receive edge's messages. What they share is written once and then copied: the guard of a step in, and what stands behind the
// arrow of each step out, kept by its mark in 640 bytes each.
ghost use Rattle.std.specs.Prelude.{◌≡◌, true, false, ◌++◌, ℕ, ◌+◌, ◌-◌, ◌*◌, ◌≤◌, length, take, drop};
ghost use Rattle.model.specs.Lists.{each, from};
ghost use Rattle.model.specs.Reader.{pair_at};
ghost use Rattle.model.specs.Places.{arc_at};
ghost use Rattle.blocks.specs.Put.{Put};
ghost use Rattle.words.specs.Words.{ascii};
ghost use Rattle.window.specs.Views.{message_of};
ghost use Rattle.uppaal.specs.Export.{highs};
ghost use Rattle.uppaal_parts.specs.Marks.{all_told};
ghost use Rattle.uppaal_steps.specs.Steps.{Writable, arrow_out, step_told, outcome_told};
ghost use Rattle.uppaal_steps.specs.Shared.{guard_in, tail_out, Kept};

use crate::{Origin, conditions, names};
use model::layout;

// What stands behind the arrow of a step out.
#[inline(never)]
pub fn put_tail(edge: &[u8], origin: Origin, tight: u8, out: &mut [u8], at: usize) -> usize
    requires { Writable origin.budgets edge.now × (origin.clocks ≤ 4) × (at + 610 ≤ 2305843009213693952) }
    ensures { Put out.old at (tail_out origin.location origin.clocks (arc_at origin.budgets edge.now) tight) result out.new × (result ≤ at + 610) }
{
    let first = conditions::put_guard_out(edge, origin.budgets, origin.location, tight, out, at);
    let second = conditions::put_assign(edge, origin.budgets, origin.clocks, out, first);
    words::put_words(out, second, b" }")
}

// Keeps those with the marks from 1 on; answers where each ends.
fn keep_tails(edge: &[u8], origin: Origin, last: u8, kept: &mut [u8]) -> [u16; 8]
    requires { Writable origin.budgets edge.now × (origin.clocks ≤ 4) × (1 ≤ last) × (last ≤ 6) × (3840 ≤ length kept.old) }
    ensures { Kept origin.location origin.clocks (arc_at origin.budgets edge.now) last kept.new result }
{
    let mut ends = [0u16; 8];
    for tight in 1..last {
        let end = put_tail(edge, origin, tight, kept, usize::from(tight) * 640);
        ends[usize::from(tight)] = end as u16;
    }
    ends
}

// A step out, behind another: its arrow, and the tail that is kept.
fn put_kept_out(
    number: u8,
    message: u8,
    target: u8,
    tail: &[u8],
    out: &mut [u8],
    at: usize,
) -> usize
    requires { (length tail.now ≤ 610) × (at + 700 ≤ 2305843009213693952) }
    ensures { Put out.old at (ascii ",\n  " ++ (arrow_out number (message_of message) target ++ tail.now)) result out.new × (result ≤ at + 700) }
{
    let first = words::put_words(out, at, b",\n  ");
    let second = names::put_arrow_out(out, first, number, message, target);
    words::put_words(out, second, tail)
}

// The steps out of a message.
fn put_kept_outs(
    edge: &[u8],
    origin: Origin,
    message: u8,
    kept: &[u8],
    ends: [u16; 8],
    last: u8,
    out: &mut [u8],
    at: usize,
) -> usize
    requires { Writable origin.budgets edge.now × (1 ≤ last) × (last ≤ 6) × Kept origin.location origin.clocks (arc_at origin.budgets edge.now) last kept.now ends × (at + (last - 1) * 700 ≤ 2305843009213693952) }
    ensures { Put out.old at (each (step_told false origin edge.now message) (from 1 (last - 1))) result out.new × (result ≤ at + (last - 1) * 700) }
{
    let target = window::leads_to(edge, message, origin.budgets);
    let mut next = at;
    for tight in 1..last {
        let start = usize::from(tight) * 640;
        let end = usize::from(ends[usize::from(tight)]);
        next = put_kept_out(origin.number, message, target, &kept[start..end], out, next);
    }
    next
}

// The step in of a message, behind another.
fn put_kept_in(
    edge: &[u8],
    origin: Origin,
    message: u8,
    guard: &[u8],
    out: &mut [u8],
    at: usize,
) -> usize
    requires { Writable origin.budgets edge.now × (guard.now ≡ guard_in origin.location (arc_at origin.budgets edge.now)) × (length guard.now ≤ 1160) × (at + 1250 ≤ 2305843009213693952) }
    ensures { Put out.old at (step_told true origin edge.now message 0) result out.new × (result ≤ at + 1250) }
{
    let first = words::put_words(out, at, b",\n  ");
    let second = names::put_arrow_in(
        out,
        first,
        edge[layout::EDGE_SOURCE],
        origin.number,
        message,
    );
    let third = words::put_words(out, second, guard);
    let fourth = names::put_sync(out, third, edge[layout::EDGE_KIND], message);
    words::put_words(out, fourth, b" }")
}

// The transitions of a message: its step in, then its steps out.
fn put_message(
    edge: &[u8],
    origin: Origin,
    message: u8,
    guard: &[u8],
    kept: &[u8],
    ends: [u16; 8],
    last: u8,
    out: &mut [u8],
    at: usize,
) -> usize
    requires { Writable origin.budgets edge.now × (origin.clocks ≤ 4) × (guard.now ≡ guard_in origin.location (arc_at origin.budgets edge.now)) × (length guard.now ≤ 1160) × (last ≡ length (highs (arc_at origin.budgets edge.now).clock_guards) + 2) × (last ≤ 6) × Kept origin.location origin.clocks (arc_at origin.budgets edge.now) last kept.now ends × (at + 12500 ≤ 2305843009213693952) }
    ensures { Put out.old at (outcome_told true origin edge.now message) result out.new × (result ≤ at + 12500) }
{
    if message == 255 {
        return crate::put_transitions(edge, origin, message, out, at);
    }
    let next = put_kept_in(edge, origin, message, guard, out, at);
    put_kept_outs(edge, origin, message, kept, ends, last, out, next)
}

// Those of n messages; `pairs` begins at the first pair.
fn put_all(
    edge: &[u8],
    origin: Origin,
    pairs: &[u8],
    count: u8,
    guard: &[u8],
    kept: &[u8],
    ends: [u16; 8],
    last: u8,
    out: &mut [u8],
    at: usize,
) -> usize
    requires { Writable origin.budgets edge.now × (origin.clocks ≤ 4) × (guard.now ≡ guard_in origin.location (arc_at origin.budgets edge.now)) × (length guard.now ≤ 1160) × (last ≡ length (highs (arc_at origin.budgets edge.now).clock_guards) + 2) × (last ≤ 6) × Kept origin.location origin.clocks (arc_at origin.budgets edge.now) last kept.now ends × (count * 2 ≤ length pairs.now) × (count ≤ 8) × (at + count * 12500 ≤ 2305843009213693952) }
    ensures { Put out.old at (all_told (λ q. outcome_told true origin edge.now (pair_at q).channel) 2 count pairs.now) result out.new × (result ≤ at + count * 12500) }
{
    // Not by `put_each`: what it asks of a closure with captures does not close.
    let mut next = at;
    for k in 0..usize::from(count) {
        let message = decoder::pair_at(&pairs[k * layout::PAIR_WIDTH..]).channel;
        next = put_message(edge, origin, message, guard, kept, ends, last, out, next);
    }
    next
}

// The transitions of n messages; `pairs` begins at the first pair.
pub fn put_messages(
    edge: &[u8],
    origin: Origin,
    pairs: &[u8],
    count: u8,
    out: &mut [u8],
    at: usize,
) -> usize
    requires { Writable origin.budgets edge.now × (origin.clocks ≤ 4) × (count * 2 ≤ length pairs.now) × (count ≤ 8) × (at + count * 12500 ≤ 2305843009213693952) }
    ensures { Put out.old at (all_told (λ q. outcome_told true origin edge.now (pair_at q).channel) 2 count pairs.now) result out.new × (result ≤ at + count * 12500) }
{
    let head = decoder::head_length(origin.budgets);
    let highs = uppaal_parts::highs_count(&edge[head..], edge[layout::EDGE_CLOCK_GUARDS]);
    let mut guard = [0u8; 1160];
    let long = conditions::put_guard_in(edge, origin.budgets, origin.location, 0, &mut guard, 0);
    let mut kept = [0u8; 3840];
    let ends = keep_tails(edge, origin, highs + 2, &mut kept);
    put_all(
        edge,
        origin,
        pairs,
        count,
        &guard[..long],
        &kept,
        ends,
        highs + 2,
        out,
        at,
    )
}
