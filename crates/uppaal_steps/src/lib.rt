// Writes the waiting locations and the transitions of an edge for UPPAAL, from the edge's bytes.
// Text is put into a lent slice, from a place on, and the place behind it is answered: memory is fixed, and what does not fit is counted.
// A message is the byte of its channel, and 255 where there is none, as `window::leads_to` takes it.
#![tactic(auto)]

ghost use Rattle.std.specs.Prelude.{◌≡◌, Bool, true, false, map, ℕ, ◌+◌, ◌-◌, ◌*◌, ◌≤◌, length};
ghost use Rattle.model.specs.Lists.{each, from};
ghost use Rattle.model.specs.Reader.{pair_at};
ghost use Rattle.model.specs.Places.{arc_at};
ghost use Rattle.blocks.specs.Put.{Put};
ghost use Rattle.uppaal.specs.Export.{uppers_from, entries, step_in_with, step_out_with};
ghost use Rattle.window.specs.Views.{message_of};
ghost use Rattle.uppaal_parts.specs.Marks.{marked, all_told};
ghost use Rattle.uppaal_steps.specs.Stepping.{TakesSteps, TellsSteps};
ghost use Rattle.uppaal_steps.specs.Steps.{Writable, step_text, step_told, outcome_told, edge_text};

use model::{Action, Location, layout};

pub mod conditions;
pub mod heard;
pub mod names;

// An edge besides its bytes: its number, the invariant of its location, the clocks of its component, and whether edges have a budget.
#[derive(Clone, Copy)]
pub struct Origin {
    pub number: u8,
    pub location: Location,
    pub clocks: u8,
    pub budgets: bool,
}

// The step in of the edge at the front, behind another.
#[inline(never)]
fn put_step_in(
    edge: &[u8],
    origin: Origin,
    message: u8,
    tight: u8,
    out: &mut [u8],
    at: usize,
) -> usize
    requires { Writable origin.budgets edge.now × (at + 1250 ≤ 2305843009213693952) }
    ensures { Put out.old at (step_told true origin edge.now message tight) result out.new × (result ≤ at + 1250) }
{
    let start = words::put_words(out, at, b",\n  ");
    let source = edge[layout::EDGE_SOURCE];
    let first = names::put_arrow_in(out, start, source, origin.number, message);
    let second = conditions::put_guard_in(edge, origin.budgets, origin.location, tight, out, first);
    let third = names::put_sync(out, second, edge[layout::EDGE_KIND], message);
    words::put_words(out, third, b" }")
}

// The step out, behind another.
#[inline(never)]
fn put_step_out(
    edge: &[u8],
    origin: Origin,
    message: u8,
    tight: u8,
    out: &mut [u8],
    at: usize,
) -> usize
    requires { Writable origin.budgets edge.now × (origin.clocks ≤ 4) × (at + 1250 ≤ 2305843009213693952) }
    ensures { Put out.old at (step_told false origin edge.now message tight) result out.new × (result ≤ at + 1250) }
{
    let start = words::put_words(out, at, b",\n  ");
    let target = window::leads_to(edge, message, origin.budgets);
    let first = names::put_arrow_out(out, start, origin.number, message, target);
    heard::put_tail(edge, origin, tight, out, first)
}

// Those with the marks from one to another: all its steps in, or all its steps out.
fn put_steps<F: Fn(&[u8], Origin, u8, u8, &mut [u8], usize) -> usize>(
    edge: &[u8],
    origin: Origin,
    message: u8,
    first: u8,
    last: u8,
    put_step: F,
    out: &mut [u8],
    at: usize,
) -> usize
    ghost inwards: { Bool }
    requires marks { (first ≤ last) × (last ≤ 6) }
    requires room { at + (last - first) * 1250 ≤ 2305843009213693952 }
    requires takes { TakesSteps F.Fn put_step edge.now origin message }
    requires tells { TellsSteps F.Fn put_step edge.now origin message inwards }
    ensures told { Put out.old at (each (step_told inwards origin edge.now message) (from first (last - first))) result out.new }
    ensures near { result ≤ at + (last - first) * 1250 }
{
    let mut next = at;
    for tight in first..last {
        next = put_step(edge, origin, message, tight, out, next);
    }
    next
}

// The steps in of an outcome: those of a timeout only at the end.
fn put_entries(
    edge: &[u8],
    origin: Origin,
    message: u8,
    highs: u8,
    out: &mut [u8],
    at: usize,
) -> usize
    requires { Writable origin.budgets edge.now × (origin.clocks ≤ 4) × (highs ≡ length (Rattle.uppaal.specs.Export.highs (arc_at origin.budgets edge.now).clock_guards)) × (highs ≤ 4) × (at + 6250 ≤ 2305843009213693952) }
    ensures { Put out.old at (each step_text (map (step_in_with origin.number (arc_at origin.budgets edge.now) (message_of message)) (entries (uppers_from origin.location (arc_at origin.budgets edge.now)) (arc_at origin.budgets edge.now).edge.action (message_of message)))) result out.new × (result ≤ at + 6250) }
{
    if edge[layout::EDGE_KIND] < 2 || message != 255 {
        return put_step_in(edge, origin, message, 0, out, at);
    }
    put_steps(edge, origin, message, 1, highs + 2, put_step_in, out, at)
}

// The transitions of an outcome: its steps in, then its steps out.
pub fn put_transitions(edge: &[u8], origin: Origin, message: u8, out: &mut [u8], at: usize) -> usize
    requires { Writable origin.budgets edge.now × (origin.clocks ≤ 4) × (at + 12500 ≤ 2305843009213693952) }
    ensures { Put out.old at (outcome_told true origin edge.now message) result out.new × (result ≤ at + 12500) }
{
    let head = decoder::head_length(origin.budgets);
    let highs = uppaal_parts::highs_count(&edge[head..], edge[layout::EDGE_CLOCK_GUARDS]);
    let next = put_entries(edge, origin, message, highs, out, at);
    put_steps(edge, origin, message, 1, highs + 2, put_step_out, out, next)
}

// What is written for an outcome: its transitions, or its waiting location.
fn put_outcome(
    edge: &[u8],
    origin: Origin,
    steps: bool,
    message: u8,
    out: &mut [u8],
    at: usize,
) -> usize
    requires { Writable origin.budgets edge.now × (origin.clocks ≤ 4) × (at + 12500 ≤ 2305843009213693952) }
    ensures { Put out.old at (outcome_told steps origin edge.now message) result out.new × (result ≤ at + 12500) }
{
    if steps {
        return put_transitions(edge, origin, message, out, at);
    }
    let first = words::put_words(out, at, b",\n  ");
    names::put_waiting(
        edge,
        origin.budgets,
        origin.number,
        origin.location,
        message,
        out,
        first,
    )
}

// What is written for n messages; `pairs` begins at the first pair.
fn put_messages(
    edge: &[u8],
    origin: Origin,
    steps: bool,
    pairs: &[u8],
    count: u8,
    out: &mut [u8],
    at: usize,
) -> usize
    requires { Writable origin.budgets edge.now × (origin.clocks ≤ 4) × (count * 2 ≤ length pairs.now) × (count ≤ 8) × (at + count * 12500 ≤ 2305843009213693952) }
    ensures { Put out.old at (all_told (λ q. outcome_told steps origin edge.now (pair_at q).channel) 2 count pairs.now) result out.new × (result ≤ at + count * 12500) }
{
    // Not by `put_each`: what it asks of a closure with captures does not close.
    let mut next = at;
    for k in 0..usize::from(count) {
        let pair = decoder::pair_at(&pairs[k * layout::PAIR_WIDTH..]);
        next = put_outcome(edge, origin, steps, pair.channel, out, next);
    }
    next
}

// The same: where several messages share their steps' texts, these are kept.
fn put_pairs(
    edge: &[u8],
    origin: Origin,
    steps: bool,
    pairs: &[u8],
    count: u8,
    out: &mut [u8],
    at: usize,
) -> usize
    requires { Writable origin.budgets edge.now × (origin.clocks ≤ 4) × (count * 2 ≤ length pairs.now) × (count ≤ 8) × (at + count * 12500 ≤ 2305843009213693952) }
    ensures { Put out.old at (all_told (λ q. outcome_told steps origin edge.now (pair_at q).channel) 2 count pairs.now) result out.new × (result ≤ at + count * 12500) }
{
    if steps && 2 <= count {
        return heard::put_messages(edge, origin, pairs, count, out, at);
    }
    put_messages(edge, origin, steps, pairs, count, out, at)
}

// What is written for the edge at the front: its transitions, or its waiting locations.
// `steps` says which: one walk over the outcomes, with two ends.
pub fn put_edge(edge: &[u8], origin: Origin, steps: bool, out: &mut [u8], at: usize) -> usize
    requires { Writable origin.budgets edge.now × (origin.clocks ≤ 4) × (at + 112500 ≤ 2305843009213693952) }
    ensures { Put out.old at (edge_text steps origin.location origin.clocks origin.number (arc_at origin.budgets edge.now)) result out.new × (result ≤ at + 112500) }
{
    let items = decoder::items_place(edge, origin.budgets);
    let action = decoder::action_at(edge, origin.budgets);
    match action {
        Action::Internal => put_outcome(edge, origin, steps, 255, out, at),
        Action::Send(channel) => put_outcome(edge, origin, steps, channel, out, at),
        Action::Receive => {
            let next = put_pairs(
                edge,
                origin,
                steps,
                &edge[items..],
                edge[layout::EDGE_ITEMS],
                out,
                at,
            );
            put_outcome(edge, origin, steps, 255, out, next)
        }
    }
}
