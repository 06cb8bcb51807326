// Writes blocks of statements: that of a location, and that of an edge (document 01, 'The program').
#![tactic(auto)]

ghost use Rattle.std.specs.Prelude.{◌≡◌, cond, [], ◌∷◌, ◌++◌, map, ◌+◌, ◌*◌, ◌%◌, ◌≤◌, eqb, length};
ghost use Rattle.model.specs.Lists.{below};
ghost use Rattle.model.specs.Reader.{clock_guard_at, data_guard_at, update_at, pair_at};
ghost use Rattle.model.specs.Places.{arc_head_length, arc_length, budget_at, arc_at};
ghost use Rattle.model.specs.Program.{age, reset, take_edge, clock_tests, data_tests, budget_test, trial_of, trials, update_of, work_of, ageing, edge_block_of, quad, pair_quad, block_bytes};
ghost use Rattle.blocks.specs.Put.{Room, Put};
ghost use Rattle.blocks.specs.Made.{width_of, made_of, all_made};
ghost use Rattle.blocks.specs.FrontEdges.{arcs_at, ArcsFit};

use model::{Action, Location, layout, op};

// The parts of an edge from which statements are made.
#[derive(Clone, Copy)]
pub enum Kind {
    ClockGuards,
    DataGuards,
    Updates,
    Pairs,
}

// Bytes from a place on; the place behind them is answered.
pub fn put_bytes<const N: usize>(out: &mut [u8], at: usize, bytes: [u8; N]) -> usize
    requires { Room out.old at bytes }
    ensures { Put out.old at bytes.entry result out.new }
{
    let end = at + N;
    out[at..end].copy_from_slice(&bytes);
    end
}

// A statement: op, a, k.
fn put_quad(out: &mut [u8], at: usize, op: u8, a: u8, k: u16) -> usize
    requires { at + 4 ≤ length out.old }
    ensures { Put out.old at (quad op a k) result out.new }
{
    put_bytes(out, at, [op, a, (k / 256) as u8, (k % 256) as u8])
}

// The tests of a clock bound.
fn put_clock_test(bytes: &[u8], out: &mut [u8], at: usize) -> usize
    requires { (5 ≤ length bytes.now) × Room out.old at (block_bytes (clock_tests (clock_guard_at bytes.now ∷ []))) }
    ensures { Put out.old at (block_bytes (clock_tests (clock_guard_at bytes.now ∷ []))) result out.new }
{
    let clock = bytes[layout::GUARD_SUBJECT];
    let low = parts::word_at(bytes, layout::GUARD_LOW);
    let high = parts::word_at(bytes, layout::GUARD_HIGH);
    let next = put_quad(out, at, op::LOW, clock, low);
    if high == 65535 {
        return next;
    }
    put_quad(out, next, op::HIGH, clock, high)
}

// The tests of a data bound.
fn put_data_test(bytes: &[u8], out: &mut [u8], at: usize) -> usize
    requires { (5 ≤ length bytes.now) × Room out.old at (block_bytes (data_tests (data_guard_at bytes.now ∷ []))) }
    ensures { Put out.old at (block_bytes (data_tests (data_guard_at bytes.now ∷ []))) result out.new }
{
    let variable = bytes[layout::GUARD_SUBJECT];
    let next = put_quad(
        out,
        at,
        op::DATA_LOW,
        variable,
        parts::word_at(bytes, layout::GUARD_LOW),
    );
    put_quad(
        out,
        next,
        op::DATA_HIGH,
        variable,
        parts::word_at(bytes, layout::GUARD_HIGH),
    )
}

fn put_update(bytes: &[u8], out: &mut [u8], at: usize) -> usize
    requires { (4 ≤ length bytes.now) × Room out.old at (block_bytes (update_of (update_at bytes.now) ∷ [])) }
    ensures { Put out.old at (block_bytes (update_of (update_at bytes.now) ∷ [])) result out.new }
{
    let number = parts::word_at(bytes, layout::UPDATE_NUMBER);
    if bytes[layout::UPDATE_ADDS] == 1 {
        return put_quad(out, at, op::ADD, bytes[layout::UPDATE_VARIABLE], number);
    }
    put_quad(out, at, op::SET, bytes[layout::UPDATE_VARIABLE], number)
}

fn put_pair(bytes: &[u8], out: &mut [u8], at: usize) -> usize
    requires { (2 ≤ length bytes.now) × Room out.old at (pair_quad (pair_at bytes.now)) }
    ensures { Put out.old at (pair_quad (pair_at bytes.now)) result out.new }
{
    put_quad(
        out,
        at,
        op::PAIR,
        bytes[layout::PAIR_CHANNEL],
        parts::wide16(bytes[layout::PAIR_LOCATION]),
    )
}

fn width(kind: Kind) -> usize
    ensures { result ≡ width_of kind }
{
    match kind {
        Kind::ClockGuards => layout::GUARD_WIDTH,
        Kind::DataGuards => layout::GUARD_WIDTH,
        Kind::Updates => layout::UPDATE_WIDTH,
        Kind::Pairs => layout::PAIR_WIDTH,
    }
}

fn put_part(kind: Kind, bytes: &[u8], out: &mut [u8], at: usize) -> usize
    requires { (width_of kind ≤ length bytes.now) × Room out.old at (made_of kind bytes.now) }
    ensures { Put out.old at (made_of kind bytes.now) result out.new }
{
    match kind {
        Kind::ClockGuards => put_clock_test(bytes, out, at),
        Kind::DataGuards => put_data_test(bytes, out, at),
        Kind::Updates => put_update(bytes, out, at),
        Kind::Pairs => put_pair(bytes, out, at),
    }
}

// What is made of n parts of one kind.
fn put_parts(kind: Kind, bytes: &[u8], count: u8, out: &mut [u8], at: usize) -> usize
    requires { (count * width_of kind ≤ length bytes.now) × Room out.old at (all_made kind count bytes.now) }
    ensures { Put out.old at (all_made kind count bytes.now) result out.new }
{
    let w = width(kind);
    let mut place: usize = 0;
    let mut next = at;
    for _ in 0..count {
        next = put_part(kind, &bytes[place..], out, next);
        place += w;
    }
    next
}

// The statement of a budget; nothing where edges have none.
fn put_budget(bytes: &[u8], budgets: bool, out: &mut [u8], at: usize) -> usize
    requires { (arc_head_length budgets ≤ length bytes.now) × Room out.old at (block_bytes (budget_test (budget_at budgets bytes.now))) }
    ensures { Put out.old at (block_bytes (budget_test (budget_at budgets bytes.now))) result out.new }
{
    if !budgets {
        return at;
    }
    put_quad(
        out,
        at,
        op::BUDGET,
        0,
        parts::word_at(bytes, layout::EDGE_BUDGET),
    )
}

// The trial of edge e, which stands at the front, in the block of a location with this invariant.
fn put_trial(
    bytes: &[u8],
    location: Location,
    number: u8,
    out: &mut [u8],
    at: usize,
    budgets: bool,
) -> usize
    requires { (7 ≤ length bytes.now) × (arc_length budgets bytes.now ≤ length bytes.now) × Room out.old at (block_bytes (trial_of location number (arc_at budgets bytes.now))) }
    ensures { Put out.old at (block_bytes (trial_of location number (arc_at budgets bytes.now))) result out.new }
{
    let head = decoder::head_length(budgets);
    let first = put_quad(out, at, op::TRIAL, 0, 0);
    let second = put_quad(out, first, op::HIGH, location.clock, location.bound);
    let third = put_parts(
        Kind::ClockGuards,
        &bytes[head..],
        bytes[layout::EDGE_CLOCK_GUARDS],
        out,
        second,
    );
    let datas = head + parts::wide(bytes[layout::EDGE_CLOCK_GUARDS]) * layout::GUARD_WIDTH;
    let fourth = put_parts(
        Kind::DataGuards,
        &bytes[datas..],
        bytes[layout::EDGE_DATA_GUARDS],
        out,
        third,
    );
    let fifth = put_budget(bytes, budgets, out, fourth);
    put_quad(out, fifth, op::KEEP, 0, parts::wide16(number))
}

// The same if the edge leaves from location `here`; else nothing.
fn put_trial_from(
    bytes: &[u8],
    here: u8,
    location: Location,
    number: u8,
    out: &mut [u8],
    at: usize,
    budgets: bool,
) -> usize
    requires { (7 ≤ length bytes.now) × (arc_length budgets bytes.now ≤ length bytes.now) × Room out.old at (block_bytes (trials location here number (arc_at budgets bytes.now ∷ []))) }
    ensures { Put out.old at (block_bytes (trials location here number (arc_at budgets bytes.now ∷ []))) result out.new }
{
    let edge = decoder::edge_at(bytes, budgets);
    if edge.source != here {
        return at;
    }
    put_trial(bytes, location, number, out, at, budgets)
}

// The block of a location: the trials of the edges from it, of n that stand at the front.
pub fn put_location_block(
    bytes: &[u8],
    count: u8,
    here: u8,
    location: Location,
    out: &mut [u8],
    at: usize,
    budgets: bool,
) -> usize
    requires { ArcsFit budgets count bytes.now × Room out.old at (block_bytes (trials location here 0 (arcs_at budgets count bytes.now) ++ (take_edge ∷ []))) }
    ensures { Put out.old at (block_bytes (trials location here 0 (arcs_at budgets count bytes.now) ++ (take_edge ∷ []))) result out.new }
{
    let mut place: usize = 0;
    let mut next = at;
    for e in 0..count {
        next = put_trial_from(&bytes[place..], here, location, e, out, next, budgets);
        place += decoder::arc_length(&bytes[place..], budgets);
    }
    put_quad(out, next, op::TAKE, 0, 0)
}

// The work of the edge at the front.
fn put_work(bytes: &[u8], out: &mut [u8], at: usize, budgets: bool) -> usize
    requires { (7 ≤ length bytes.now) × (arc_length budgets bytes.now ≤ length bytes.now) × Room out.old at (block_bytes (work_of (arc_at budgets bytes.now) (arc_at budgets bytes.now).edge.action)) }
    ensures { Put out.old at (block_bytes (work_of (arc_at budgets bytes.now) (arc_at budgets bytes.now).edge.action)) result out.new }
{
    let items = decoder::items_place(bytes, budgets);
    let action = decoder::action_at(bytes, budgets);
    match action {
        Action::Internal => {
            let next = put_parts(
                Kind::Updates,
                &bytes[items..],
                bytes[layout::EDGE_ITEMS],
                out,
                at,
            );
            put_quad(out, next, op::DONE, 0, 0)
        }
        Action::Send(channel) => put_quad(out, at, op::SEND, channel, 0),
        Action::Receive => {
            let next = put_quad(out, at, op::LISTEN, bytes[layout::EDGE_ITEMS], 0);
            put_parts(
                Kind::Pairs,
                &bytes[items..],
                bytes[layout::EDGE_ITEMS],
                out,
                next,
            )
        }
    }
}

// Clock i: zero if the lowest bit is set, else age.
fn put_ageing(bits: u8, clock: u8, out: &mut [u8], at: usize) -> usize
    requires { at + 4 ≤ length out.old }
    ensures { Put out.old at (block_bytes (cond (eqb (bits % 2) 1) (reset clock) (age clock) ∷ [])) result out.new }
{
    if bits % 2 == 1 {
        return put_quad(out, at, op::ZERO, clock, 0);
    }
    put_quad(out, at, op::AGE, clock, 0)
}

// All clocks, by the reset mask.
fn put_clocks(mask: u8, clocks: u8, out: &mut [u8], at: usize) -> usize
    requires { Room out.old at (block_bytes (map (ageing mask) (below clocks))) }
    ensures { Put out.old at (block_bytes (map (ageing mask) (below clocks))) result out.new }
{
    let mut bits = mask;
    let mut next = at;
    for i in 0..clocks {
        next = put_ageing(bits, i, out, next);
        bits = bits / 2;
    }
    next
}

// The block of the edge at the front.
pub fn put_edge_block(bytes: &[u8], clocks: u8, out: &mut [u8], at: usize, budgets: bool) -> usize
    requires { (7 ≤ length bytes.now) × (arc_length budgets bytes.now ≤ length bytes.now) × Room out.old at (block_bytes (edge_block_of clocks (arc_at budgets bytes.now))) }
    ensures { Put out.old at (block_bytes (edge_block_of clocks (arc_at budgets bytes.now))) result out.new }
{
    let edge = decoder::edge_at(bytes, budgets);
    let first = put_quad(out, at, op::SLEEP, 0, 0);
    let second = put_work(bytes, out, first, budgets);
    let third = put_clocks(edge.mask, clocks, out, second);
    let fourth = put_quad(out, third, op::ENTER, 0, parts::wide16(edge.destination));
    put_quad(out, fourth, op::CHOOSE, 0, 0)
}
