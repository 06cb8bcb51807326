// Simulated runs of a table's programs with drawn work times (document 02, wish 10). Here the turns of one run.
#![tactic(auto)]

pub mod early;
pub mod idle;
pub mod runs;

ghost use Rattle.std.specs.Prelude.{◌≡◌, true, false, List, ℕ, ◌+◌, ◌≤◌, ◌<◌, ℤ, length, get_or, set};
ghost use Rattle.std.specs.Option.{is_some, unwrap_or};
ghost use Rattle.simulator.specs.declared.Course.TheVariants.{GoesOn, Over};
ghost use Rattle.generator.specs.Xorshift.{next_of};
ghost use Rattle.machine.specs.Chosen.{op_of, Inside};
ghost use Rattle.simulation.specs.Simulated.{work_ticks, Trying};
ghost use Rattle.simulator.specs.Tries.{Holds, Somewhere, Attempted, Turned, Few, waits_by};

use generator::Generator;
use model::op;

// Whether a simulated run goes on, or is over, and then which node is late, if one is.
#[derive(Clone, Copy)]
pub enum Course {
    GoesOn,
    Over(Option<u8>),
}

// A simulated run after a turn, or after many at once: its course, its tick, whose turn it is, whether one has moved since turn 0, the generator;
// how many turns they were.
#[derive(Clone, Copy)]
pub struct Turn {
    pub course: Course,
    pub tick: u64,
    pub turn: usize,
    pub moved: bool,
    pub state: u32,
    pub turns: u64,
}

// The ticks of work of a draw.
fn work_ticks(lo: u32, hi: u32, draw: u32) -> u64
    requires { (lo ≤ hi) × (hi ≤ 60000) }
    ensures { (result ≡ work_ticks (record { lo = lo; hi = hi }) draw) × (result ≤ 60000) }
{
    (lo + draw % (hi - lo + 1)) as u64
}

// The op at which node c stands.
pub fn op_of(program: &[u8], words: &[u64], c: usize) -> u8
    requires { (256 ≤ length words.now) × (c < 8) × Inside program.now words.now c }
    ensures { (values : List ℤ) → result ≡ op_of program.now words.now values c }
{
    let base = registers::word(words, c, registers::PART_START) as usize;
    let end = base + registers::word(words, c, registers::PART_LENGTH) as usize;
    let pc = registers::word(words, c, registers::PLACE) as usize;
    node::op_at(&program[base..end], pc)
}

// Whether a node that stands at this op waits for its work.
fn waits_at(op: u8, tick: u64, until: u64) -> bool
    ensures { result ≡ waits_by op tick until }
{
    if op < op::DONE {
        return false;
    }
    if op::SEND < op {
        return false;
    }
    tick < until
}

// Draws the ticks of node c's work, which begins at that tick. The generator afterwards.
fn draw_work(until: &mut [u64], c: usize, tick: u64, lo: u32, hi: u32, state: u32) -> u32
    requires { (8 ≤ length until.old) × (c < 8) × (lo ≤ hi) × (hi ≤ 60000) × (tick ≤ 1000000000000) }
    ensures { (result ≡ next_of state) × (until.new ≡ set until.old c (tick + work_ticks (record { lo = lo; hi = hi }) (next_of state))) }
{
    let drawn = Generator::seeded(state).next();
    until[c] = tick + work_ticks(lo, hi, drawn.state);
    drawn.state
}

// The turn of node c: it finishes its statement, if it may and does not wait for its work. A sleep before a send or an internal edge draws.
// The generator afterwards, if it moved.
pub fn attempt(
    program: &[u8],
    rows: &[u32],
    passages: usize,
    count: usize,
    words: &mut [u64],
    values: &mut [i16],
    until: &mut [u64],
    c: usize,
    tick: u64,
    lo: u32,
    hi: u32,
    state: u32,
) -> Option<u32>
    requires { Somewhere program.now rows.now passages count tick words.old values.old × (c < count) × (8 ≤ length until.old) × (lo ≤ hi) × (hi ≤ 60000) × (tick ≤ 1000000000000) }
    ensures { (H : ℕ) → Attempted program.now rows.now passages H count tick c lo hi state words.old values.old until.old (is_some result) (unwrap_or result state) words.new values.new until.new }
{
    let op = op_of(program, words, c);
    if waits_at(op, tick, until[c]) {
        return None;
    }
    let allowed = machine::move_node(program, rows, passages, count, words, values, tick, c, op);
    if !allowed {
        return None;
    }
    if op != op::SLEEP {
        return Some(state);
    }
    if op_of(program, words, c) == op::LISTEN {
        return Some(state);
    }
    Some(draw_work(until, c, tick, lo, hi, state))
}

// A node's turn.
fn node_turn(
    program: &[u8],
    rows: &[u32],
    passages: usize,
    count: usize,
    words: &mut [u64],
    values: &mut [i16],
    until: &mut [u64],
    c: usize,
    tick: u64,
    lo: u32,
    hi: u32,
    moved: bool,
    state: u32,
) -> Turn
    requires { Somewhere program.now rows.now passages count tick words.old values.old × (c < count) × (8 ≤ length until.old) × (lo ≤ hi) × (hi ≤ 60000) × (tick ≤ 1000000000000) }
    ensures { ((H : ℕ) (y : Trying) → Holds program.now rows.now passages count tick c state words.old values.old until.old y → y.moved ≡ moved → Turned program.now rows.now passages H count lo hi words.old y result words.new values.new until.new) × (result.turns ≡ 1) × (result.tick ≤ tick + 1) }
{
    let next = c + 1;
    if let Some(drawn) = attempt(
        program, rows, passages, count, words, values, until, c, tick, lo, hi, state,
    ) {
        return Turn {
            course: Course::GoesOn,
            tick,
            turn: c,
            moved: true,
            state: drawn,
            turns: 1,
        };
    }
    Turn {
        course: Course::GoesOn,
        tick,
        turn: next,
        moved,
        state,
        turns: 1,
    }
}

// The run is over.
fn over_at(late: Option<u8>, tick: u64, turn: usize, state: u32) -> Turn
    ensures { result ≡ record { course = Over late; tick = tick; turn = turn; moved = false; state = state; turns = 1 } }
{
    Turn {
        course: Course::Over(late),
        tick,
        turn,
        moved: false,
        state,
        turns: 1,
    }
}

// A round begins.
fn anew_at(tick: u64, state: u32) -> Turn
    ensures { result ≡ record { course = GoesOn; tick = tick; turn = 0; moved = false; state = state; turns = 1 } }
{
    Turn {
        course: Course::GoesOn,
        tick,
        turn: 0,
        moved: false,
        state,
        turns: 1,
    }
}

// The tick passes, after a round in which nobody moved.
pub fn tick_turn(
    words: &[u64],
    count: usize,
    horizon: u64,
    tick: u64,
    turn: usize,
    state: u32,
) -> Turn
    requires { (256 ≤ length words.now) × (count ≤ 8) × (tick ≤ 1000000000000) }
    ensures { ((program rows : List ℕ) (n lo hi : ℕ) (values : List ℤ) (until : List ℕ) (y : Trying) → Holds program rows n count tick turn state words.now values until y → count ≤ turn → y.moved ≡ false → Turned program rows n horizon count lo hi words.now y result words.now values until) × (result.turns ≡ 1) × (result.tick ≤ tick + 1) }
{
    if run::some_due(words, count, tick) {
        return over_at(None, tick, turn, state);
    }
    if let Some(c) = run::first_late(words, count, tick + 1) {
        return over_at(Some(c as u8), tick, turn, state);
    }
    if tick + 1 == horizon {
        return over_at(None, tick, turn, state);
    }
    anew_at(tick + 1, state)
}

// One turn of a simulated run, of which so many are left: of the node whose turn it is; where all have had theirs, the round begins anew if one
// moved, else the tick passes, and with it those up to the next at which a node may move.
fn one_turn(
    program: &[u8],
    rows: &[u32],
    passages: usize,
    count: usize,
    horizon: u64,
    words: &mut [u64],
    values: &mut [i16],
    until: &mut [u64],
    lo: u32,
    hi: u32,
    tick: u64,
    turn: usize,
    moved: bool,
    state: u32,
    left: u64,
) -> Turn
    requires { Somewhere program.now rows.now passages count tick words.old values.old × (8 ≤ length until.old) × (lo ≤ hi) × (hi ≤ 60000) × (tick ≤ 1000000000000) × (horizon ≤ 4294967295) × (1 ≤ left) }
    ensures { ((y : Trying) → Holds program.now rows.now passages count tick turn state words.old values.old until.old y → y.moved ≡ moved → Turned program.now rows.now passages horizon count lo hi words.old y result words.new values.new until.new) × Few tick left result }
{
    if turn < count {
        return node_turn(
            program, rows, passages, count, words, values, until, turn, tick, lo, hi, moved, state,
        );
    }
    if moved {
        return anew_at(tick, state);
    }
    idle::rest_turn(
        program, words, until, count, horizon, tick, turn, state, left,
    )
}

// The turns of the nodes that sleep or listen until later, from the one whose turn it is on, and then one turn more.
pub fn take_turn(
    program: &[u8],
    rows: &[u32],
    passages: usize,
    count: usize,
    horizon: u64,
    words: &mut [u64],
    values: &mut [i16],
    until: &mut [u64],
    lo: u32,
    hi: u32,
    tick: u64,
    turn: usize,
    moved: bool,
    state: u32,
    left: u64,
) -> Turn
    requires { Somewhere program.now rows.now passages count tick words.old values.old × (8 ≤ length until.old) × (lo ≤ hi) × (hi ≤ 60000) × (tick ≤ 1000000000000) × (horizon ≤ 4294967295) × (1 ≤ left) }
    ensures { ((y : Trying) → Holds program.now rows.now passages count tick turn state words.old values.old until.old y → y.moved ≡ moved → Turned program.now rows.now passages horizon count lo hi words.old y result words.new values.new until.new) × Few tick left result }
{
    let first = early::first_ready(words, count, tick, turn, left);
    let passed = (first - turn) as u64;
    let mut next = one_turn(
        program,
        rows,
        passages,
        count,
        horizon,
        words,
        values,
        until,
        lo,
        hi,
        tick,
        first,
        moved,
        state,
        left - passed,
    );
    next.turns += passed;
    next
}
