// Ticks in a row: those at which no node moves pass at once.
ghost use Rattle.std.specs.Prelude.{◌≡◌, false, List, ℕ, ◌-◌, ◌≤◌, ◌<◌, ℤ, length};
ghost use Rattle.simulation.specs.Simulated.{Trying};
ghost use Rattle.simulator.specs.Tries.{Holds, Turned, Few, Placed, StillTo, Idle};

use crate::Turn;
use model::op;

// The tick before that one; 0 before 0.
fn before(tick: u64) -> u64
    ensures { result ≡ tick - 1 }
{
    if tick == 0 { 0 } else { tick - 1 }
}

// A tick up to which node c does not move; 0 where it may at any. That of a sleep or a listen is noted.
fn still_until(program: &[u8], words: &[u64], until: &[u64], c: usize) -> u64
    requires { (256 ≤ length words.now) × (8 ≤ length until.now) × (c < 8) × Placed program.now words.now c }
    ensures { StillTo program.now words.now until.now c result }
{
    let due = registers::word(words, c, registers::DUE);
    if due < stand::NEVER {
        return before(due);
    }
    let op = crate::op_of(program, words, c);
    if op == op::DONE || op == op::SEND {
        return before(until[c]);
    }
    if op != op::TAKE {
        return 0;
    }
    if registers::word(words, c, registers::KEPT) == 1 {
        0
    } else {
        stand::NEVER
    }
}

// A tick before the horizon up to which no node moves, none is due and none is late; 0 where one may move at any.
fn idle_until(program: &[u8], words: &[u64], until: &[u64], count: usize, horizon: u64) -> u64
    requires { (256 ≤ length words.now) × (8 ≤ length until.now) × (count ≤ 8) × ((c : ℕ) → c < count → Placed program.now words.now c) }
    ensures { Idle program.now words.now until.now count horizon result }
{
    let mut idle = run::calm_until(words, count, horizon);
    for c in 0..count {
        idle = idle.min(still_until(program, words, until, c));
    }
    idle
}

// After a round in which nobody moved: the ticks up to the last at which nobody moves pass at once, and then one tick more.
pub fn rest_turn(
    program: &[u8],
    words: &[u64],
    until: &[u64],
    count: usize,
    horizon: u64,
    tick: u64,
    turn: usize,
    state: u32,
    left: u64,
) -> Turn
    requires { (256 ≤ length words.now) × (8 ≤ length until.now) × (count ≤ 8) × ((c : ℕ) → c < count → Placed program.now words.now c) × (tick ≤ 1000000000000) × (horizon ≤ 4294967295) × (1 ≤ left) }
    ensures { ((rows : List ℕ) (n lo hi : ℕ) (values : List ℤ) (y : Trying) → Holds program.now rows n count tick turn state words.now values until.now y → count ≤ turn → y.moved ≡ false → Turned program.now rows n horizon count lo hi words.now y result words.now values until.now) × Few tick left result }
{
    let idle = idle_until(program, words, until, count, horizon);
    if idle <= tick {
        return crate::tick_turn(words, count, horizon, tick, turn, state);
    }
    let turns = (idle - tick) * (count as u64 + 1);
    if left <= turns {
        return crate::tick_turn(words, count, horizon, tick, turn, state);
    }
    let mut next = crate::tick_turn(words, count, horizon, idle, count, state);
    next.turns = turns + 1;
    next
}
