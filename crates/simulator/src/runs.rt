// One simulated run, from the nodes at their programs' start.
ghost use Rattle.std.specs.Prelude.{◌≡◌, ℕ, ◌≤◌, ◌<◌, length, get_or};
ghost use Rattle.model.specs.Run.{start_run};
ghost use Rattle.machine.specs.Running.{setting_in, Running};
ghost use Rattle.simulator.specs.Answers.{TriedAs};

use crate::Course;

// How a simulated run ended: the node that was late, if one was, and the generator afterwards.
#[derive(Clone, Copy)]
pub struct Tried {
    pub late: Option<u8>,
    pub state: u32,
}

// One simulated run, from the nodes at their programs' start.
pub fn one_run(
    program: &[u8],
    rows: &[u32],
    passages: usize,
    count: usize,
    horizon: u64,
    words: &mut [u64],
    values: &mut [i16],
    until: &mut [u64],
    lo: u32,
    hi: u32,
    seed: u32,
) -> Tried
    requires { Running program.now rows.now passages words.old values.old count (start_run (setting_in program.now horizon rows.now passages words.old count)) × ((i : ℕ) → i < count → get_or until.old i 0 ≡ 0) × (8 ≤ length until.old) × (lo ≤ hi) × (hi ≤ 60000) × (horizon ≤ 4294967295) }
    ensures { TriedAs (setting_in program.now horizon rows.now passages words.old count) (record { lo = lo; hi = hi }) seed result.late result.state }
{
    let mut tick: u64 = 0;
    let mut turn: usize = 0;
    let mut moved = false;
    let mut state = seed;
    let mut left: u64 = 1000000000000;
    // A while: how many turns pass at once is told by the turn that is taken.
    while 0 < left {
        let next = crate::take_turn(
            program, rows, passages, count, horizon, words, values, until, lo, hi, tick, turn,
            moved, state, left,
        );
        match next.course {
            Course::Over(late) => {
                return Tried {
                    late,
                    state: next.state,
                };
            }
            Course::GoesOn => {
                tick = next.tick;
                turn = next.turn;
                moved = next.moved;
                state = next.state;
                left -= next.turns;
            }
        }
    }
    Tried { late: None, state }
}
