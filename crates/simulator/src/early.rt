// Nodes that sleep or listen until later: their turns pass without a look at their statements.
ghost use Rattle.std.specs.Prelude.{◌≡◌, true, ℕ, ◌≤◌, ◌<◌, length};
ghost use Rattle.simulator.specs.Tries.{EarlyAt, PassedTo};

// Whether node c sleeps or listens until another tick than this: the tick that is noted for it tells.
fn is_early(words: &[u64], c: usize, tick: u64) -> bool
    requires { (256 ≤ length words.now) × (c < 8) }
    ensures { result ≡ true → EarlyAt words.now c tick }
{
    let due = registers::word(words, c, registers::DUE);
    if due < stand::NEVER {
        return due != tick;
    }
    false
}

// The first turn, from this one on, that is not a node's that sleeps or listens until later; this one, where few turns are left.
pub fn first_ready(words: &[u64], count: usize, tick: u64, turn: usize, left: u64) -> usize
    requires { (256 ≤ length words.now) × (count ≤ 8) × (1 ≤ left) }
    ensures { PassedTo words.now count tick turn left result }
{
    if left <= 8 {
        return turn;
    }
    for c in turn..count {
        if !is_early(words, c, tick) {
            return c;
        }
    }
    turn.max(count)
}
