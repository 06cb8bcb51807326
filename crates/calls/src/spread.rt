// Document 02, wish 6: the check at a spread of the nodes' starts, and the largest spread at which a table is accepted.
ghost use Rattle.std.specs.Prelude.{◌≡◌, ◌↔◌, true, ◌+◌, ◌≤◌, ◌<◌, IfErr};
ghost use Rattle.model.specs.declared.Verdict.TheVariants.{Accepted, Refused};
ghost use Rattle.model.specs.Reader.{byte};
ghost use Rattle.model.specs.Places.{Valid, read_of};
ghost use Rattle.model.specs.Calls.{check_call_at, check_call, LargestSpread};
ghost use Rattle.model.specs.Acceptance.{AcceptsAt};
ghost use Rattle.table.specs.Directory.{starts_of, question_number};
ghost use Rattle.calls.specs.Spread.{ScheduleRows};

use model::{Verdict, layout};
use table::HeaderFault;

// The answer of `largest_spread`: the verdict without a spread, and the largest spread at which the table is accepted, 0 after a refusal.
#[derive(Clone, Copy)]
pub struct Spread {
    pub verdict: Verdict,
    pub spread: u32,
}

// Checks 7 to 12 at a spread that is not too wide, of a table that was read.
pub fn plan_verdict(table: &[u8], starts: [u16; 8], spread: u32) -> Verdict
    requires { Valid table.now × (starts ≡ starts_of table.now (byte table.now 3)) × (spread ≤ 1000) }
    ensures { result ≡ check_call_at spread table.now }
{
    let mut rows = [0u32; 9216];
    let r = schedule::plan_rows(table, starts, &mut rows, spread);
    r.verdict
}

// Checks 1 to 3 alone, which come before the question of the spread: the one that refuses the table. No more is read than the
// header.
pub fn check_header_spread(table: &[u8], spread: u32) -> Result<(), HeaderFault>
    ensures { IfErr result (λ fault. check_call_at spread table.now ≡ Refused (question_number fault) 255) × ((check_call_at spread table.now ≡ Accepted) ↔ (spread ≤ 1000) × AcceptsAt spread table.now) }
{
    table::header(table)
}

// Whether the table is accepted at a spread; and what that means: the spread is not too wide, and demand 2's statement holds of its bytes
// whatever offsets up to the spread the nodes have.
pub fn check_spread(table: &[u8], spread: u32) -> Verdict
    ensures { (result ≡ check_call_at spread table.now) × ((check_call_at spread table.now ≡ Accepted) ↔ (spread ≤ 1000) × AcceptsAt spread table.now) }
{
    let read = table::read_at(table, spread);
    let verdict = read.verdict;
    match verdict {
        Verdict::Refused(number, component) => Verdict::Refused(number, component),
        Verdict::Accepted => {
            let starts = read.starts;
            plan_verdict(table, starts, spread)
        }
    }
}

// Whether the table is accepted at a spread that is not too wide, by the rows of its schedule.
fn is_accepted(table: &[u8], rows: &[u32], count: usize, horizon: u32, spread: u32) -> bool
    requires { Valid table.now × (check_call_at 0 table.now ≡ Accepted) × ScheduleRows table.now rows.now count × (horizon ≡ (read_of table.now).horizon) × (spread ≤ 1000) }
    ensures { (result ≡ true) ↔ (check_call_at spread table.now ≡ Accepted) }
{
    let verdict = checks::check_messages(table, rows, count, horizon, spread);
    match verdict {
        Verdict::Accepted => true,
        Verdict::Refused(_number, _component) => false,
    }
}

// A spread between the two: the guess, or the one behind it if it is the lower of them, or else the middle.
fn between(fits: u32, fails: u32, guess: u32) -> u32
    requires { fits + 1 < fails }
    ensures { (fits < result) × (result < fails) }
{
    if fits < guess {
        if guess < fails {
            return guess;
        }
    }
    if fits == guess {
        return fits + 1;
    }
    fits + (fails - fits) / 2
}

// The largest spread at which a table is accepted that is accepted without one: by bisection, since a table accepted at a spread is accepted at
// every smaller one. None is accepted above 1,000. The schedule is the same at each, so its rows are made once. The distances between windows tell
// which one it is: where they do, it is tried, and the one behind it, and that is all.
fn bisect(table: &[u8], rows: &[u32], count: usize) -> u32
    requires { Valid table.now × (check_call_at 0 table.now ≡ Accepted) × ScheduleRows table.now rows.now count }
    ensures { LargestSpread table.now result × (result ≤ 1000) }
{
    let horizon = parts::word32(parts::word_at(table, layout::TABLE_HORIZON));
    let guess = checks::distances::likely(table, rows, count, horizon);
    let mut fits: u32 = 0;
    let mut fails: u32 = 1001;
    // A while: the two bounds close in on each other, and how soon is told by what is accepted between.
    while fits + 1 < fails {
        let middle = between(fits, fails, guess);
        if is_accepted(table, rows, count, horizon, middle) {
            fits = middle;
        } else {
            fails = middle;
        }
    }
    fits
}

// The verdict and the largest spread of a table that was read; checks 7 to 12 may refuse it.
fn largest_read(table: &[u8], starts: [u16; 8]) -> Spread
    requires { Valid table.now × (starts ≡ starts_of table.now (byte table.now 3)) }
    ensures { (result.verdict ≡ check_call table.now) × (result.verdict ≡ Accepted → LargestSpread table.now result.spread) × ((result.verdict ≡ Accepted → ⊥) → result.spread ≡ 0) }
{
    let mut rows = [0u32; 9216];
    let made = schedule::plan_rows(table, starts, &mut rows, 0);
    let verdict = made.verdict;
    match verdict {
        Verdict::Refused(number, component) => Spread {
            verdict: Verdict::Refused(number, component),
            spread: 0,
        },
        Verdict::Accepted => Spread {
            verdict: Verdict::Accepted,
            spread: bisect(table, &rows, made.count),
        },
    }
}

// The largest spread at which the table is accepted: it is accepted exactly at the spreads up to it.
pub fn largest_spread(table: &[u8]) -> Spread
    ensures { (result.verdict ≡ check_call table.now) × (result.verdict ≡ Accepted → LargestSpread table.now result.spread) × ((result.verdict ≡ Accepted → ⊥) → result.spread ≡ 0) }
{
    let read = table::read(table);
    let verdict = read.verdict;
    match verdict {
        Verdict::Refused(number, component) => Spread {
            verdict: Verdict::Refused(number, component),
            spread: 0,
        },
        Verdict::Accepted => {
            let starts = read.starts;
            largest_read(table, starts)
        }
    }
}
