// The trial of an edge: its bounds, and the candidate rule (document 01, 'The program', last paragraph).
ghost use Rattle.std.specs.Prelude.{◌≡◌, cond, ◌-◌, min};
ghost use Rattle.node.specs.After.{new_trial, raised_to, lowered_to, met_by, spans_by, kept_by};

use crate::{Kept, Trial, wide64};

// What is left of the bound after the clock, or 0.
pub fn left_of(bound: u16, clock: u64) -> u16
    ensures { result ≡ bound - clock }
{
    if clock < wide64(bound) {
        bound - (clock as u16)
    } else {
        0
    }
}

pub fn no_trial() -> Trial
    ensures { result ≡ new_trial }
{
    Trial {
        ready: 0,
        ended: false,
        end: 0,
        good: true,
    }
}

// Low raises the ready delay to the bound less the clock.
pub fn raised(trial: Trial, bound: u16, clock: u64) -> Trial
    ensures { result ≡ raised_to trial bound clock }
{
    Trial {
        ready: trial.ready.max(left_of(bound, clock)),
        ended: trial.ended,
        end: trial.end,
        good: trial.good,
    }
}

// The lower of the trial's end and another, or the other where it has none.
fn lowest(trial: Trial, left: u16) -> u16
    ensures { result ≡ cond trial.ended (min trial.end left) left }
{
    if trial.ended {
        trial.end.min(left)
    } else {
        left
    }
}

// High lowers the end to the bound less the clock; a clock beyond the bound fails the trial.
pub fn lowered(trial: Trial, bound: u16, clock: u64) -> Trial
    ensures { result ≡ lowered_to trial bound clock }
{
    let left = left_of(bound, clock);
    let good = parts::both(trial.good, clock <= wide64(bound));
    Trial {
        ready: trial.ready,
        ended: true,
        end: lowest(trial, left),
        good,
    }
}

pub fn met(trial: Trial, holds: bool) -> Trial
    ensures { result ≡ met_by trial holds }
{
    Trial {
        ready: trial.ready,
        ended: trial.ended,
        end: trial.end,
        good: parts::both(trial.good, holds),
    }
}

// Whether the window so far is as long as the budget; one whose end was not lowered yet is.
pub fn spans(trial: Trial, budget: u16) -> bool
    ensures { result ≡ spans_by trial budget }
{
    if !trial.ended {
        return true;
    }
    parts::word32(trial.ready) + parts::word32(budget) <= parts::word32(trial.end)
}

// Keep applies the candidate rule: the earlier ready delay, on a tie the edge kept before.
pub fn keeps(trial: Trial, edge: u8, kept: Kept) -> Kept
    ensures { result ≡ kept_by trial edge kept }
{
    if !trial.ended {
        return kept;
    }
    if !trial.good {
        return kept;
    }
    if trial.end <= trial.ready {
        return kept;
    }
    if parts::both(kept.some, kept.ready <= trial.ready) {
        return kept;
    }
    Kept {
        some: true,
        edge,
        ready: trial.ready,
        end: trial.end,
    }
}
