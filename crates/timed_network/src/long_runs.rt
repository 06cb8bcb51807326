// Document 02, wish 14: the run to a horizon, as numbers.
ghost use Rattle.model.specs.Calls.{RunCall};
ghost use Rattle.std.specs.Prelude.{List, ℕ};
ghost use Rattle.recurrence.specs.Recurrence.{run_to_call};
ghost use Rattle.later_runs.specs.RunTo.{RunToTrue, RunToRefuses};
ghost use Rattle.long_run.specs.Ran.{AnswersTo};
ghost use Rattle.timed_network.specs.Numbers.{RunToNumbersOf};

use crate::{end_numbers, verdict_numbers};
use long_run::LongRan;

// The answer of a run to a horizon as numbers. C has it as it stands.
#[repr(C)]
#[derive(Clone, Copy)]
pub struct RunToNumbers {
    pub number: u8,
    pub component: u8,
    pub end: u8,
    pub node: u8,
    pub tick: u32,
    pub used: u64,
    pub size: u64,
}

fn run_to_numbers(ran: LongRan) -> RunToNumbers
    ensures { (call : RunCall) (later : List ℕ) → AnswersTo call ran later → RunToNumbersOf call result later }
{
    let verdict = ran.verdict;
    let answer = verdict_numbers(verdict);
    let end = ran.end;
    let ended = end_numbers(end);
    RunToNumbers {
        number: answer.number,
        component: answer.component,
        end: ended.number,
        node: ended.node,
        tick: ran.tick,
        used: ran.used,
        size: ran.size,
    }
}

// Runs an accepted table's programs under a list of choices to a horizon; 36 bytes an observation. Demand 3 holds of the run to that horizon, and what
// was written, read back, is what it observed. Refused with 29 is a horizon of 0, or one above the table's own without a pair; with 13 too short a
// buffer for the passages to that horizon; and nothing else of an accepted table.
#[unsafe(no_mangle)]
pub extern "C" fn timed_network_run_to(
    table: &[u8],
    choices: &[u8],
    horizon: u32,
    observations: &mut [u8],
) -> RunToNumbers
    ensures { RunToNumbersOf (run_to_call table.now horizon choices.now observations.old) result observations.new × RunToTrue table.now horizon choices.now observations.old × RunToRefuses table.now horizon choices.now observations.old }
{
    let ran = long_run::run_to(table, choices, horizon, observations);
    run_to_numbers(ran)
}
