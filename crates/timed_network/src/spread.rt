// Document 02, wish 6: the exported calls that take a spread of the nodes' starts, and the run of nodes that wake apart.
ghost use Rattle.std.specs.Prelude.{◌≡◌, ◌↔◌, ◌≤◌};
ghost use Rattle.model.specs.declared.Verdict.TheVariants.{Accepted};
ghost use Rattle.model.specs.Calls.{check_call_at, check_call, run_call_at, LargestSpread, number_of, concerned_of, Demand3ApartOf};
ghost use Rattle.model.specs.Acceptance.{AcceptsAt};
ghost use Rattle.model.specs.Observations.{ObservationsReadAt};
ghost use Rattle.model.specs.Finishes.{FinishesApartOf};
ghost use Rattle.model.specs.Meetings.{meetings_call_at};
ghost use Rattle.timed_network.specs.Numbers.{NumbersOf};
ghost use Rattle.timed_network.specs.Listeners.{FaultsTold};

use crate::{
    MeetingsNumbers, RunNumbers, VerdictNumbers, early, meetings_numbers, run_numbers,
    verdict_numbers,
};

// The answer of the call for the largest spread: the verdict without a spread as two numbers, and the spread, 0 after a refusal. C has it as it stands.
#[repr(C)]
#[derive(Clone, Copy)]
pub struct SpreadNumbers {
    pub number: u8,
    pub component: u8,
    pub spread: u32,
}

// Whether the table is accepted at a spread: whatever offsets up to the spread its nodes have. The header is tried first, as `timed_network_check`
// does it.
#[unsafe(no_mangle)]
pub extern "C" fn timed_network_check_spread(table: &[u8], spread: u32) -> VerdictNumbers
    ensures { (result.number ≡ number_of (check_call_at spread table.now)) × (result.component ≡ concerned_of (check_call_at spread table.now)) × ((check_call_at spread table.now ≡ Accepted) ↔ (spread ≤ 1000) × AcceptsAt spread table.now) × FaultsTold spread table.now (check_call_at spread table.now) }
{
    if let Err(fault) = calls::spread::check_header_spread(table, spread) {
        return VerdictNumbers {
            number: u8::from(fault),
            component: 255,
        };
    }
    let verdict = calls::spread::check_spread(&table[0..], spread);
    verdict_numbers(verdict)
}

// The largest spread at which the table is accepted: it is accepted exactly at the spreads up to it.
#[unsafe(no_mangle)]
pub extern "C" fn timed_network_largest_spread(table: &[u8]) -> SpreadNumbers
    ensures { (result.number ≡ number_of (check_call table.now)) × (result.component ≡ concerned_of (check_call table.now)) × (check_call table.now ≡ Accepted → LargestSpread table.now result.spread) × ((check_call table.now ≡ Accepted → ⊥) → result.spread ≡ 0) }
{
    if let Err(fault) = table::header(table) {
        return SpreadNumbers {
            number: u8::from(fault),
            component: 255,
            spread: 0,
        };
    }
    let largest = calls::spread::largest_spread(&table[0..]);
    let verdict = largest.verdict;
    let answer = verdict_numbers(verdict);
    SpreadNumbers {
        number: answer.number,
        component: answer.component,
        spread: largest.spread,
    }
}

// The verdict on the table at a spread, and which windows are too close where checks 10 to 12 refuse it.
#[unsafe(no_mangle)]
pub extern "C" fn timed_network_meetings_spread(
    table: &[u8],
    spread: u32,
    list: &mut [u32],
) -> MeetingsNumbers
    ensures { (result.number ≡ number_of (meetings_call_at spread table.now list.old).verdict) × (result.component ≡ concerned_of (meetings_call_at spread table.now list.old).verdict) × (result.refusal ≡ number_of (meetings_call_at spread table.now list.old).table) × (result.concerned ≡ concerned_of (meetings_call_at spread table.now list.old).table) × (result.size ≡ (meetings_call_at spread table.now list.old).size) × (list.new ≡ (meetings_call_at spread table.now list.old).lent) }
{
    if let Err(fault) = table::header(table) {
        return early::header_meetings(u8::from(fault));
    }
    let listed = meetings::meetings_spread(&table[0..], spread, list);
    meetings_numbers(listed)
}

// Runs the programs of a table accepted at a spread under a list of choices, each node with an offset within the spread; 36 bytes an
// observation, its tick by the node's own clock.
#[unsafe(no_mangle)]
pub extern "C" fn timed_network_run_apart(
    table: &[u8],
    choices: &[u8],
    spread: u32,
    offsets: &[u32],
    observations: &mut [u8],
) -> RunNumbers
    ensures { NumbersOf (run_call_at spread table.now offsets.now choices.now observations.old) result observations.new × Demand3ApartOf spread table.now offsets.now choices.now × ObservationsReadAt spread table.now offsets.now choices.now observations.old × FinishesApartOf spread table.now offsets.now choices.now }
{
    if let Err(fault) = table::header(table) {
        return early::header_run(u8::from(fault));
    }
    let ran = calls::apart::run_apart(&table[0..], choices, spread, offsets, observations);
    run_numbers(ran)
}
