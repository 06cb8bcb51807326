// What calls answer of a table that the header refuses, with 1 to 3. Each of them tries the header first, in registers, as `timed_network_check` does it: the
// rows of a schedule, nine pages of the stack, are taken behind that (`boundary/stack.c` measures what such a refusal takes).
ghost use Rattle.std.specs.Prelude.{◌≡◌, List, ℕ};
ghost use Rattle.model.specs.Calls.{not_run};
ghost use Rattle.timed_network.specs.Numbers.{NumbersOf};

use crate::{CallNumbers, MeetingsNumbers, RunNumbers};

// The answer of a call that writes.
pub fn header_numbers(number: u8) -> CallNumbers
    ensures { (result.number ≡ number) × (result.component ≡ 255) × (result.size ≡ 0) }
{
    CallNumbers {
        number,
        component: 255,
        size: 0,
    }
}

// The same of the calls for meetings, which are accepted themselves.
pub fn header_meetings(refusal: u8) -> MeetingsNumbers
    ensures { (result.number ≡ 0) × (result.component ≡ 255) × (result.refusal ≡ refusal) × (result.concerned ≡ 255) × (result.size ≡ 0) }
{
    MeetingsNumbers {
        number: 0,
        component: 255,
        refusal,
        concerned: 255,
        size: 0,
    }
}

// The same of a run.
pub fn header_run(number: u8) -> RunNumbers
    ensures { (lent : List ℕ) → NumbersOf (not_run number 255 lent) result lent }
{
    RunNumbers {
        number,
        component: 255,
        end: 0,
        node: 255,
        tick: 0,
        used: 0,
        size: 0,
    }
}
