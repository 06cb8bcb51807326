// Document 02, wish 14: the first pair of ticks at which all components enter alike, as numbers.
ghost use Rattle.recurrence.specs.Recurrence.{recurrence_call, PairTrue};
ghost use Rattle.timed_network.specs.Numbers.{PeriodNumbersOf};

use crate::verdict_numbers;
use recurrence::Pair;

// The answer of the call for the pair: the verdict as two numbers, whether there is a pair, and its two ticks, 0 and 0 where there is none.
// C has it as it stands.
#[repr(C)]
#[derive(Clone, Copy)]
pub struct PeriodNumbers {
    pub number: u8,
    pub component: u8,
    pub found: bool,
    pub from: u32,
    pub to: u32,
}

// The first such pair, or none. Where there is one, the table is accepted to every later horizon, and its runs hold to the network's path.
#[unsafe(no_mangle)]
pub extern "C" fn timed_network_period(table: &[u8]) -> PeriodNumbers
    ensures { PeriodNumbersOf (recurrence_call table.now) result × PairTrue table.now }
{
    let answer = period::pair(table);
    let verdict = answer.verdict;
    let numbers = verdict_numbers(verdict);
    let found = answer.pair.is_some();
    let pair = answer.pair.unwrap_or(Pair { from: 0, to: 0 });
    PeriodNumbers {
        number: numbers.number,
        component: numbers.component,
        found,
        from: pair.from,
        to: pair.to,
    }
}
