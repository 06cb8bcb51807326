// Document 02, wish 11: where components were at ticks, as numbers.
ghost use Rattle.model.specs.Positions.{positions_call, PositionsTrue};
ghost use Rattle.timed_network.specs.Numbers.{PositionNumbersOf};

use crate::verdict_numbers;

// The answer of the call for positions: the verdict as two numbers, and how many passages were read, 0 after a refusal. C has it as it stands.
#[repr(C)]
#[derive(Clone, Copy)]
pub struct PositionNumbers {
    pub number: u8,
    pub component: u8,
    pub read: u32,
}

// The passage of each component at each tick asked, and whether the tick lies in its window: three bytes a pair, laid over the front of those lent. Each
// answer is true, and the passages read are those entered by the last tick asked.
#[unsafe(no_mangle)]
pub extern "C" fn timed_network_positions(
    table: &[u8],
    pairs: &[u32],
    answers: &mut [u8],
) -> PositionNumbers
    ensures { PositionNumbersOf (positions_call table.now pairs.now answers.old) result answers.new × PositionsTrue table.now pairs.now answers.old }
{
    let answer = positions::positions(table, pairs, answers);
    let verdict = answer.verdict;
    let numbers = verdict_numbers(verdict);
    PositionNumbers {
        number: numbers.number,
        component: numbers.component,
        read: answer.read as u32,
    }
}
