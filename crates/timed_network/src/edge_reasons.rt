// Document 02, wish 7: why an edge was taken, as numbers.
ghost use Rattle.model.specs.Reasons.{reasons_call, ReasonsTrue};
ghost use Rattle.timed_network.specs.Numbers.{ReasonNumbersOf};

use crate::verdict_numbers;

// The answer of the call for reasons: the verdict as two numbers, the number of the passage, and how many edges are told; both are 0 after a refusal.
// C has it as it stands.
#[repr(C)]
#[derive(Clone, Copy)]
pub struct ReasonNumbers {
    pub number: u8,
    pub component: u8,
    pub passage: u32,
    pub size: u32,
}

// The passage of a component at a tick, and the reason of each edge from its location: three bytes an edge, laid over the front of those lent. Each
// reason is true, and no other is.
#[unsafe(no_mangle)]
pub extern "C" fn timed_network_reasons(
    table: &[u8],
    component: u32,
    tick: u32,
    told: &mut [u8],
) -> ReasonNumbers
    ensures { ReasonNumbersOf (reasons_call table.now component tick told.old) result told.new × ReasonsTrue table.now component tick }
{
    if let Err(fault) = table::header(table) {
        return ReasonNumbers {
            number: u8::from(fault),
            component: 255,
            passage: 0,
            size: 0,
        };
    }
    let answer = reasons::reasons(&table[0..], component, tick, told);
    let verdict = answer.verdict;
    let numbers = verdict_numbers(verdict);
    ReasonNumbers {
        number: numbers.number,
        component: numbers.component,
        passage: answer.passage as u32,
        size: answer.size as u32,
    }
}
