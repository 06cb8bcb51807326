// Document 02, wish 12: a table as a text for UPPAAL.
ghost use Rattle.std.specs.Prelude.{◌≡◌, take};
ghost use Rattle.model.specs.Calls.{number_of, concerned_of};
ghost use Rattle.uppaal.specs.UppaalCall.{uppaal_call, SamePathsOf, DenseTimeOf, Carries};
ghost use Rattle.timed_network.specs.Names.{NamesApart};

use crate::{CallNumbers, verdict_numbers};

// The text, laid over the front of the bytes lent. Where nothing is refused, it is the bytes themselves that have the table's paths: read by the
// tool's grammar they are a network in which each name is declared, and which has exactly the table's paths that enter no location with its
// invariant broken; and nothing else happens in it between the ticks.
#[unsafe(no_mangle)]
pub extern "C" fn timed_network_uppaal(table: &[u8], text: &mut [u8]) -> CallNumbers
    ensures { (result.number ≡ number_of (uppaal_call table.now text.old).verdict) × (result.component ≡ concerned_of (uppaal_call table.now text.old).verdict) × (result.size ≡ (uppaal_call table.now text.old).size) × (text.new ≡ (uppaal_call table.now text.old).lent) × SamePathsOf table.now × DenseTimeOf table.now × (result.number ≡ 0 → Carries table.now (take result.size text.new)) × NamesApart table.now }
{
    let answer = uppaal_call::uppaal(table, text);
    let verdict = answer.verdict;
    let numbers = verdict_numbers(verdict);
    CallNumbers {
        number: numbers.number,
        component: numbers.component,
        size: answer.size as u32,
    }
}
