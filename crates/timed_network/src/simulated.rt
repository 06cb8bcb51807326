// Document 02, wish 10: simulated runs with drawn work times, as numbers.
ghost use Rattle.generator.specs.Xorshift.{fixed_seed};
ghost use Rattle.simulation.specs.Simulated.{SimulateCall, simulate_call, LateAdds, SimulatedOf};
ghost use Rattle.simulated_runs.specs.Answers.{SimulatedAs};
ghost use Rattle.timed_network.specs.Numbers.{SimulationNumbersOf};

use crate::verdict_numbers;
use simulated_runs::call::Simulation;

// The answer of the calls for simulated runs: the verdict as two numbers, the runs that ended late, those of each node, and the generator afterwards; all
// but the verdict are 0 after a refusal. C has it as it stands.
#[repr(C)]
#[derive(Clone, Copy)]
pub struct SimulationNumbers {
    pub number: u8,
    pub component: u8,
    pub late: u32,
    pub nodes: [u32; 8],
    pub state: u32,
}

fn simulation_numbers(answer: Simulation) -> SimulationNumbers
    ensures { (call : SimulateCall) → SimulatedAs call answer → SimulationNumbersOf call result }
{
    let verdict = answer.verdict;
    let numbers = verdict_numbers(verdict);
    let nodes = answer.nodes;
    SimulationNumbers {
        number: numbers.number,
        component: numbers.component,
        late: answer.late,
        nodes,
        state: answer.state,
    }
}

// So many simulated runs of a table, each sleep before a send or an internal edge drawing between lo and hi ticks of work, the generator starting from its
// fixed seed. Each is the run of a list of choices, so that demand 3 holds of it, and ends late or at the horizon.
#[unsafe(no_mangle)]
pub extern "C" fn timed_network_simulate(
    table: &[u8],
    lo: u32,
    hi: u32,
    runs: u32,
) -> SimulationNumbers
    ensures { SimulationNumbersOf (simulate_call table.now lo hi runs fixed_seed) result × LateAdds table.now lo hi runs fixed_seed × SimulatedOf table.now lo hi runs fixed_seed }
{
    simulation_numbers(simulated_runs::call::simulate(table, lo, hi, runs))
}

// The same from a seed that is given.
#[unsafe(no_mangle)]
pub extern "C" fn timed_network_simulate_from(
    table: &[u8],
    lo: u32,
    hi: u32,
    runs: u32,
    seed: u32,
) -> SimulationNumbers
    ensures { SimulationNumbersOf (simulate_call table.now lo hi runs seed) result × LateAdds table.now lo hi runs seed × SimulatedOf table.now lo hi runs seed }
{
    simulation_numbers(simulated_runs::call::simulate_from(table, lo, hi, runs, seed))
}
