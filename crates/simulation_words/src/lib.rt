// All that is said of simulated runs of a table with drawn work times: how many ended late, in all and of each node, and the generator afterwards.
// Or `refused`, number, component and the question in words.
#![tactic(auto)]

ghost use Rattle.std.specs.Prelude.{◌≡◌, ◌≤◌, length, take};
ghost use Rattle.io.specs.Counts.{IsPrefixLen};
ghost use Rattle.simulation_text.specs.SimulationText.{printed_simulation};

use model::Verdict;
use node_count::nodes_of;

// A line for each of eight nodes; no refusal is longer.
pub const ROOM: usize = 300;

// All that is printed of a table and these numbers, at the front of out; answers how many bytes.
fn put_printed(table: &[u8], lo: u32, hi: u32, runs: u32, seed: u32, out: &mut [u8]) -> usize
    requires { 300 ≤ length out.old }
    ensures prefix_len { IsPrefixLen result out.new }
    ensures out_after { take result out.new ≡ printed_simulation table.now lo hi runs seed }
{
    let answer = simulated_runs::call::simulate_from(table, lo, hi, runs, seed);
    let v = answer.verdict;
    let nodes = answer.nodes;
    match v {
        Verdict::Refused(number, concerned) => refusal_text::put_refusal_text(
            out, 0, number, concerned,
        ),
        Verdict::Accepted => simulation_text::put_simulation(
            out,
            nodes_of(table),
            runs,
            answer.late,
            nodes,
            answer.state,
        ),
    }
}

// The same in an array, whose length nobody has to prove.
pub fn write(table: &[u8], lo: u32, hi: u32, runs: u32, seed: u32, out: &mut [u8; ROOM]) -> usize
    ensures prefix_len { IsPrefixLen result out.new }
    ensures out_after { take result out.new ≡ printed_simulation table.now lo hi runs seed }
    ensures upper_bound { result ≤ 300 }
{
    put_printed(table, lo, hi, runs, seed, out)
}
