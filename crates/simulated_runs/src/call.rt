// The call: so many simulated runs of a table at G = 0, and what refuses them.
ghost use Rattle.std.specs.Prelude.{◌≡◌, List, ◌≤◌};
ghost use Rattle.model.specs.Lists.{accepted};
ghost use Rattle.model.specs.Reader.{byte};
ghost use Rattle.model.specs.Places.{Valid, read_of};
ghost use Rattle.model.specs.Schedule.{Passage};
ghost use Rattle.model.specs.Checks.{accepted_schedule_of};
ghost use Rattle.model.specs.Run.{setting_of};
ghost use Rattle.table.specs.Directory.{starts_of};
ghost use Rattle.run.specs.Ends.{Planned};
ghost use Rattle.generator.specs.Xorshift.{fixed_seed};
ghost use Rattle.simulation.specs.Simulated.{tryable, not_simulated, simulate_call, LateAdds, SimulatedOf};
ghost use Rattle.simulated_runs.specs.Answers.{TalliedAs, SimulatedAs};

use crate::Tally;
use generator::Generator;
use model::Verdict;

// The answer: the late runs in all, and of each node; and the generator afterwards. All 0 after a refusal.
#[derive(Clone, Copy)]
pub struct Simulation {
    pub verdict: Verdict,
    pub late: u32,
    pub nodes: [u32; 8],
    pub state: u32,
}

fn not_simulated(number: u8, component: u8) -> Simulation
    ensures { SimulatedAs (not_simulated number component) result }
{
    Simulation {
        verdict: Verdict::Refused(number, component),
        late: 0,
        nodes: [0u32; 8],
        state: 0,
    }
}

// Whether 23 lets these numbers pass.
fn may_try(lo: u32, hi: u32, runs: u32) -> bool
    ensures { result ≡ tryable (record { lo = lo; hi = hi }) runs }
{
    if hi < lo {
        return false;
    }
    if 60000 < hi {
        return false;
    }
    if runs == 0 {
        return false;
    }
    runs <= 10000
}

// The runs of an accepted table whose schedule stands in the rows.
fn runs_of(
    table: &[u8],
    starts: [u16; 8],
    rows: &[u32],
    passages: usize,
    lo: u32,
    hi: u32,
    runs: u32,
    seed: u32,
) -> Tally
    requires { Valid table.now × (starts ≡ starts_of table.now (byte table.now 3)) × Planned 0 table.now rows.now passages × (lo ≤ hi) × (hi ≤ 60000) × (runs ≤ 10000) }
    ensures { (S : List Passage) → accepted_schedule_of (read_of table.now) ≡ accepted S → TalliedAs (setting_of (read_of table.now) S) (record { lo = lo; hi = hi }) runs seed result }
{
    let mut program = [0u8; 24576];
    let long = translator::write_program(table, starts, &mut program);
    crate::many_runs(
        table,
        starts,
        &program[..long],
        rows,
        passages,
        lo,
        hi,
        runs,
        seed,
    )
}

// The same with what refuses it alone: 22 before 23.
fn simulate_planned(
    table: &[u8],
    starts: [u16; 8],
    rows: &[u32],
    passages: usize,
    lo: u32,
    hi: u32,
    runs: u32,
    seed: u32,
) -> Simulation
    requires { Valid table.now × (starts ≡ starts_of table.now (byte table.now 3)) × Planned 0 table.now rows.now passages }
    ensures { SimulatedAs (simulate_call table.now lo hi runs seed) result }
{
    let fine = may_try(lo, hi, runs);
    if seed == 0 {
        return not_simulated(22, 255);
    }
    if !fine {
        return not_simulated(23, 255);
    }
    let tally = runs_of(table, starts, rows, passages, lo, hi, runs, seed);
    let nodes = tally.nodes;
    Simulation {
        verdict: Verdict::Accepted,
        late: tally.late,
        nodes,
        state: tally.state,
    }
}

// The same of a table that was read.
fn simulate_read(
    table: &[u8],
    starts: [u16; 8],
    lo: u32,
    hi: u32,
    runs: u32,
    seed: u32,
) -> Simulation
    requires { Valid table.now × (starts ≡ starts_of table.now (byte table.now 3)) }
    ensures { SimulatedAs (simulate_call table.now lo hi runs seed) result }
{
    let mut rows = [0u32; 9216];
    let r = schedule::plan_rows(table, starts, &mut rows, 0);
    let v = r.verdict;
    let n = r.count;
    match v {
        Verdict::Refused(number, component) => not_simulated(number, component),
        Verdict::Accepted => simulate_planned(table, starts, &rows, n, lo, hi, runs, seed),
    }
}

// So many simulated runs of a table, each sleep before a send or an internal edge drawing between lo and hi ticks of work from the generator, which
// starts from the seed. Every number is the definition's; the nodes' counts add up to that of all; and each run is that of a list of choices, so
// that demand 3 holds of it, and ends late or at the horizon.
pub fn simulate_from(table: &[u8], lo: u32, hi: u32, runs: u32, seed: u32) -> Simulation
    ensures { SimulatedAs (simulate_call table.now lo hi runs seed) result × LateAdds table.now lo hi runs seed × SimulatedOf table.now lo hi runs seed }
{
    let r = table::read(table);
    let v = r.verdict;
    match v {
        Verdict::Refused(number, component) => not_simulated(number, component),
        Verdict::Accepted => {
            let starts = r.starts;
            simulate_read(table, starts, lo, hi, runs, seed)
        }
    }
}

// The same from the fixed seed.
pub fn simulate(table: &[u8], lo: u32, hi: u32, runs: u32) -> Simulation
    ensures { SimulatedAs (simulate_call table.now lo hi runs fixed_seed) result × LateAdds table.now lo hi runs fixed_seed × SimulatedOf table.now lo hi runs fixed_seed }
{
    simulate_from(table, lo, hi, runs, Generator::SEED)
}
