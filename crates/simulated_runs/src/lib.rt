// Simulated runs of a table, each going on with the generator of the last (document 02, wish 10). Here the loop over them.
#![tactic(auto)]

pub mod call;

ghost use Rattle.std.specs.Prelude.{◌≡◌, List, ◌≤◌, ◌<◌};
ghost use Rattle.std.specs.Option.{ForSome};
ghost use Rattle.model.specs.Lists.{accepted};
ghost use Rattle.model.specs.Reader.{byte};
ghost use Rattle.model.specs.Places.{Valid, read_of};
ghost use Rattle.model.specs.Schedule.{Passage};
ghost use Rattle.model.specs.Checks.{accepted_schedule_of};
ghost use Rattle.model.specs.Program.{program_bytes};
ghost use Rattle.model.specs.Run.{setting_of};
ghost use Rattle.table.specs.Directory.{starts_of};
ghost use Rattle.run.specs.Ends.{Planned};
ghost use Rattle.simulator.specs.Answers.{TriedAs};
ghost use Rattle.simulated_runs.specs.Answers.{TalliedAs};

use model::layout;
use simulator::runs::Tried;

// The late runs in all, and of each node; and the generator afterwards.
#[derive(Clone, Copy)]
pub struct Tally {
    pub late: u32,
    pub nodes: [u32; 8],
    pub state: u32,
}

// One simulated run of the table whose program this is, all nodes starting together.
fn fresh_run(
    table: &[u8],
    starts: [u16; 8],
    program: &[u8],
    rows: &[u32],
    passages: usize,
    lo: u32,
    hi: u32,
    seed: u32,
) -> Tried
    requires { Valid table.now × (starts ≡ starts_of table.now (byte table.now 3)) × (program.now ≡ program_bytes (read_of table.now)) × Planned 0 table.now rows.now passages × (lo ≤ hi) × (hi ≤ 60000) }
    ensures run { (S : List Passage) → accepted_schedule_of (read_of table.now) ≡ accepted S → TriedAs (setting_of (read_of table.now) S) (record { lo = lo; hi = hi }) seed result.late result.state }
    ensures node { ForSome result.late (λ c. c < 8) }
{
    let together = [0u32; 1];
    let mut words = [0u64; 256];
    let mut values = [0i16; 32];
    run::start(
        table,
        starts,
        program,
        rows,
        passages,
        &together[0..0],
        &mut words,
        &mut values,
    );
    let count = table[layout::TABLE_COMPONENTS] as usize;
    let horizon = parts::word_at(table, layout::TABLE_HORIZON) as u64;
    let mut until = [0u64; 8];
    simulator::runs::one_run(
        program,
        rows,
        passages,
        count,
        horizon,
        &mut words,
        &mut values,
        &mut until,
        lo,
        hi,
        seed,
    )
}

// So many simulated runs of the table whose program this is.
pub fn many_runs(
    table: &[u8],
    starts: [u16; 8],
    program: &[u8],
    rows: &[u32],
    passages: usize,
    lo: u32,
    hi: u32,
    runs: u32,
    seed: u32,
) -> Tally
    requires { Valid table.now × (starts ≡ starts_of table.now (byte table.now 3)) × (program.now ≡ program_bytes (read_of table.now)) × Planned 0 table.now rows.now passages × (lo ≤ hi) × (hi ≤ 60000) × (runs ≤ 10000) }
    ensures { (S : List Passage) → accepted_schedule_of (read_of table.now) ≡ accepted S → TalliedAs (setting_of (read_of table.now) S) (record { lo = lo; hi = hi }) runs seed result }
{
    let mut late: u32 = 0;
    let mut nodes = [0u32; 8];
    let mut state = seed;
    for _ in 0..runs {
        let tried = fresh_run(table, starts, program, rows, passages, lo, hi, state);
        if let Some(c) = tried.late {
            late += 1;
            nodes[usize::from(c)] += 1;
        }
        state = tried.state;
    }
    Tally { late, nodes, state }
}
