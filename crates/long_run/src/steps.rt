// The run of an accepted table to a horizon that 29 does not refuse: its program written, its nodes at their start, its choices carried out.
ghost use Rattle.std.specs.Prelude.{◌≡◌, ◌≤◌, ◌<◌, length, Some};
ghost use Rattle.model.specs.Reader.{byte};
ghost use Rattle.model.specs.Places.{Valid, read_of};
ghost use Rattle.model.specs.Program.{program_bytes};
ghost use Rattle.table.specs.Directory.{starts_of};
ghost use Rattle.schedule.specs.Filled.{AcceptedRows};
ghost use Rattle.long_run.specs.Reached.{PairOf, Reached, RoomTo, EndsTo};

use model::layout;
use recurrence::Pair;
use run::Ended;

// To a horizon up to the table's own: in one part, by all rows.
fn run_below(
    table: &[u8],
    starts: [u16; 8],
    program: &[u8],
    rows: &[u32],
    count: usize,
    horizon: u32,
    choices: &[u8],
    out: &mut [u8],
) -> Ended
    requires { Valid table.now × (starts ≡ starts_of table.now (byte table.now 3)) × (program.now ≡ program_bytes (read_of table.now)) × AcceptedRows table.now rows.now count × (1 ≤ horizon) × (horizon ≤ (read_of table.now).horizon) × RoomTo table.now horizon (length out.old) }
    ensures { EndsTo table.now horizon choices.now out.old result out.new }
{
    let none = [0u32; 1];
    let mut words = [0u64; 256];
    let mut values = [0i16; 32];
    run::start(
        table,
        starts,
        program,
        rows,
        count,
        &none[0..0],
        &mut words,
        &mut values,
    );
    let nodes = table[layout::TABLE_COMPONENTS] as usize;
    run::carry_out(
        program,
        rows,
        count,
        nodes,
        horizon as u64,
        choices,
        0,
        0,
        &mut words,
        &mut values,
        out,
    )
}

// Beyond it: in parts, by the rows up to the end of the round.
fn run_beyond(
    table: &[u8],
    starts: [u16; 8],
    program: &[u8],
    rows: &mut [u32],
    count: usize,
    pair: Pair,
    horizon: u32,
    choices: &[u8],
    out: &mut [u8],
) -> Ended
    requires { Valid table.now × (starts ≡ starts_of table.now (byte table.now 3)) × (program.now ≡ program_bytes (read_of table.now)) × AcceptedRows table.now rows.old count × PairOf table.now (Some pair) × ((read_of table.now).horizon < horizon) × RoomTo table.now horizon (length out.old) }
    ensures { EndsTo table.now horizon choices.now out.old result out.new }
{
    let none = [0u32; 1];
    let mut words = [0u64; 256];
    let mut values = [0i16; 32];
    let nodes = parts::wide(table[layout::TABLE_COMPONENTS]);
    let own = parts::word32(parts::word_at(table, layout::TABLE_HORIZON));
    let round = period::counting::longest_round(table, rows, count, pair, own);
    run::start(
        table,
        starts,
        program,
        rows,
        round.second + nodes,
        &none[0..0],
        &mut words,
        &mut values,
    );
    rounds::run_rounds(
        table,
        program,
        rows,
        round,
        nodes,
        horizon,
        choices,
        &mut words,
        &mut values,
        out,
    )
}

// By the program.
fn run_program(
    table: &[u8],
    starts: [u16; 8],
    program: &[u8],
    rows: &mut [u32],
    count: usize,
    pair: Option<Pair>,
    horizon: u32,
    choices: &[u8],
    out: &mut [u8],
) -> Ended
    requires { Valid table.now × (starts ≡ starts_of table.now (byte table.now 3)) × (program.now ≡ program_bytes (read_of table.now)) × Reached table.now rows.old count pair horizon × RoomTo table.now horizon (length out.old) }
    ensures { EndsTo table.now horizon choices.now out.old result out.new }
{
    let own = u32::from(parts::word_at(table, layout::TABLE_HORIZON));
    if horizon <= own {
        return run_below(table, starts, program, rows, count, horizon, choices, out);
    }
    match pair {
        Some(pair) => run_beyond(
            table, starts, program, rows, count, pair, horizon, choices, out,
        ),
        None => unreachable!(),
    }
}

// The same, the program written to the bytes lent.
fn run_in(
    table: &[u8],
    starts: [u16; 8],
    program: &mut [u8],
    rows: &mut [u32],
    count: usize,
    pair: Option<Pair>,
    horizon: u32,
    choices: &[u8],
    out: &mut [u8],
) -> Ended
    requires { Valid table.now × (starts ≡ starts_of table.now (byte table.now 3)) × (length (program_bytes (read_of table.now)) ≤ length program.old) × Reached table.now rows.old count pair horizon × RoomTo table.now horizon (length out.old) }
    ensures { EndsTo table.now horizon choices.now out.old result out.new }
{
    let long = translator::write_program(table, starts, program);
    run_program(
        table,
        starts,
        &program[..long],
        rows,
        count,
        pair,
        horizon,
        choices,
        out,
    )
}

// The run of a table whose schedule stands in the rows.
pub fn run_table(
    table: &[u8],
    starts: [u16; 8],
    rows: &mut [u32],
    count: usize,
    pair: Option<Pair>,
    horizon: u32,
    choices: &[u8],
    out: &mut [u8],
) -> Ended
    requires { Valid table.now × (starts ≡ starts_of table.now (byte table.now 3)) × Reached table.now rows.old count pair horizon × RoomTo table.now horizon (length out.old) }
    ensures { EndsTo table.now horizon choices.now out.old result out.new }
{
    if translator::program_length(table, starts) <= 2048 {
        let mut program = [0u8; 2048];
        return run_in(
            table,
            starts,
            &mut program,
            rows,
            count,
            pair,
            horizon,
            choices,
            out,
        );
    }
    let mut program = [0u8; 24576];
    run_in(
        table,
        starts,
        &mut program,
        rows,
        count,
        pair,
        horizon,
        choices,
        out,
    )
}
