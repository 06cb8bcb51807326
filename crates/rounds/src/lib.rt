// The run to a horizon beyond the table's own (document 02, wish 14), in parts: one after the other by the same rows, each a period later.
#![tactic(auto)]

ghost use Rattle.std.specs.Prelude.{◌≡◌, true, false, List, [], ℕ, ◌+◌, ◌*◌, ◌≤◌, ◌<◌, length};
ghost use Rattle.model.specs.declared.End.TheVariants.{Horizon};
ghost use Rattle.model.specs.Lists.{accepted};
ghost use Rattle.model.specs.Reader.{byte};
ghost use Rattle.model.specs.Places.{Valid, read_of};
ghost use Rattle.model.specs.Schedule.{Passage};
ghost use Rattle.model.specs.Program.{program_bytes};
ghost use Rattle.model.specs.Run.{setting_to, observation_width};
ghost use Rattle.schedule.specs.Filled.{AcceptedRows};
ghost use Rattle.recurrence.specs.Recurrence.{accepted_schedule_to};
ghost use Rattle.period.specs.Rounds.{RoundOf};
ghost use Rattle.run.specs.Ends.{Started, EndsAs};

use model::End;
use period::counting::Round;
use run::Ended;

// Whether a part ends at its horizon.
fn arrives(end: End) -> bool
    ensures { (result ≡ true → end ≡ Horizon) × (result ≡ false → end ≡ Horizon → ⊥) }
{
    matches!(end, End::Horizon)
}

// Runs to a horizon beyond the table's own, from the nodes at their programs' start. The rows are those entered before the round's end and one of each
// component entered there.
pub fn run_rounds(
    table: &[u8],
    program: &[u8],
    rows: &mut [u32],
    round: Round,
    count: usize,
    horizon: u32,
    choices: &[u8],
    words: &mut [u64],
    values: &mut [i16],
    out: &mut [u8],
) -> Ended
    requires { Valid table.now × (program.now ≡ program_bytes (read_of table.now)) × ((all : ℕ) × AcceptedRows table.now rows.old all) × RoundOf table.now round × (count ≡ byte table.now 3) × Started table.now program.now rows.old (round.second + count) [] words.old values.old × ((read_of table.now).horizon < horizon) × ((L : List Passage) → accepted_schedule_to (read_of table.now).table horizon ≡ accepted L → length L * observation_width ≤ length out.old) }
    ensures { (L : List Passage) → accepted_schedule_to (read_of table.now).table horizon ≡ accepted L → EndsAs (setting_to (read_of table.now) horizon L) choices.now out.old result out.new }
{
    let passages = round.second + count;
    let fewer = turning::rows_of_each(rows, count, round.first, round.second);
    let last = horizon as u64;
    let mut until = round.until as u64;
    let mut tick: u64 = 0;
    let mut used: usize = 0;
    let mut written: usize = 0;
    // A loop: how many parts there are is told by where they end.
    loop {
        let bound = until.min(last);
        let part = run::carry_out(
            program,
            rows,
            passages,
            count,
            bound,
            &choices[used..],
            tick,
            written,
            words,
            values,
            out,
        );
        used += part.used;
        if !arrives(part.end) || last <= until {
            return run::end_of(part.end, part.tick, used, part.written);
        }
        turning::turn(
            rows,
            passages,
            count,
            round.first,
            round.period,
            fewer,
            words,
        );
        tick = until;
        written = part.written;
        until += round.period as u64;
    }
}
