// The calls, for Rattle. Each contract equates the answer, and each lent number afterwards, with the call's
// definition in model's specs/Calls.antt, for all inputs.
#![tactic(auto)]

pub mod apart;
pub mod spread;

ghost use Rattle.std.specs.Prelude.{◌≡◌, ◌↔◌, ◌*◌, ◌≤◌, IfErr, length};
ghost use Rattle.model.specs.declared.Verdict.TheVariants.{Accepted, Refused};
ghost use Rattle.model.specs.Reader.{byte};
ghost use Rattle.model.specs.Places.{Valid};
ghost use Rattle.model.specs.Program.{part_of, within};
ghost use Rattle.model.specs.Calls.{check_call, schedule_call, translate_call, run_call, Demand3Of};
ghost use Rattle.model.specs.Acceptance.{Accepts};
ghost use Rattle.model.specs.Observations.{ObservationsRead};
ghost use Rattle.model.specs.Finishes.{FinishesOf};
ghost use Rattle.table.specs.Directory.{starts_of, question_number};
ghost use Rattle.calls.specs.Ran.{Answers};

use model::{End, Verdict, layout};
use table::HeaderFault;

// The answer of a run: the end, the tick, the choices used and the observations written; after a refusal `Horizon`, 0, 0 and 0.
#[derive(Clone, Copy)]
pub struct Ran {
    pub verdict: Verdict,
    pub end: End,
    pub tick: u32,
    pub used: u32,
    pub size: usize,
}

// The answer of a call that writes.
#[derive(Clone, Copy)]
pub struct Called {
    pub verdict: Verdict,
    pub size: usize,
}

fn refused(number: u8, component: u8) -> Called
    ensures { (result.verdict ≡ Refused number component) × (result.size ≡ 0) }
{
    Called {
        verdict: Verdict::Refused(number, component),
        size: 0,
    }
}

// Checks 7 to 12 of a table that was read.
fn plan_verdict(table: &[u8], starts: [u16; 8]) -> Verdict
    requires { Valid table.now × (starts ≡ starts_of table.now (byte table.now 3)) }
    ensures { result ≡ check_call table.now }
{
    spread::plan_verdict(table, starts, 0)
}

// Checks 1 to 3 alone: the one that refuses the table. No more is read than the header.
pub fn check_header(table: &[u8]) -> Result<(), HeaderFault>
    ensures { IfErr result (λ fault. check_call table.now ≡ Refused (question_number fault) 255) × ((check_call table.now ≡ Accepted) ↔ Accepts table.now) }
{
    table::header(table)
}

// Whether the table is accepted; and what that means: it is, exactly if demand 2's statement holds of its bytes. It is the check at the spread 0,
// of which the library for other languages has one more caller: so large a function with two callers is not inlined, and its frame, with the
// rows of a schedule, is not the caller's.
pub fn check(table: &[u8]) -> Verdict
    ensures { (result ≡ check_call table.now) × ((check_call table.now ≡ Accepted) ↔ Accepts table.now) }
{
    spread::check_spread(table, 0)
}

// The schedule of a table that was read.
fn plan_into(table: &[u8], starts: [u16; 8], list: &mut [u32]) -> Called
    requires { Valid table.now × (starts ≡ starts_of table.now (byte table.now 3)) }
    ensures { (result.verdict ≡ (schedule_call table.now list.old).verdict) × (result.size ≡ (schedule_call table.now list.old).size) × (list.new ≡ (schedule_call table.now list.old).lent) × (result.size ≤ 1024) × (result.size * 7 ≤ length list.old) }
{
    let mut rows = [0u32; 9216];
    let r = schedule::plan_rows(table, starts, &mut rows, 0);
    let v = r.verdict;
    let n = r.count;
    match v {
        Verdict::Refused(number, component) => refused(number, component),
        Verdict::Accepted => {
            if list.len() < n * layout::PASSAGE_WIDTH {
                return refused(13, 255);
            }
            schedule::put_fields(&rows, n, list);
            Called {
                verdict: Verdict::Accepted,
                size: n,
            }
        }
    }
}

// The schedule: seven numbers a passage, laid over the front of the list.
pub fn schedule(table: &[u8], list: &mut [u32]) -> Called
    ensures { (result.verdict ≡ (schedule_call table.now list.old).verdict) × (result.size ≡ (schedule_call table.now list.old).size) × (list.new ≡ (schedule_call table.now list.old).lent) × (result.size ≤ 1024) × (result.size * 7 ≤ length list.old) }
{
    let r = table::read(table);
    let v = r.verdict;
    match v {
        Verdict::Refused(number, component) => refused(number, component),
        Verdict::Accepted => {
            let starts = r.starts;
            plan_into(table, starts, list)
        }
    }
}

// The program of a table that was read.
fn translate_into(table: &[u8], starts: [u16; 8], program: &mut [u8]) -> Called
    requires { Valid table.now × (starts ≡ starts_of table.now (byte table.now 3)) }
    ensures { (result.verdict ≡ (translate_call table.now program.old).verdict) × (result.size ≡ (translate_call table.now program.old).size) × (program.new ≡ (translate_call table.now program.old).lent) × (result.size ≤ 24576) }
{
    let v = plan_verdict(table, starts);
    match v {
        Verdict::Refused(number, component) => refused(number, component),
        Verdict::Accepted => {
            let long = translator::program_length(table, starts);
            if program.len() < long {
                return refused(13, 255);
            }
            translator::write_program(table, starts, program);
            Called {
                verdict: Verdict::Accepted,
                size: long,
            }
        }
    }
}

// The programs of the nodes: bytes laid over the front of those lent.
pub fn translate(table: &[u8], program: &mut [u8]) -> Called
    ensures { (result.verdict ≡ (translate_call table.now program.old).verdict) × (result.size ≡ (translate_call table.now program.old).size) × (program.new ≡ (translate_call table.now program.old).lent) × (result.size ≤ 24576) }
{
    let r = table::read(table);
    let v = r.verdict;
    match v {
        Verdict::Refused(number, component) => refused(number, component),
        Verdict::Accepted => {
            let starts = r.starts;
            translate_into(table, starts, program)
        }
    }
}

// The part of the program bytes that belongs to one node, for any bytes.
pub fn part<'a>(program: &'a [u8], node: u8) -> &'a [u8]
    ensures { result.now ≡ within (part_of program.now node) program.now }
{
    program::part(program, node)
}

// Runs an accepted table's programs under a list of choices; 36 bytes an observation. Every number and every lent byte is the definition's,
// demand 3 holds of the run, what was written, read back, is what the run observed, and its ticks lie in the previous windows. It is the run of nodes that wake apart, without a
// spread and without offsets.
pub fn run(table: &[u8], choices: &[u8], observations: &mut [u8]) -> Ran
    ensures { Answers (run_call table.now choices.now observations.old) result observations.new × Demand3Of table.now choices.now × ObservationsRead table.now choices.now observations.old × FinishesOf table.now choices.now }
{
    let none = [0u32; 1];
    apart::run_apart(table, choices, 0, &none[0..0], observations)
}
