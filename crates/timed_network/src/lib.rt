// The library for other languages: every exported call and nothing else. Each is a thin function over the call of the same
// name in a crate below, with the answer written out as numbers.
#![tactic(auto)]

pub mod component_positions;
pub mod early;
pub mod edge_reasons;
pub mod long_runs;
pub mod places;
pub mod repetition;
pub mod simulated;
pub mod sites;
pub mod spread;
pub mod uppaal_export;

ghost use Rattle.std.specs.Prelude.{◌≡◌, ◌↔◌, ◌≤◌, take};
ghost use Rattle.model.specs.Program.{part_of};
ghost use Rattle.model.specs.Calls.{check_call, schedule_call, translate_call, run_call, number_of, concerned_of, end_number, end_node, Demand3Of};
ghost use Rattle.model.specs.declared.Verdict.TheVariants.{Accepted};
ghost use Rattle.model.specs.Acceptance.{Accepts};
ghost use Rattle.model.specs.Observations.{ObservationsRead};
ghost use Rattle.model.specs.Finishes.{FinishesOf};
ghost use Rattle.model.specs.Meetings.{meetings_call};
ghost use Rattle.model.specs.Chart.{chart_call};
ghost use Rattle.slot_plan.specs.Plan.{slots_of, plan_call};
ghost use Rattle.slot_plan.specs.PlanSchedule.{PlanAccepted};
ghost use Rattle.model.specs.EdgeChoice.{edge_choice_call};
ghost use Rattle.node.specs.After.{start_of};
ghost use Rattle.lent_node.specs.Step.{held_of, stepped_of, message_of};
ghost use Rattle.passages.specs.Passages.{passages_call};
ghost use Rattle.timed_network.specs.Numbers.{NumbersOf, EdgeNumbersOf, entry_of};
ghost use Rattle.timed_network.specs.Versions.{EarlierRule, BudgetsKept};
ghost use Rattle.timed_network.specs.Listeners.{FaultsTold};

use calls::{Called, Ran};
use meetings::Listed;
use model::{End, Verdict};
use node::Node;
use passages::Passage;
use slot_plan::Slots;
use window::Entry;

// A verdict as two numbers: 0 for accepted, else the number of the refusal; and the component concerned, 255 for none. C has it as it stands.
#[repr(C)]
#[derive(Clone, Copy)]
pub struct VerdictNumbers {
    pub number: u8,
    pub component: u8,
}

// The same with the size of the result, 0 after a refusal. C has it as it stands.
#[repr(C)]
#[derive(Clone, Copy)]
pub struct CallNumbers {
    pub number: u8,
    pub component: u8,
    pub size: u32,
}

// The part of one node as a range of the program's bytes; 0 and 0 where there is none. C has it as it stands.
#[repr(C)]
#[derive(Clone, Copy)]
pub struct PartNumbers {
    pub start: usize,
    pub length: usize,
}

// The answer of a run as numbers. C has it as it stands.
#[repr(C)]
#[derive(Clone, Copy)]
pub struct RunNumbers {
    pub number: u8,
    pub component: u8,
    pub end: u8,
    pub node: u8,
    pub tick: u32,
    pub used: u32,
    pub size: u32,
}

// A run's end as two numbers: document 01's number of the end, and the node, 255 unless it is late.
#[derive(Clone, Copy)]
struct EndNumbers {
    number: u8,
    node: u8,
}

fn end_numbers(end: End) -> EndNumbers
    ensures { (result.number ≡ end_number end) × (result.node ≡ end_node end) }
{
    match end {
        End::Horizon => EndNumbers {
            number: 0,
            node: 255,
        },
        End::UsedUp => EndNumbers {
            number: 1,
            node: 255,
        },
        End::Late(node) => EndNumbers { number: 2, node },
        End::NotAllowed => EndNumbers {
            number: 3,
            node: 255,
        },
    }
}

// The answer of the call for meetings: its own as two numbers, the verdict of checks 1 to 12 on the table likewise, and how many passages
// are listed. C has it as it stands.
#[repr(C)]
#[derive(Clone, Copy)]
pub struct MeetingsNumbers {
    pub number: u8,
    pub component: u8,
    pub refusal: u8,
    pub concerned: u8,
    pub size: u32,
}

// A component as it enters a location, as numbers. C has it as it stands.
#[repr(C)]
#[derive(Clone, Copy)]
pub struct EntryNumbers {
    pub component: u8,
    pub location: u8,
    pub clocks: [u32; 4],
    pub values: [i16; 4],
}

// The answer of the edge choice as numbers: the edge taken, if any, its window counted from the entry, and how many edges were looked at.
// C has it as it stands.
#[repr(C)]
#[derive(Clone, Copy)]
pub struct EdgeChoiceNumbers {
    pub number: u8,
    pub component: u8,
    pub taken: bool,
    pub edge: u8,
    pub ready: u32,
    pub end: u32,
    pub looked: u32,
}

// A verdict as two numbers.
fn verdict_numbers(verdict: Verdict) -> VerdictNumbers
    ensures { (result.number ≡ number_of verdict) × (result.component ≡ concerned_of verdict) }
{
    match verdict {
        Verdict::Accepted => VerdictNumbers {
            number: 0,
            component: 255,
        },
        Verdict::Refused(refusal, concerned) => VerdictNumbers {
            number: refusal,
            component: concerned,
        },
    }
}

// What was listed, as numbers.
fn meetings_numbers(listed: Listed) -> MeetingsNumbers
    requires { listed.size ≤ 65535 }
    ensures { (result.number ≡ number_of listed.verdict) × (result.component ≡ concerned_of listed.verdict) × (result.refusal ≡ number_of listed.table) × (result.concerned ≡ concerned_of listed.table) × (result.size ≡ listed.size) }
{
    let verdict = listed.verdict;
    let table = listed.table;
    let own = verdict_numbers(verdict);
    let judged = verdict_numbers(table);
    let size = listed.size as u32;
    MeetingsNumbers {
        number: own.number,
        component: own.component,
        refusal: judged.number,
        concerned: judged.component,
        size,
    }
}

// A call's answer as numbers.
fn numbers_of(called: Called) -> CallNumbers
    requires { called.size ≤ 65535 }
    ensures { (result.number ≡ number_of called.verdict) × (result.component ≡ concerned_of called.verdict) × (result.size ≡ called.size) }
{
    let v = called.verdict;
    let size = called.size as u32;
    match v {
        Verdict::Accepted => CallNumbers {
            number: 0,
            component: 255,
            size,
        },
        Verdict::Refused(number, component) => CallNumbers {
            number,
            component,
            size,
        },
    }
}

// Whether the table is accepted; tables of versions 1 and 2 by the rule before budgets, and 11, 15, 16 and 17 exactly by the first fault. The header is tried first, in registers: the rows of a schedule, nine pages of the stack, are in the frame of
// `calls::spread::check_spread`, which is a function of its own in the archive (`boundary/stack.c` measures what a refusal with 1 to 3 takes).
// `&table[0..]` makes the table's place and length anew, so that they are not stored before the header is tried.
#[unsafe(no_mangle)]
pub extern "C" fn timed_network_check(table: &[u8]) -> VerdictNumbers
    ensures { (result.number ≡ number_of (check_call table.now)) × (result.component ≡ concerned_of (check_call table.now)) × ((check_call table.now ≡ Accepted) ↔ Accepts table.now) × EarlierRule table.now × FaultsTold 0 table.now (check_call table.now) }
{
    if let Err(fault) = calls::check_header(table) {
        return VerdictNumbers {
            number: u8::from(fault),
            component: 255,
        };
    }
    let v = calls::check(&table[0..]);
    match v {
        Verdict::Accepted => VerdictNumbers {
            number: 0,
            component: 255,
        },
        Verdict::Refused(number, component) => VerdictNumbers { number, component },
    }
}

// The schedule: seven numbers a passage, laid over the front of the lent list.
#[unsafe(no_mangle)]
pub extern "C" fn timed_network_schedule(table: &[u8], list: &mut [u32]) -> CallNumbers
    ensures { (result.number ≡ number_of (schedule_call table.now list.old).verdict) × (result.component ≡ concerned_of (schedule_call table.now list.old).verdict) × (result.size ≡ (schedule_call table.now list.old).size) × (list.new ≡ (schedule_call table.now list.old).lent) × BudgetsKept table.now }
{
    if let Err(fault) = table::header(table) {
        return early::header_numbers(u8::from(fault));
    }
    let c = calls::schedule(&table[0..], list);
    numbers_of(c)
}

// The schedule as a chart: 69 bytes a component, laid over the front of those lent.
#[unsafe(no_mangle)]
pub extern "C" fn timed_network_timing_chart(table: &[u8], chart: &mut [u8]) -> CallNumbers
    ensures { (result.number ≡ number_of (chart_call table.now chart.old).verdict) × (result.component ≡ concerned_of (chart_call table.now chart.old).verdict) × (result.size ≡ (chart_call table.now chart.old).size) × (chart.new ≡ (chart_call table.now chart.old).lent) }
{
    if let Err(fault) = table::header(table) {
        return early::header_numbers(u8::from(fault));
    }
    let c = timing_chart::timing_chart(&table[0..], chart);
    numbers_of(c)
}

// The table of a slot plan, laid over the front of the bytes lent. Every plan written is accepted, and its schedule is the closed form.
#[unsafe(no_mangle)]
pub extern "C" fn timed_network_plan(
    probes: u32,
    slot: u32,
    guard: u32,
    period: u32,
    table: &mut [u8],
) -> CallNumbers
    ensures { (result.number ≡ number_of (plan_call (slots_of probes slot guard period) table.old).verdict) × (result.component ≡ concerned_of (plan_call (slots_of probes slot guard period) table.old).verdict) × (result.size ≡ (plan_call (slots_of probes slot guard period) table.old).size) × (table.new ≡ (plan_call (slots_of probes slot guard period) table.old).lent) × (result.number ≡ 0 → PlanAccepted (slots_of probes slot guard period) (take result.size table.new)) }
{
    let c = planner::plan(
        Slots {
            probes,
            slot,
            guard,
            period,
        },
        table,
    );
    numbers_of(c)
}

// The edge that a component takes as it enters a location, and how many edges were looked at.
#[unsafe(no_mangle)]
pub extern "C" fn timed_network_edge_choice(table: &[u8], asked: EntryNumbers) -> EdgeChoiceNumbers
    ensures { EdgeNumbersOf (edge_choice_call table.now asked.component (entry_of asked)) result }
{
    let clocks = asked.clocks;
    let values = asked.values;
    let at = Entry {
        location: asked.location,
        tick: 0,
        clocks,
        values,
    };
    let chosen = edge_choice::edge_choice(table, asked.component, at);
    let verdict = chosen.verdict;
    let answer = verdict_numbers(verdict);
    EdgeChoiceNumbers {
        number: answer.number,
        component: answer.component,
        taken: chosen.taken,
        edge: chosen.edge,
        ready: chosen.ready,
        end: chosen.end,
        looked: chosen.looked,
    }
}

// The programs of the nodes: bytes laid over the front of those lent; those of versions 1 and 2 by the rule before budgets.
#[unsafe(no_mangle)]
pub extern "C" fn timed_network_translate(table: &[u8], program: &mut [u8]) -> CallNumbers
    ensures { (result.number ≡ number_of (translate_call table.now program.old).verdict) × (result.component ≡ concerned_of (translate_call table.now program.old).verdict) × (result.size ≡ (translate_call table.now program.old).size) × (program.new ≡ (translate_call table.now program.old).lent) × EarlierRule table.now }
{
    if let Err(fault) = table::header(table) {
        return early::header_numbers(u8::from(fault));
    }
    let c = calls::translate(&table[0..], program);
    numbers_of(c)
}

// Where the part of one node stands in the program bytes, for any bytes.
#[unsafe(no_mangle)]
pub extern "C" fn timed_network_part(program: &[u8], node: u8) -> PartNumbers
    ensures { (result.start ≡ (part_of program.now node).start) × (result.length ≡ (part_of program.now node).long) }
{
    let span = program::span_of(program, node);
    PartNumbers {
        start: span.start,
        length: span.long,
    }
}

// The answer of a run as numbers.
fn run_numbers(ran: Ran) -> RunNumbers
    requires { ran.size ≤ 1024 }
    ensures { (result.number ≡ number_of ran.verdict) × (result.component ≡ concerned_of ran.verdict) × (result.end ≡ end_number ran.end) × (result.node ≡ end_node ran.end) × (result.tick ≡ ran.tick) × (result.used ≡ ran.used) × (result.size ≡ ran.size) }
{
    let verdict = ran.verdict;
    let answer = verdict_numbers(verdict);
    let end = ran.end;
    let ended = end_numbers(end);
    RunNumbers {
        number: answer.number,
        component: answer.component,
        end: ended.number,
        node: ended.node,
        tick: ran.tick,
        used: ran.used,
        size: ran.size as u32,
    }
}

// Runs an accepted table's programs under a list of choices; 36 bytes an observation.
#[unsafe(no_mangle)]
pub extern "C" fn timed_network_run(
    table: &[u8],
    choices: &[u8],
    observations: &mut [u8],
) -> RunNumbers
    ensures { NumbersOf (run_call table.now choices.now observations.old) result observations.new × Demand3Of table.now choices.now × ObservationsRead table.now choices.now observations.old × FinishesOf table.now choices.now }
{
    if let Err(fault) = table::header(table) {
        return early::header_run(u8::from(fault));
    }
    let r = calls::run(&table[0..], choices, observations);
    run_numbers(r)
}

// The schedule as passages of 16 bytes, laid over the front of the lent list.
#[unsafe(no_mangle)]
pub extern "C" fn timed_network_passages(table: &[u8], list: &mut [Passage]) -> CallNumbers
    ensures { (result.number ≡ number_of (passages_call table.now list.old).verdict) × (result.component ≡ concerned_of (passages_call table.now list.old).verdict) × (result.size ≡ (passages_call table.now list.old).size) × (list.new ≡ (passages_call table.now list.old).lent) }
{
    let c = passages::schedule_into(table, list);
    numbers_of(c)
}

// The verdict on the table, and which windows met where checks 10 to 12 refuse it.
#[unsafe(no_mangle)]
pub extern "C" fn timed_network_meetings(table: &[u8], list: &mut [u32]) -> MeetingsNumbers
    ensures { (result.number ≡ number_of (meetings_call table.now list.old).verdict) × (result.component ≡ concerned_of (meetings_call table.now list.old).verdict) × (result.refusal ≡ number_of (meetings_call table.now list.old).table) × (result.concerned ≡ concerned_of (meetings_call table.now list.old).table) × (result.size ≡ (meetings_call table.now list.old).size) × (list.new ≡ (meetings_call table.now list.old).lent) }
{
    if let Err(fault) = table::header(table) {
        return early::header_meetings(u8::from(fault));
    }
    let m = meetings::meetings(&table[0..], list);
    meetings_numbers(m)
}

// The registers at the start of the node's part.
#[unsafe(no_mangle)]
pub extern "C" fn timed_network_start(part: &[u8]) -> Node
    ensures { result ≡ start_of part.now }
{
    lent_node::start(part)
}

// One step on registers that are lent.
#[unsafe(no_mangle)]
pub extern "C" fn timed_network_step(node: &mut Node, part: &[u8], clocks: u8, variables: u8)
    ensures { node.new ≡ stepped_of part.now (held_of clocks variables) node.old }
{
    let next = lent_node::stepped(part, clocks, variables, *node);
    *node = next;
}

// A message on the channel, taken by registers that are lent.
#[unsafe(no_mangle)]
pub extern "C" fn timed_network_take_message(node: &mut Node, part: &[u8], channel: u8)
    ensures { node.new ≡ message_of part.now channel node.old }
{
    let heard = lent_node::message_taken(part, channel, *node);
    *node = heard;
}
