// One node: its registers, and what the statement at its program counter does to them (document 01, 'The program', last paragraph).
// Any bytes may be the node's part.
#![tactic(auto)]

pub mod candidate;

ghost use Rattle.std.specs.Prelude.{◌≡◌, true, ◌+◌, ◌-◌, ◌*◌, ◌≤◌, ◌<◌, ◌+ℤ◌, length, take, drop};
ghost use Rattle.std.proofs.Math.Option.{none};
ghost use Rattle.model.specs.Reader.{byte, word};
ghost use Rattle.model.specs.Window.{clock_at, value_at, in_range};
ghost use Rattle.model.specs.Machine.{block_place, statement_length};
ghost use Rattle.node.specs.declared.Counts.{Counts};
ghost use Rattle.node.specs.declared.Node.{Node};
ghost use Rattle.node.specs.Views.{Held, Within, op_in, Addable};
ghost use Rattle.node.specs.After.{trying, clock_tried, value_tried, effect, edge_taken, block_chosen, after};

use model::op;

// One past the last op, and what stands for the op where there is no statement to be carried out.
pub const BEYOND: u8 = 0x13;

pub const NOWHERE: u8 = 0xFF;

// How many clocks and variables the node has.
#[derive(Clone, Copy)]
pub struct Counts {
    pub clocks: u8,
    pub variables: u8,
}

// A trial: its ready delay, its end once it was lowered, and whether no bound failed. C has this type and the next two as they stand
// (`timed_network_node_trial`, `_kept` and `_registers` in include/timed_network.h), so that a flag stands beside a value.
#[repr(C)]
#[derive(Clone, Copy)]
pub struct Trial {
    pub ready: u16,
    pub ended: bool,
    pub end: u16,
    pub good: bool,
}

// The edge kept, if any.
#[repr(C)]
#[derive(Clone, Copy)]
pub struct Kept {
    pub some: bool,
    pub edge: u8,
    pub ready: u16,
    pub end: u16,
}

// The registers. pc is the place of the next statement in the node's part; goes is the location paired with the message taken, if one was.
#[repr(C)]
#[derive(Clone, Copy)]
pub struct Node {
    pub pc: usize,
    pub location: u8,
    pub clocks: [u64; 4],
    pub values: [i16; 4],
    pub t: u64,
    pub n: u16,
    pub d: u16,
    pub edge: u8,
    pub taken: bool,
    pub goes: u8,
    pub tried: Trial,
    pub kept: Kept,
    pub sleeps: u64,
}

pub fn wide64(number: u16) -> u64
    ensures { (result ≡ number) × (result < 65536) }
{
    number as u64
}

pub fn wide32(number: i16) -> i32
    ensures { result ≡ number }
{
    number as i32
}

// The byte at a place, 0 past the end.
pub fn byte_at(part: &[u8], i: usize) -> u8
    ensures { result ≡ byte part.now i }
{
    if i < part.len() { part[i] } else { 0 }
}

fn number_at(part: &[u8], i: usize) -> u16
    requires { i ≤ 65535 }
    ensures { result ≡ word part.now i }
{
    parts::wide16(byte_at(part, i)) * 256 + parts::wide16(byte_at(part, i + 1))
}

// The op of the statement at a place, 255 where there is none.
pub fn op_at(part: &[u8], at: usize) -> u8
    ensures { result ≡ op_in (drop at part.now) }
{
    if part.len() < 4 {
        return NOWHERE;
    }
    if part.len() - 4 < at {
        return NOWHERE;
    }
    let op = part[at];
    if op == op::PAIR {
        return NOWHERE;
    }
    if op < BEYOND { op } else { NOWHERE }
}

// Where block i starts.
pub fn block_place(part: &[u8], i: usize) -> usize
    requires { i ≤ 512 }
    ensures { result ≡ block_place part.now i }
{
    let head = 6 + (parts::wide(byte_at(part, 2)) + parts::wide(byte_at(part, 3))) * 2;
    head + (number_at(part, 6 + i * 2) as usize) * 4
}

// A clock, 0 for one that the node does not have.
fn clock_at(clocks: [u64; 4], count: u8, i: u8) -> u64
    requires { count ≤ 4 }
    ensures { result ≡ clock_at (take count clocks) i }
{
    if i < count { clocks[parts::wide(i)] } else { 0 }
}

pub fn value_at(values: [i16; 4], count: u8, i: u8) -> i16
    requires { count ≤ 4 }
    ensures { result ≡ value_at (take count values) i }
{
    if i < count { values[parts::wide(i)] } else { 0 }
}

// The trial after a bound on that clock: low (0B) or high (0C).
pub fn by_clock(statement: &[u8], trial: Trial, clock: u64) -> Trial
    requires { (4 ≤ length statement.now) × (11 ≤ byte statement.now 0) × (byte statement.now 0 ≤ 12) }
    ensures { result ≡ clock_tried statement.now trial clock }
{
    let bound = parts::word_at(statement, 2);
    if statement[0] == op::LOW {
        return candidate::raised(trial, bound, clock);
    }
    candidate::lowered(trial, bound, clock)
}

// The trial after a bound on that variable (0D or 0E).
pub fn by_value(statement: &[u8], trial: Trial, value: i16) -> Trial
    requires { (4 ≤ length statement.now) × (13 ≤ byte statement.now 0) × (byte statement.now 0 ≤ 14) }
    ensures { result ≡ value_tried statement.now trial value }
{
    let bound = decoder::signed_at(statement, 2);
    if statement[0] == op::DATA_LOW {
        return candidate::met(trial, bound <= value);
    }
    candidate::met(trial, value <= bound)
}

// The trial after a bound, by its op, or a new trial (0A).
fn tried(statement: &[u8], held: Counts, registers: Node) -> Trial
    requires { (4 ≤ length statement.now) × (10 ≤ byte statement.now 0) × (byte statement.now 0 ≤ 14) × Held held }
    ensures { trying registers result ≡ effect statement.now held registers }
{
    let op = statement[0];
    let a = statement[1];
    let trial = registers.tried;
    let clocks = registers.clocks;
    let values = registers.values;
    if op == op::TRIAL {
        return candidate::no_trial();
    }
    if op < op::DATA_LOW {
        return by_clock(statement, trial, clock_at(clocks, held.clocks, a));
    }
    by_value(statement, trial, value_at(values, held.variables, a))
}

// A statement of a trial (0A to 0F, and 12).
fn try_statement(statement: &[u8], held: Counts, registers: Node) -> Node
    requires { (4 ≤ length statement.now) × (10 ≤ byte statement.now 0) × (15 < byte statement.now 0 → byte statement.now 0 ≡ 18) × Held held }
    ensures { result ≡ effect statement.now held registers }
{
    let mut next = registers;
    if statement[0] == op::BUDGET {
        let budget = parts::word_at(statement, 2);
        let trial = registers.tried;
        let met = candidate::met(trial, candidate::spans(trial, budget));
        next.tried = met;
        return next;
    }
    if statement[0] == op::KEEP {
        let kept = candidate::keeps(registers.tried, statement[3], registers.kept);
        next.kept = kept;
    } else {
        let trial = tried(statement, held, registers);
        next.tried = trial;
    }
    next
}

// A sum that stays in range.
pub fn sum(value: i16, addend: i16) -> i16
    requires { in_range (value +ℤ addend) ≡ true }
    ensures { result ≡ value +ℤ addend }
{
    (wide32(value) + wide32(addend)) as i16
}

// Set (01) and add (02).
fn update_statement(statement: &[u8], held: Counts, registers: Node) -> Node
    requires { (4 ≤ length statement.now) × (1 ≤ byte statement.now 0) × (byte statement.now 0 ≤ 2) × Held held × Addable statement.now held registers }
    ensures { result ≡ effect statement.now held registers }
{
    let a = statement[1];
    if held.variables <= a {
        return registers;
    }
    let operand = decoder::signed_at(statement, 2);
    let mut values = registers.values;
    if statement[0] == op::SET {
        values[parts::wide(a)] = operand;
    } else {
        values[parts::wide(a)] = sum(values[parts::wide(a)], operand);
    }
    let mut next = registers;
    next.values = values;
    next
}

// Age (07) and zero (08).
fn clock_statement(statement: &[u8], held: Counts, registers: Node) -> Node
    requires { (4 ≤ length statement.now) × (7 ≤ byte statement.now 0) × (byte statement.now 0 ≤ 8) × Held held × Within 4000000000000000000 registers }
    ensures { result ≡ effect statement.now held registers }
{
    let a = statement[1];
    if held.clocks <= a {
        return registers;
    }
    let mut clocks = registers.clocks;
    if statement[0] == op::ZERO {
        clocks[parts::wide(a)] = 0;
    } else {
        clocks[parts::wide(a)] = clocks[parts::wide(a)]
            + (wide64(registers.n) + wide64(registers.d));
    }
    let mut next = registers;
    next.clocks = clocks;
    next
}

// Enter (09): the location, after a message the paired one.
fn enter_statement(statement: &[u8], held: Counts, registers: Node) -> Node
    requires { (4 ≤ length statement.now) × (byte statement.now 0 ≡ 9) }
    ensures { result ≡ effect statement.now held registers }
{
    let to = statement[3];
    let mut next = registers;
    if registers.taken {
        next.location = registers.goes;
    } else {
        next.location = to;
    }
    next.taken = false;
    next
}

// A statement of work or after it (00 to 09). Done, send and listen change no register.
fn work_statement(statement: &[u8], held: Counts, registers: Node) -> Node
    requires { (4 ≤ length statement.now) × (byte statement.now 0 ≤ 9) × Held held × Within 4000000000000000000 registers × Addable statement.now held registers }
    ensures { result ≡ effect statement.now held registers }
{
    let op = statement[0];
    if op == op::SLEEP {
        let mut next = registers;
        next.sleeps = registers.sleeps + 1;
        return next;
    }
    if op < op::DONE {
        return update_statement(statement, held, registers);
    }
    if op < op::AGE {
        return registers;
    }
    if op < op::ENTER {
        return clock_statement(statement, held, registers);
    }
    enter_statement(statement, held, registers)
}

// How many bytes the statement at the front has, a listen's pairs included.
pub fn statement_length(statement: &[u8]) -> usize
    requires { 4 ≤ length statement.now }
    ensures { (result ≡ statement_length statement.now) × (result ≤ 1024) }
{
    if statement[0] == op::LISTEN {
        return 4 + parts::wide(statement[1]) * 4;
    }
    4
}

// Take (10): t moves by the old d, then by the new ready delay; with nothing kept nothing changes.
fn take_edge(part: &[u8], registers: Node) -> Node
    requires { Within 4000000000000000000 registers }
    ensures { result ≡ edge_taken part.now registers }
{
    let kept = registers.kept;
    let mut next = registers;
    if !kept.some {
        return next;
    }
    next.pc = block_place(part, parts::wide(byte_at(part, 2)) + parts::wide(kept.edge));
    let d = candidate::left_of(kept.end, wide64(kept.ready));
    next.t = registers.t + wide64(registers.d) + wide64(kept.ready);
    next.n = kept.ready;
    next.d = d;
    next.edge = kept.edge;
    let nothing = Kept {
        some: false,
        edge: 0,
        ready: 0,
        end: 0,
    };
    next.kept = nothing;
    next
}

// Choose (11) goes to the present location's block.
fn choose_block(part: &[u8], registers: Node) -> Node
    ensures { result ≡ block_chosen part.now registers }
{
    let mut next = registers;
    next.pc = block_place(part, parts::wide(registers.location));
    next
}

// The registers after the statement at the program counter; as they are where there is none, and at a take with nothing kept.
pub fn finish(part: &[u8], held: Counts, registers: Node) -> Node
    requires { (length part.now ≤ 65535) × Held held × Within 4000000000000000000 registers × Addable (drop registers.pc part.now) held registers }
    ensures { result ≡ after part.now held registers }
{
    let op = op_at(part, registers.pc);
    if op == NOWHERE {
        return registers;
    }
    if op == op::TAKE {
        return take_edge(part, registers);
    }
    if op == op::CHOOSE {
        return choose_block(part, registers);
    }
    let at = registers.pc;
    let statement = &part[at..];
    let mut next = registers;
    next.pc = at + statement_length(statement);
    if op < op::TRIAL {
        return work_statement(statement, held, next);
    }
    try_statement(statement, held, next)
}
