// One node whose registers the caller keeps: its start, one step and a message taken, by value (document 01, 'The run': "one node's
// registers after the statement").
#![tactic(auto)]

ghost use Rattle.std.specs.Prelude.{◌≡◌};
ghost use Rattle.node.specs.After.{start_of};
ghost use Rattle.lent_node.specs.Step.{held_of, places_fit, registers_fit, may_step, stepped_of, message_of};

use model::op;
use node::{Counts, Node};

// Whether there is a place for each clock and variable.
fn places_fit(held: Counts) -> bool
    ensures { result ≡ places_fit held }
{
    parts::both(held.clocks <= 4, held.variables <= 4)
}

// Whether no register that grows is too high to grow further.
fn registers_fit(registers: Node) -> bool
    ensures { result ≡ registers_fit registers }
{
    let clocks = registers.clocks;
    let low = parts::both(
        clocks[0] <= 4000000000000000000,
        clocks[1] <= 4000000000000000000,
    );
    let high = parts::both(
        clocks[2] <= 4000000000000000000,
        clocks[3] <= 4000000000000000000,
    );
    let times = parts::both(
        registers.t <= 4000000000000000000,
        registers.sleeps <= 4000000000000000000,
    );
    parts::both(times, parts::both(low, high))
}

// Whether the statement at the program counter can be carried out.
fn may_step(part: &[u8], held: Counts, registers: Node) -> bool
    ensures { result ≡ may_step part.now held registers }
{
    if 65535 < part.len() {
        return false;
    }
    if !places_fit(held) {
        return false;
    }
    if !registers_fit(registers) {
        return false;
    }
    if node::op_at(part, registers.pc) == op::ADD {
        return stand::may_finish(part, held, registers, 0);
    }
    true
}

// The registers after the statement at the program counter of the node's part; the registers as they are if it cannot be carried out.
pub fn stepped(part: &[u8], clocks: u8, variables: u8, registers: Node) -> Node
    ensures { result ≡ stepped_of part.now (held_of clocks variables) registers }
{
    let held = Counts { clocks, variables };
    if may_step(part, held, registers) {
        return node::finish(part, held, registers);
    }
    registers
}

// The registers of a listener after a message on the channel; the registers as they are if the node does not listen on it.
pub fn message_taken(part: &[u8], channel: u8, registers: Node) -> Node
    ensures { result ≡ message_of part.now channel registers }
{
    if 65535 < part.len() {
        return registers;
    }
    if registers.taken {
        return registers;
    }
    if stand::names(part, registers.pc, channel) {
        return stand::take_message(part, registers, channel);
    }
    registers
}

// The registers at the start of the node's part.
pub fn start(part: &[u8]) -> Node
    ensures { result ≡ start_of part.now }
{
    stand::start_node(part)
}
