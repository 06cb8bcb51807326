// What a node stands at: the channels it listens on, whether it may finish its statement, when it is due and when it is late
// (document 01, 'The run').
#![tactic(auto)]

ghost use Rattle.std.specs.Prelude.{◌≡◌, List, ℕ, ◌+◌, ◌≤◌, eqb, ◌+ℤ◌, length, drop};
ghost use Rattle.model.specs.Lists.{any};
ghost use Rattle.model.specs.Reader.{word, complement};
ghost use Rattle.model.specs.Places.{list_at};
ghost use Rattle.model.specs.Window.{in_range, paired};
ghost use Rattle.model.specs.Machine.{pair_at};
ghost use Rattle.model.specs.Run.{stand_at, stand_of};
ghost use Rattle.node.specs.declared.Counts.{Counts};
ghost use Rattle.node.specs.declared.Node.{Node};
ghost use Rattle.node.specs.Views.{rest_at, node_of, Held, Within, op_in};
ghost use Rattle.node.specs.After.{listened, start_of};
ghost use Rattle.stand.specs.Stands.{may_finish, add_fits, due_tick, last_tick};

use model::op;
use node::{Counts, Kept, Node, Trial};

// A tick that no run reaches, nor one that lies later by an offset.
pub const NEVER: u64 = 9223372036854775807;

// Whether one of so many pairs from a place on has that channel. A `while`, here and below, and a number where there is none: a node's own
// processor gets this code by the rules of node/proved/retarget.awk, and these know no function of the library, and no pair by value.
fn lists_channel(part: &[u8], from: usize, count: u8, channel: u8) -> bool
    requires { from ≤ 65535 }
    ensures { result ≡ any (λ q. eqb q.channel channel) (list_at pair_at 4 count (drop from part.now)) }
{
    let mut at = from;
    let mut i = count;
    while 0 < i {
        if node::byte_at(part, at + 1) == channel {
            return true;
        }
        at += 4;
        i -= 1;
    }
    false
}

// The location of the first of so many pairs from a place on that has that channel, 0 where none has.
fn paired_location(part: &[u8], from: usize, count: u8, channel: u8) -> u8
    requires { from ≤ 65535 }
    ensures { result ≡ paired (list_at pair_at 4 count (drop from part.now)) channel 0 }
{
    let mut at = from;
    let mut i = count;
    while 0 < i {
        if node::byte_at(part, at + 1) == channel {
            return node::byte_at(part, at + 3);
        }
        at += 4;
        i -= 1;
    }
    0
}

// Whether the node stands at a listen that names the channel.
pub fn names(part: &[u8], at: usize, channel: u8) -> bool
    requires { length part.now ≤ 65535 }
    ensures { result ≡ Rattle.model.specs.Run.names channel (stand_at (rest_at part.now at)) }
{
    if node::op_at(part, at) == op::LISTEN {
        return lists_channel(part, at + 4, part[at + 1], channel);
    }
    false
}

// The listener's registers after a message on the channel: its statement is finished too, and enter will go to the paired location.
pub fn take_message(part: &[u8], registers: Node, channel: u8) -> Node
    requires { (length part.now ≤ 65535) × (op_in (drop registers.pc part.now) ≡ 5) }
    ensures { result ≡ listened part.now channel registers }
{
    let at = registers.pc;
    let location = paired_location(part, at + 4, part[at + 1], channel);
    let mut next = registers;
    next.pc = at + node::statement_length(&part[at..]);
    next.taken = true;
    next.goes = location;
    next
}

// Whether an addition to that value stays in range.
pub fn adds_in_range(statement: &[u8], value: i16) -> bool
    requires { 4 ≤ length statement.now }
    ensures { result ≡ in_range (value +ℤ complement (word statement.now 2)) }
{
    let sum = node::wide32(value) + node::wide32(decoder::signed_at(statement, 2));
    parts::both(-32768 <= sum, sum <= 32767)
}

// Whether a node may finish a statement of that op at that tick without another node; `kept` says whether an edge is kept, `fits` whether
// an addition stays in range.
pub fn may_by(op: u8, tick: u64, ready: u64, window: u16, kept: bool, fits: bool) -> bool
    requires { ready ≤ 4000000000000000000 }
    ensures { (part : List ℕ) (held : Counts) (registers : Node) → op ≡ op_in (drop registers.pc part) → ready ≡ registers.t → window ≡ registers.d → kept ≡ registers.kept.some → (op ≡ 2 → fits ≡ add_fits part held registers) → result ≡ may_finish tick (node_of part held registers) (stand_of (node_of part held registers)) }
{
    if op == op::SLEEP {
        return tick == ready;
    }
    if op == op::LISTEN {
        return tick == ready + node::wide64(window);
    }
    if op == op::ADD {
        return fits;
    }
    if op == op::TAKE {
        return kept;
    }
    if op == op::SEND {
        return false;
    }
    op != node::NOWHERE
}

// The tick at which a node is due that stands at that op.
pub fn due_by(op: u8, ready: u64, window: u16) -> u64
    requires { ready ≤ 4000000000000000000 }
    ensures { (part : List ℕ) (held : Counts) (registers : Node) → op ≡ op_in (drop registers.pc part) → ready ≡ registers.t → window ≡ registers.d → result ≡ due_tick (node_of part held registers) (stand_of (node_of part held registers)) }
{
    if op::LISTEN < op {
        return NEVER;
    }
    if op == op::SLEEP {
        return ready;
    }
    if op == op::LISTEN {
        return ready + node::wide64(window);
    }
    NEVER
}

// The last tick before a node is late that stands at that op; its next passage is ready at `next`.
pub fn last_by(op: u8, ready: u64, window: u16, next: u64) -> u64
    requires { ready ≤ 4000000000000000000 }
    ensures { (part : List ℕ) (held : Counts) (registers : Node) → op ≡ op_in (drop registers.pc part) → ready ≡ registers.t → window ≡ registers.d → result ≡ last_tick (node_of part held registers) next (stand_of (node_of part held registers)) }
{
    if op::LISTEN < op {
        return next;
    }
    if op == op::SLEEP {
        return NEVER;
    }
    ready + node::wide64(window)
}

// Whether the node may finish its statement at that tick without another node.
pub fn may_finish(part: &[u8], held: Counts, registers: Node, tick: u64) -> bool
    requires { (length part.now ≤ 65535) × Held held × Within 4000000000000000000 registers }
    ensures { result ≡ may_finish tick (node_of part.now held registers) (stand_of (node_of part.now held registers)) }
{
    let op = node::op_at(part, registers.pc);
    let kept = registers.kept;
    if op == op::ADD {
        let at = registers.pc;
        let values = registers.values;
        let value = node::value_at(values, held.variables, part[at + 1]);
        let fits = adds_in_range(&part[at..], value);
        return may_by(op, tick, registers.t, registers.d, kept.some, fits);
    }
    may_by(op, tick, registers.t, registers.d, kept.some, true)
}

// A node at its program's start: in the initial location's block, all else 0.
pub fn start_node(part: &[u8]) -> Node
    ensures { result ≡ start_of part.now }
{
    let location = node::byte_at(part, 4);
    let clocks = [0u64; 4];
    let values = [0i16; 4];
    let tried = Trial {
        ready: 0,
        ended: false,
        end: 0,
        good: true,
    };
    let kept = Kept {
        some: false,
        edge: 0,
        ready: 0,
        end: 0,
    };
    Node {
        pc: node::block_place(part, location as usize),
        location,
        clocks,
        values,
        t: 0,
        n: 0,
        d: 0,
        edge: 0,
        taken: false,
        goes: 0,
        tried,
        kept,
        sleeps: 0,
    }
}
