// The 36 bytes of an observation (document 01, 'The run'; document 02, wish 9).
#![tactic(auto)]

ghost use Rattle.std.specs.Prelude.{◌≡◌, cond, List, [], ◌∷◌, map, ℕ, ◌+◌, ◌≤◌, ◌<◌, pos, length, take};
ghost use Rattle.std.proofs.lemmas.List.Edits.{sets};
ghost use Rattle.model.specs.Lists.{All, each, be16};
ghost use Rattle.model.specs.Bytes.{unsigned};
ghost use Rattle.model.specs.Run.{be32, four, observes, observation_bytes, observation_width, written_bytes};
ghost use Rattle.node.specs.Views.{node_of, Held, Within};

use model::layout;
use node::{Counts, Node};

fn put_quad(out: &mut [u8], at: usize, first: u8, second: u8, third: u8, fourth: u8)
    requires { at + 4 ≤ length out.old }
    ensures { out.new ≡ sets out.old at (first ∷ second ∷ third ∷ fourth ∷ []) }
{
    out[at] = first;
    out[at + 1] = second;
    out[at + 2] = third;
    out[at + 3] = fourth;
}

// Four bytes of a number.
fn put32(out: &mut [u8], at: usize, number: u64)
    requires { at + 4 ≤ length out.old }
    ensures { out.new ≡ sets out.old at (be32 number) }
{
    let first = (number / 16777216 % 256) as u8;
    let second = (number / 65536 % 256) as u8;
    let third = (number / 256 % 256) as u8;
    let fourth = (number % 256) as u8;
    put_quad(out, at, first, second, third, fourth);
}

// A signed number's two's complement.
fn complement(value: i16) -> u16
    ensures { result ≡ unsigned value }
{
    if value < 0 {
        return ((value as i32) + 65536) as u16;
    }
    value as u16
}

// Two bytes of a number.
fn put16(out: &mut [u8], at: usize, number: u16)
    requires { at + 2 ≤ length out.old }
    ensures { out.new ≡ sets out.old at (be16 number) }
{
    out[at] = (number / 256) as u8;
    out[at + 1] = (number % 256) as u8;
}

// A clock grown by the ready delay, 0 if the node does not have it.
fn grown(there: bool, clock: u64, delay: u16) -> u64
    requires { clock ≤ 4000000000000000000 }
    ensures { result ≡ cond there (clock + delay) 0 }
{
    if there {
        clock + node::wide64(delay)
    } else {
        0
    }
}

// The four clocks, of which the node has so many.
fn put_clocks(clocks: [u64; 4], delay: u16, count: u8, out: &mut [u8], at: usize)
    requires { (at + 16 ≤ length out.old) × (count ≤ 4) × All (λ x. x ≤ 4000000000000000000) clocks }
    ensures { out.new ≡ sets out.old at (each be32 (four 0 (map (λ x. x + delay) (take count clocks)))) }
{
    put32(out, at, grown(0 < count, clocks[0], delay));
    put32(out, at + 4, grown(1 < count, clocks[1], delay));
    put32(out, at + 8, grown(2 < count, clocks[2], delay));
    put32(out, at + 12, grown(3 < count, clocks[3], delay));
}

// A variable's two's complement, 0 if the node does not have it.
fn held_value(there: bool, value: i16) -> u16
    ensures { result ≡ unsigned (cond there value (pos 0)) }
{
    if there { complement(value) } else { 0 }
}

// The four variables, of which the node has so many.
fn put_values(values: [i16; 4], count: u8, out: &mut [u8], at: usize)
    requires { (at + 8 ≤ length out.old) × (count ≤ 4) }
    ensures { out.new ≡ sets out.old at (each (λ z. be16 (unsigned z)) (four (pos 0) (take count values))) }
{
    put16(out, at, held_value(0 < count, values[0]));
    put16(out, at + 2, held_value(1 < count, values[1]));
    put16(out, at + 4, held_value(2 < count, values[2]));
    put16(out, at + 6, held_value(3 < count, values[3]));
}

// The observation of node c, which stands at its sleep at that tick, without its last number: the first 32 bytes.
fn put_observation(registers: Node, held: Counts, c: u8, tick: u64, out: &mut [u8], at: usize)
    requires { (at + 32 ≤ length out.old) × Held held × Within 4000000000000000000 registers }
    ensures { (part : List ℕ) → out.new ≡ sets out.old at (observation_bytes (observes c tick (node_of part held registers))) }
{
    let clocks = registers.clocks;
    let values = registers.values;
    put_quad(out, at, c, registers.edge, registers.location, 0);
    put32(out, at + 4, tick);
    put_clocks(clocks, registers.n, held.clocks, out, at + 8);
    put_values(values, held.variables, out, at + 24);
}

// The observation of node c, which stands at its sleep at that tick and finished its previous work at the other.
pub fn put_written(
    registers: Node,
    held: Counts,
    c: u8,
    tick: u64,
    previous: u64,
    out: &mut [u8],
    at: usize,
)
    requires { (at + observation_width ≤ length out.old) × Held held × Within 4000000000000000000 registers }
    ensures { (part : List ℕ) → out.new ≡ sets out.old at (written_bytes (record { observation = observes c tick (node_of part held registers); previous = previous })) }
{
    put_observation(registers, held, c, tick, out, at);
    put32(out, at + layout::OBSERVATION_PREVIOUS, previous);
}
