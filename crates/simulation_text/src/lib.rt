// Simulated runs in words: how many there were, how many of them ended late, in all and of each node, and the generator afterwards.
#![tactic(auto)]

ghost use Rattle.std.specs.Prelude.{◌≡◌, List, ℕ, ◌+◌, ◌*◌, ◌≤◌, ◌<◌, length};
ghost use Rattle.text.specs.Words.{Added};
ghost use Rattle.simulation_text.specs.SimulationText.{node_line, node_lines, simulation_text};

use text::{put, put_field};

// The late runs of one node.
fn put_node(out: &mut [u8], at: usize, node: u32, late: u32) -> usize
    requires { at + 28 ≤ length out.old }
    ensures { Added out.old at (node_line node late) out.new result × (result ≤ at + 28) }
{
    let colon = put_field(out, at, b"node ", node);
    let last = put_field(out, colon, b": ", late);
    put(out, last, b"\n")
}

// Those of each node.
fn put_nodes(out: &mut [u8], at: usize, nodes: [u32; 8], count: usize) -> usize
    requires { (at + count * 28 ≤ length out.old) × (count ≤ 8) }
    ensures { Added out.old at (node_lines nodes count) out.new result × (result ≤ at + count * 28) }
{
    let mut end = at;
    for c in 0..count {
        end = put_node(out, end, c as u32, nodes[c]);
    }
    end
}

// So many runs of so many nodes.
pub fn put_simulation(
    out: &mut [u8],
    count: usize,
    runs: u32,
    late: u32,
    nodes: [u32; 8],
    state: u32,
) -> usize
    requires { (300 ≤ length out.old) × (count ≤ 8) }
    ensures { Added out.old 0 (simulation_text count runs late nodes state) out.new result × (result ≤ 300) }
{
    let second = put_field(out, 0, b"runs ", runs);
    let end = put_field(out, second, b"\nlate ", late);
    let lines = put(out, end, b"\n");
    let generator = put_nodes(out, lines, nodes, count);
    let last = put_field(out, generator, b"generator ", state);
    put(out, last, b"\n")
}
