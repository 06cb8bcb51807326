// Document 02, wish 6: the offsets of the nodes, where any is not 0.
ghost use Rattle.std.specs.Prelude.{◌≡◌, map, ◌++◌, ◌+◌, ◌*◌, ◌≤◌, ◌<◌, length};
ghost use Rattle.model.specs.Lists.{below};
ghost use Rattle.model.specs.Run.{offset_in};
ghost use Rattle.model.specs.Calls.{offsets_fine};
ghost use Rattle.text.specs.Words.{ascii, Added};
ghost use Rattle.run_text.specs.RunText.{listed, offsets_text};

use text::{put, put_field};

// The offset of node c, 0 where none is handed.
fn offset_of(offsets: &[u32], c: usize) -> u32
    ensures { result ≡ offset_in offsets.now c }
{
    offsets.get(c).copied().unwrap_or(0)
}

// Whether no offset of so many nodes is above 0.
fn is_together(offsets: &[u32], nodes: usize) -> bool
    ensures { result ≡ offsets_fine 0 nodes offsets.now }
{
    (0..nodes).all(|c| offset_of(offsets, c) == 0)
}

// The offsets of so many nodes, with commas between.
fn put_listed(out: &mut [u8], at: usize, offsets: &[u32], nodes: usize) -> usize
    requires { (at + 7 + nodes * 12 ≤ length out.old) × (0 < nodes) }
    ensures { Added out.old at (ascii "offsets: " ++ listed (map (offset_in offsets.now) (below nodes))) out.new result × (result ≤ at + 7 + nodes * 12) }
{
    let mut end = put_field(out, at, b"offsets: ", offset_of(offsets, 0));
    for c in 1..nodes {
        end = put_field(out, end, b", ", offset_of(offsets, c));
    }
    end
}

// A line with them and what they mean; nothing where all are 0.
pub fn put_offsets(out: &mut [u8], at: usize, offsets: &[u32], nodes: usize) -> usize
    requires { at + 72 + nodes * 12 ≤ length out.old }
    ensures { Added out.old at (offsets_text nodes offsets.now) out.new result × (result ≤ at + 72 + nodes * 12) }
{
    if is_together(offsets, nodes) {
        return at;
    }
    let end = put_listed(out, at, offsets, nodes);
    put(
        out,
        end,
        b" (a node's tick is by its own clock, which starts at its offset)\n",
    )
}
