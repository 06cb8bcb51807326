// A program's listing, whole: the lines of `listing_text` in the definition's order, put into a lent slice. What lies past its end is not stored, and
// counted all the same: an empty slice counts. Each function answers the place behind. A slice with a place beside it, and no string: there is no heap.
#![tactic(auto)]

ghost use Rattle.std.specs.Prelude.{◌++◌, ◌+◌, ◌-◌, ◌≤◌, ◌<◌, length};
ghost use Rattle.blocks.specs.Put.{Put};
ghost use Rattle.listing_text.specs.ListingText.{blocks_of, code_at, start_of, end_of, statements_text, block_head, blocks_text, node_text, nodes_text, listing_text};

mod lines;

// The statements from a place up to another one; the first that lies outside the part is the last.
fn put_statements(out: &mut [u8], at: usize, part: &[u8], start: u32, end: u32) -> usize
    requires { (code_at part.now ≤ length part.now) × (length part.now ≤ 65536) × (end < 65536) × (at ≤ 900000000000000000) }
    ensures { Put out.old at (statements_text part.now start (end - start)) result out.new × (result ≤ at + 10485600) }
{
    let statements = listing_text::statements_of(part);
    let mut next = at;
    for place in start..end {
        next = lines::put_place(out, next, part, place);
        if statements <= place {
            return next;
        }
    }
    next
}

// A block: its name, and its statements.
fn put_block(out: &mut [u8], at: usize, part: &[u8], block: u32) -> usize
    requires { (code_at part.now ≤ length part.now) × (length part.now ≤ 65536) × (block < blocks_of part.now) × (at ≤ 800000000000000000) }
    ensures { Put out.old at (block_head part.now block ++ statements_text part.now (start_of part.now block) (end_of part.now block - start_of part.now block)) result out.new × (result ≤ at + 10485760) }
{
    let start = listing_text::start_of(part, block);
    let end = listing_text::end_of(part, block);
    let next = lines::put_block_head(out, at, part, block);
    put_statements(out, next, part, start, end)
}

// The blocks, then the bytes that are no whole statement.
fn put_blocks(out: &mut [u8], at: usize, part: &[u8]) -> usize
    requires { (code_at part.now ≤ length part.now) × (length part.now ≤ 65536) × (at ≤ 700000000000000000) }
    ensures { Put out.old at (blocks_text part.now 0 (blocks_of part.now)) result out.new × (result ≤ at + 5347737760) }
{
    let blocks = listing_text::blocks_of(part);
    let mut next = at;
    for block in 0..blocks {
        next = put_block(out, next, part, block);
    }
    lines::put_behind(out, next, part)
}

fn put_node(out: &mut [u8], at: usize, node: u32, part: &[u8]) -> usize
    requires { (length part.now ≤ 65536) × (at ≤ 600000000000000000) }
    ensures { Put out.old at (node_text node part.now) result out.new × (result ≤ at + 5347737920) }
{
    let next = lines::put_node_head(out, at, node, part);
    if part.len() < 6 {
        return next;
    }
    if part.len() < listing_text::code_at(part) {
        return next;
    }
    put_blocks(out, next, part)
}

fn put_nodes(out: &mut [u8], at: usize, program: &[u8], nodes: u8) -> usize
    requires { (length program.now ≤ 65536) × (at ≤ 500000000000000000) }
    ensures { Put out.old at (nodes_text program.now 0 nodes) result out.new }
{
    let mut next = at;
    for node in 0..nodes {
        next = put_node(out, next, u32::from(node), program::part(program, node));
    }
    next
}

// The listing at the front of the bytes lent.
pub fn put_listing(out: &mut [u8], program: &[u8]) -> usize
    requires { length program.now ≤ 65536 }
    ensures { Put out.old 0 (listing_text program.now) result out.new }
{
    let next = lines::put_program_head(out, 0, program);
    if program.len() < 6 {
        return next;
    }
    put_nodes(out, next, program, program[3])
}
