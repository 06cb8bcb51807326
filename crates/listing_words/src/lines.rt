// The lines of a listing, put into a lent slice from a place on: each is made by `listing_text` in an array of its own. What lies past the slice's
// end is not stored, and counted all the same. Each function answers the place behind.
ghost use Rattle.std.specs.Prelude.{◌+◌, ◌≤◌, ◌<◌, length, take};
ghost use Rattle.blocks.specs.Put.{Put};
ghost use Rattle.listing_text.specs.ListingText.{blocks_of, code_at, place_text, block_head, behind, node_head, program_head};

// No line, or two that belong together, is longer.
const LINE: usize = 160;

// The bytes at the front of a line.
fn put_line(out: &mut [u8], at: usize, line: &[u8], n: usize) -> usize
    requires { (n ≤ length line.now) × (n ≤ 160) × (at ≤ 1000000000000000000) }
    ensures { Put out.old at (take n line.now) result out.new × (result ≤ at + 160) }
{
    words::put_words(out, at, &line[0..n])
}

// A statement, or that the rest of the block lies outside.
pub fn put_place(out: &mut [u8], at: usize, part: &[u8], place: u32) -> usize
    requires { (code_at part.now ≤ length part.now) × (length part.now ≤ 65536) × (at ≤ 1000000000000000000) }
    ensures { Put out.old at (place_text part.now place) result out.new × (result ≤ at + 160) }
{
    let mut line = [0u8; LINE];
    let n = listing_text::put_place(&mut line, part, place);
    put_line(out, at, &line, n)
}

// The name of a block and where it starts, and that it has no statement.
pub fn put_block_head(out: &mut [u8], at: usize, part: &[u8], block: u32) -> usize
    requires { (code_at part.now ≤ length part.now) × (length part.now ≤ 65536) × (block < blocks_of part.now) × (at ≤ 1000000000000000000) }
    ensures { Put out.old at (block_head part.now block) result out.new × (result ≤ at + 160) }
{
    let mut line = [0u8; LINE];
    let n = listing_text::put_block_head(&mut line, part, block);
    put_line(out, at, &line, n)
}

// The bytes that are no whole statement.
pub fn put_behind(out: &mut [u8], at: usize, part: &[u8]) -> usize
    requires { (code_at part.now ≤ length part.now) × (at ≤ 1000000000000000000) }
    ensures { Put out.old at (behind part.now) result out.new × (result ≤ at + 160) }
{
    let mut line = [0u8; LINE];
    let n = listing_text::put_behind(&mut line, part);
    put_line(out, at, &line, n)
}

// A node with its counts, or what its part does not hold.
pub fn put_node_head(out: &mut [u8], at: usize, node: u32, part: &[u8]) -> usize
    requires { (length part.now ≤ 65536) × (at ≤ 1000000000000000000) }
    ensures { Put out.old at (node_head node part.now) result out.new × (result ≤ at + 160) }
{
    let mut line = [0u8; LINE];
    let n = listing_text::put_node_head(&mut line, node, part);
    put_line(out, at, &line, n)
}

// The header, and that the length is another one.
pub fn put_program_head(out: &mut [u8], at: usize, program: &[u8]) -> usize
    requires { (length program.now ≤ 65536) × (at ≤ 1000000000000000000) }
    ensures { Put out.old at (program_head program.now) result out.new × (result ≤ at + 160) }
{
    let mut line = [0u8; LINE];
    let n = listing_text::put_program_head(&mut line, program);
    put_line(out, at, &line, n)
}
