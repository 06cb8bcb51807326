// The other lines of a listing: the header, a node, a block, and what is missing or out of place.
ghost use Rattle.std.specs.Prelude.{◌≡◌, List, ◌++◌, ℕ, ◌+◌, ◌*◌, ◌≤◌, ◌<◌, length};
ghost use Rattle.text.specs.Words.{Added};
ghost use Rattle.listing_text.specs.ListingText.{blocks_of, code_at, statements_of, start_of, end_of, place_text, block_name, block_head, behind, counts, node_head, header, other_length, program_head};

use crate::statement::put_statement;
use text::{put, put_field};

pub fn blocks_of(part: &[u8]) -> u32
    requires { 6 ≤ length part.now }
    ensures { (result ≡ blocks_of part.now) × (result ≤ 510) }
{
    u32::from(part[2]) + u32::from(part[3])
}

// Where the statements start.
pub fn code_at(part: &[u8]) -> usize
    requires { 6 ≤ length part.now }
    ensures { (result ≡ code_at part.now) × (result ≤ 1026) }
{
    let blocks = blocks_of(part) as usize;
    6 + 2 * blocks
}

// How many there are.
pub fn statements_of(part: &[u8]) -> u32
    requires { (code_at part.now ≤ length part.now) × (length part.now ≤ 65536) }
    ensures { (result ≡ statements_of part.now) × (result < 65536) }
{
    let code = code_at(part);
    ((part.len() - code) / 4) as u32
}

pub fn start_of(part: &[u8], block: u32) -> u32
    requires { (code_at part.now ≤ length part.now) × (block < blocks_of part.now) }
    ensures { (result ≡ start_of part.now block) × (result < 65536) }
{
    parts::word_at(part, 6 + 2 * (block as usize)) as u32
}

// A block reaches to the start of the next, the last to the end of the part.
pub fn end_of(part: &[u8], block: u32) -> u32
    requires { (code_at part.now ≤ length part.now) × (length part.now ≤ 65536) × (block < blocks_of part.now) }
    ensures { (result ≡ end_of part.now block) × (result < 65536) }
{
    if block + 1 < blocks_of(part) {
        start_of(part, block + 1)
    } else {
        statements_of(part)
    }
}

// The statement at a place, or that the rest of the block lies outside.
pub fn put_place(out: &mut [u8], part: &[u8], place: u32) -> usize
    requires { (77 ≤ length out.old) × (code_at part.now ≤ length part.now) × (length part.now ≤ 65536) }
    ensures { Added out.old 0 (place_text part.now place) out.new result × (result ≤ 77) }
{
    let statements = statements_of(part);
    let code = code_at(part);
    if place < statements {
        let from = code + 4 * (place as usize);
        return put_statement(out, place, part, from);
    }
    put(
        out,
        0,
        b"      the rest of the block lies outside the node's part\n",
    )
}

// Locations first, then edges.
fn put_block_name(out: &mut [u8], part: &[u8], block: u32) -> usize
    requires { (30 ≤ length out.old) × (6 ≤ length part.now) }
    ensures { Added out.old 0 (block_name part.now block) out.new result × (result ≤ 30) }
{
    let locations = u32::from(part[2]);
    if block < locations {
        put_field(out, 0, b"  location ", block)
    } else {
        put_field(out, 0, b"  edge ", block - locations)
    }
}

pub fn put_block_head(out: &mut [u8], part: &[u8], block: u32) -> usize
    requires { (130 ≤ length out.old) × (code_at part.now ≤ length part.now) × (length part.now ≤ 65536) × (block < blocks_of part.now) }
    ensures { Added out.old 0 (block_head part.now block) out.new result × (result ≤ 130) }
{
    let start = start_of(part, block);
    let end = end_of(part, block);
    let from = put_block_name(out, part, block);
    let line = put_field(out, from, b", from statement ", start);
    let last = put(out, line, b"\n");
    if start < end {
        return last;
    }
    put(
        out,
        last,
        b"      no statement: the block ends where it starts, or before\n",
    )
}

// The bytes that are no whole statement.
pub fn put_behind(out: &mut [u8], part: &[u8]) -> usize
    requires { (130 ≤ length out.old) × (code_at part.now ≤ length part.now) }
    ensures { Added out.old 0 (behind part.now) out.new result × (result ≤ 130) }
{
    let code = code_at(part);
    let n = (part.len() - code) % 4;
    if n == 0 {
        return 0;
    }
    let last = put_field(
        out,
        0,
        b"  bytes behind the last whole statement: ",
        n as u32,
    );
    put(out, last, b"\n")
}

// Length, locations, edges and initial location.
fn put_counts(out: &mut [u8], at: usize, part: &[u8]) -> usize
    requires { (at + 90 ≤ length out.old) × (6 ≤ length part.now) × (length part.now ≤ 65536) }
    ensures { Added out.old at (counts part.now) out.new result × (result ≤ at + 90) }
{
    let locations = put_field(out, at, b": length ", part.len() as u32);
    let edges = put_field(out, locations, b", locations ", u32::from(part[2]));
    let initial = put_field(out, edges, b", edges ", u32::from(part[3]));
    let last = put_field(out, initial, b", initial location ", u32::from(part[4]));
    put(out, last, b"\n")
}

pub fn put_node_head(out: &mut [u8], node: u32, part: &[u8]) -> usize
    requires { (160 ≤ length out.old) × (length part.now ≤ 65536) }
    ensures { Added out.old 0 (node_head node part.now) out.new result × (result ≤ 160) }
{
    let colon = put_field(out, 0, b"node ", node);
    if part.len() < 6 {
        return put(
            out,
            colon,
            b": its part lies outside the bytes, or has fewer than 6\n",
        );
    }
    let last = put_counts(out, colon, part);
    if part.len() < code_at(part) {
        return put(
            out,
            last,
            b"  the starts of its blocks lie outside its part\n",
        );
    }
    last
}

// Version, length, nodes and horizon.
fn put_header(out: &mut [u8], program: &[u8]) -> usize
    requires { (90 ≤ length out.old) × (6 ≤ length program.now) }
    ensures { Added out.old 0 (header program.now) out.new result × (result ≤ 90) }
{
    let long = parts::word_at(program, 1) as u32;
    let horizon = parts::word_at(program, 4) as u32;
    let second = put_field(out, 0, b"version ", u32::from(program[0]));
    let third = put_field(out, second, b", length ", long);
    let fourth = put_field(out, third, b", nodes ", u32::from(program[3]));
    let last = put_field(out, fourth, b", horizon ", horizon);
    put(out, last, b"\n")
}

fn put_other_length(out: &mut [u8], at: usize, program: &[u8]) -> usize
    requires { (at + 70 ≤ length out.old) × (6 ≤ length program.now) × (length program.now ≤ 65536) }
    ensures { Added out.old at (other_length program.now) out.new result × (result ≤ at + 70) }
{
    let stated = parts::word_at(program, 1) as usize;
    if stated == program.len() {
        return at;
    }
    let last = put_field(
        out,
        at,
        b"the length is not that of the bytes read: ",
        program.len() as u32,
    );
    put(out, last, b"\n")
}

pub fn put_program_head(out: &mut [u8], program: &[u8]) -> usize
    requires { (160 ≤ length out.old) × (length program.now ≤ 65536) }
    ensures { Added out.old 0 (program_head program.now) out.new result × (result ≤ 160) }
{
    if program.len() < 6 {
        return put(out, 0, b"the header lies outside the bytes\n");
    }
    let last = put_header(out, program);
    put_other_length(out, last, program)
}
