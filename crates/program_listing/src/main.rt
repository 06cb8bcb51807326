// Reads program bytes from standard input and prints them as a listing: the header, then for each node its counts and, block
// by block, its statements (document 01, 'The program').
//
// It takes any bytes. What a damaged program states and does not hold is said in a line of its own, and the listing goes on
// with what can still be read. The text is made and written line by line, since a damaged program's blocks may overlap: the
// lines are those of `listing_text`, in its order.
#![tactic(auto)]

ghost use Rattle.std.specs.Prelude.{◌≤◌, ◌<◌, length};
ghost use Rattle.listing_text.specs.ListingText.{blocks_of, code_at};

use std::io;

// The line at the front of out.
fn write_line(output: &impl Print, out: &[u8], n: usize) -> io::Result<()>
    requires { n ≤ length out.now }
{
    output.write_all(&out[..n])
}

// The statements of a block; the first that lies outside the part is the last.
fn list_statements(output: &impl Print, out: &mut [u8], part: &[u8], block: u32) -> io::Result<()>
    requires { (160 ≤ length out.old) × (code_at part.now ≤ length part.now) × (length part.now ≤ 65536) × (block < blocks_of part.now) }
{
    let statements = listing_text::statements_of(part);
    let start = listing_text::start_of(part, block);
    let end = listing_text::end_of(part, block);
    for place in start..end {
        let n = listing_text::put_place(out, part, place);
        write_line(output, out, n)?;
        if statements <= place {
            return Ok(());
        }
    }
    Ok(())
}

fn list_block(output: &impl Print, out: &mut [u8], part: &[u8], block: u32) -> io::Result<()>
    requires { (160 ≤ length out.old) × (code_at part.now ≤ length part.now) × (length part.now ≤ 65536) × (block < blocks_of part.now) }
{
    let n = listing_text::put_block_head(out, part, block);
    write_line(output, out, n)?;
    list_statements(output, out, part, block)
}

// The blocks, then the bytes that are no whole statement.
fn list_blocks(output: &impl Print, out: &mut [u8], part: &[u8]) -> io::Result<()>
    requires { (160 ≤ length out.old) × (code_at part.now ≤ length part.now) × (length part.now ≤ 65536) }
{
    let blocks = listing_text::blocks_of(part);
    for block in 0..blocks {
        list_block(output, out, part, block)?;
    }
    let n = listing_text::put_behind(out, part);
    write_line(output, out, n)
}

fn list_node(output: &impl Print, out: &mut [u8], node: u8, part: &[u8]) -> io::Result<()>
    requires { (160 ≤ length out.old) × (length part.now ≤ 65536) }
{
    let n = listing_text::put_node_head(out, u32::from(node), part);
    write_line(output, out, n)?;
    if part.len() < 6 {
        return Ok(());
    }
    if part.len() < listing_text::code_at(part) {
        return Ok(());
    }
    list_blocks(output, out, part)
}

fn list_nodes(output: &impl Print, out: &mut [u8], program: &[u8], nodes: u8) -> io::Result<()>
    requires { (160 ≤ length out.old) × (length program.now ≤ 65536) }
{
    for node in 0..nodes {
        list_node(output, out, node, calls::part(program, node))?;
    }
    Ok(())
}

fn list_program(output: &impl Print, out: &mut [u8], program: &[u8]) -> io::Result<()>
    requires { (160 ≤ length out.old) × (length program.now ≤ 65536) }
{
    let n = listing_text::put_program_head(out, program);
    write_line(output, out, n)?;
    if program.len() < 6 {
        return Ok(());
    }
    list_nodes(output, out, program, program[3])
}

fn main(rt: HostRuntime) {
    // One byte more than a program can state as its length, so that a longer input is seen.
    let mut input = [0u8; 65536];
    let n = streams::read_full(&mut rt.stdin(), &mut input);
    // The longest lines are those of a node: fewer than 160 bytes.
    let mut out = [0u8; 160];
    if list_program(&rt.stdout(), &mut out, &input[..n]).is_err() {
        streams::say_line(&rt.stderr(), "The listing could not be written.");
    }
}
