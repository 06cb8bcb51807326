// The opening at which the schedule stops, in words.
#![tactic(auto)]

ghost use Rattle.std.specs.Prelude.{◌≡◌, List, ◌++◌, ℕ, ◌+◌, ◌≤◌, length};
ghost use Rattle.text.specs.Words.{Added};
ghost use Rattle.opening_text.specs.OpeningText.{enters_words, entry_words, edges_words, update_words, reason_words, opening_text};

use opening_place::RefusedOpening;
use text::{put, put_decimal, put_field};

// That the location is entered, or would be.
fn put_enters(out: &mut [u8], at: usize, number: u8) -> usize
    requires { at + 30 ≤ length out.old }
    ensures { Added out.old at (enters_words number) out.new result × (result ≤ at + 30) }
{
    if number == 7 {
        return put(out, at, b": it would enter location ");
    }
    put(out, at, b": it enters location ")
}

// The passage, and how it is entered.
fn put_entry(out: &mut [u8], at: usize, opening: RefusedOpening) -> usize
    requires { at + 110 ≤ length out.old }
    ensures { Added out.old at (entry_words opening) out.new result × (result ≤ at + 110) }
{
    let passage = put_field(out, at, b"Component ", opening.component as u32);
    let enters = put_field(out, passage, b", passage ", opening.passage);
    let location = put_enters(out, enters, opening.number);
    let tick = put_decimal(out, location, opening.location as u32);
    put_field(out, tick, b" at tick ", opening.tick)
}

// Why no edge is taken.
fn put_edges(out: &mut [u8], at: usize, opening: RefusedOpening) -> usize
    requires { at + 170 ≤ length out.old }
    ensures { Added out.old at (edges_words opening) out.new result × (result ≤ at + 170) }
{
    if opening.leaving == 0 {
        return put(out, at, b", which no edge leaves.\n");
    }
    let blocked = put_field(out, at, b". Edges that leave it: ", opening.leaving as u32);
    let windowless = put_field(
        out,
        blocked,
        b"; with a data bound that fails: ",
        opening.blocked as u32,
    );
    let stop = put_field(
        out,
        windowless,
        b"; of the others without a window of one tick's length, or of their budget: ",
        opening.windowless as u32,
    );
    put(out, stop, b".\n")
}

// The edge taken, and its update that leaves the range.
fn put_update(out: &mut [u8], at: usize, opening: RefusedOpening) -> usize
    requires { at + 80 ≤ length out.old }
    ensures { Added out.old at (update_words opening) out.new result × (result ≤ at + 80) }
{
    let update = put_field(out, at, b" and takes edge ", opening.edge as u32);
    let leaves = put_field(out, update, b", whose update ", opening.update as u32);
    put(out, leaves, b" leaves -32768 to 32767.\n")
}

// Why it is refused.
fn put_reason(out: &mut [u8], at: usize, opening: RefusedOpening) -> usize
    requires { at + 170 ≤ length out.old }
    ensures { Added out.old at (reason_words opening) out.new result × (result ≤ at + 170) }
{
    if opening.number == 8 {
        return put_edges(out, at, opening);
    }
    if opening.number == 9 {
        return put_update(out, at, opening);
    }
    put(out, at, b".\n")
}

// The whole line.
pub fn put_opening_text(out: &mut [u8], at: usize, opening: RefusedOpening) -> usize
    requires { at + 280 ≤ length out.old }
    ensures { Added out.old at (opening_text opening) out.new result × (result ≤ at + 280) }
{
    let reason = put_entry(out, at, opening);
    put_reason(out, reason, opening)
}
