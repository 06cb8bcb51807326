// A schedule as a text, from passages, written into a lent slice.
// A slice with a place beside it, and no string: there is no heap.
#![tactic(auto, using(text::proofs::Appended::next))]

ghost use Rattle.std.specs.Prelude.{◌≡◌, List, ◌++◌, map, ℕ, ◌+◌, ◌*◌, ◌≤◌, length, take};
ghost use Rattle.rows.specs.Rows.{message_of};
ghost use Rattle.text.specs.Words.{Added};
ghost use Rattle.schedule_text.specs.ScheduleText.{place_text, ticks_text, message_text, passage_line, schedule_text, shown};

use passages::Passage;
use text::{put, put_decimal, put_field};

// A message after a blank, - for none.
fn put_message(out: &mut [u8], at: usize, message: u32) -> usize
    requires { at + 11 ≤ length out.old }
    ensures { Added out.old at (message_text (message_of message)) out.new result × (result ≤ at + 11) }
{
    if message == 255 {
        put(out, at, b" -")
    } else {
        put_field(out, at, b" ", message)
    }
}

// Component, edge and location.
fn put_place(out: &mut [u8], at: usize, p: Passage) -> usize
    requires { at + 32 ≤ length out.old }
    ensures { Added out.old at (place_text (shown p)) out.new result × (result ≤ at + 32) }
{
    let edge = put_decimal(out, at, u32::from(p.component));
    let location = put_field(out, edge, b" ", u32::from(p.edge));
    put_field(out, location, b" ", u32::from(p.location))
}

// Entry, ready and end.
fn put_ticks(out: &mut [u8], at: usize, p: Passage) -> usize
    requires { at + 33 ≤ length out.old }
    ensures { Added out.old at (ticks_text (shown p)) out.new result × (result ≤ at + 33) }
{
    let ready = put_field(out, at, b" ", p.entry);
    let end = put_field(out, ready, b" ", p.ready);
    put_field(out, end, b" ", p.end)
}

// The seven fields.
#[tactic(auto, using(text::proofs::Appended::next), unfolding(crate::specs::ScheduleText::passage_line))]
pub fn put_passage(out: &mut [u8], at: usize, p: Passage) -> usize
    requires { at + 77 ≤ length out.old }
    ensures { Added out.old at (passage_line (shown p)) out.new result × (result ≤ at + 77) }
{
    let ticks = put_place(out, at, p);
    let message = put_ticks(out, ticks, p);
    let last = put_message(out, message, u32::from(p.message));
    put(out, last, b"\n")
}

// The passages, a line a passage, at the front of out.
pub fn put_schedule(out: &mut [u8], passages: &[Passage]) -> usize
    requires { 26 + length passages.now * 77 ≤ length out.old }
    ensures { (take result out.new ≡ schedule_text (map shown passages.now)) × (result ≤ 26 + length passages.now * 77) }
{
    let mut at = put(out, 0, b"c e l entry ready end msg\n");
    for passage in passages {
        at = put_passage(out, at, *passage);
    }
    at
}
