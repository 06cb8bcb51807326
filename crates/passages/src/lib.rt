// The schedule as a lent list of passages. The contract equates the answer, and the whole list afterwards, with the call's
// definition in specs/Passages.antt, for all inputs. The work is done by value; two thin functions write to the list, and one
// lends a list of its own.
#![tactic(auto)]

ghost use Rattle.std.specs.Prelude.{◌≡◌, ℕ, ◌+◌, ◌*◌, ◌≤◌, ◌<◌, length, replicate};
ghost use Rattle.model.specs.declared.Verdict.TheVariants.{Refused};
ghost use Rattle.passages.specs.Passages.{passages_call};
ghost use Rattle.passages.specs.Copied.{blank, copied};
ghost use Rattle.passages.specs.Planned.{from_seven, Small, SmallRows, Laid, Plans};

use calls::Called;
use model::{Verdict, layout};

// A passage: its seven fields, 255 for no message.
#[repr(C)]
#[derive(Clone, Copy)]
pub struct Passage {
    pub component: u8,
    pub edge: u8,
    pub location: u8,
    pub message: u8,
    pub entry: u32,
    pub ready: u32,
    pub end: u32,
}

// What a call is to answer and to write: the first `count` of the items.
#[derive(Clone, Copy)]
pub struct Planned {
    pub items: [Passage; 1024],
    pub count: usize,
    pub verdict: Verdict,
}

// One passage from its seven numbers.
fn passage_at(numbers: &[u32], i: usize) -> Passage
    requires { (i * 7 + 7 ≤ length numbers.now) × (i ≤ 1024) × Small numbers.now i }
    ensures { result ≡ from_seven numbers.now i }
{
    let at = i * layout::PASSAGE_WIDTH;
    let component = numbers[at];
    let edge = numbers[at + layout::PASSAGE_EDGE];
    let location = numbers[at + layout::PASSAGE_LOCATION];
    let message = numbers[at + layout::PASSAGE_MESSAGE];
    Passage {
        component: component as u8,
        edge: edge as u8,
        location: location as u8,
        message: message as u8,
        entry: numbers[at + layout::PASSAGE_ENTRY],
        ready: numbers[at + layout::PASSAGE_READY],
        end: numbers[at + layout::PASSAGE_END],
    }
}

// A list in which nothing was written.
fn blanks() -> [Passage; 1024]
    ensures { result ≡ replicate 1024 blank }
{
    let blank = Passage {
        component: 0,
        edge: 0,
        location: 0,
        message: 0,
        entry: 0,
        ready: 0,
        end: 0,
    };
    [blank; 1024]
}

// Nothing is to be written.
fn refused(number: u8, component: u8) -> Planned
    ensures { (result.verdict ≡ Refused number component) × (result.count ≡ 0) }
{
    Planned {
        items: blanks(),
        count: 0,
        verdict: Verdict::Refused(number, component),
    }
}

// The first n passages of a list of numbers.
fn laid_out(numbers: &[u32], count: usize) -> Planned
    requires { (count ≤ 1024) × (count * 7 ≤ length numbers.now) × SmallRows numbers.now count }
    ensures { Laid numbers.now count result }
{
    let mut items = blanks();
    for i in 0..count {
        items[i] = passage_at(numbers, i);
    }
    Planned {
        items,
        count,
        verdict: Verdict::Accepted,
    }
}

// The core, by value: the schedule of a table for a list of so many places. Its count is 0 after a refusal.
pub fn plan(table: &[u8], places: usize) -> Planned
    ensures { Plans table.now places result }
{
    let mut numbers = [0u32; 7168];
    let c = calls::schedule(table, &mut numbers);
    let v = c.verdict;
    let n = c.size;
    match v {
        Verdict::Refused(number, component) => refused(number, component),
        Verdict::Accepted => {
            if places < n {
                return refused(13, 255);
            }
            laid_out(&numbers, n)
        }
    }
}

// The items, as an array.
pub fn items_of(planned: Planned) -> [Passage; 1024]
    ensures { result ≡ planned.items }
{
    planned.items
}

pub fn count_of(planned: Planned) -> usize
    ensures { result ≡ planned.count }
{
    planned.count
}

// The first n items are stored in the lent list. By a loop: `copy_from_slice` would need `memmove` of whoever links the archive.
pub fn fill(list: &mut [Passage], items: [Passage; 1024], count: usize)
    requires { (count ≤ length list.old) × (count ≤ 1024) }
    ensures { list.new ≡ copied list.old items count }
{
    for i in 0..count {
        list[i] = items[i];
    }
}

// The answer.
fn answer_of(planned: Planned) -> Called
    ensures { (result.verdict ≡ planned.verdict) × (result.size ≡ planned.count) }
{
    let verdict = planned.verdict;
    Called {
        verdict,
        size: planned.count,
    }
}

// The schedule of a table, laid over the front of the lent list.
pub fn schedule_into(table: &[u8], list: &mut [Passage]) -> Called
    ensures { (result.verdict ≡ (passages_call table.now list.old).verdict) × (result.size ≡ (passages_call table.now list.old).size) × (list.new ≡ (passages_call table.now list.old).lent) × (result.size ≤ 1024) × (result.size ≤ length list.old) }
{
    let p = plan(table, list.len());
    let n = count_of(p);
    let items = items_of(p);
    fill(list, items, n);
    answer_of(p)
}

// A list and what was answered of it.
fn answered(items: [Passage; 1024], called: Called) -> Planned
    ensures { (result.items ≡ items) × (result.count ≡ called.size) × (result.verdict ≡ called.verdict) }
{
    let verdict = called.verdict;
    Planned {
        items,
        count: called.size,
        verdict,
    }
}

// The schedule of a table in a list of its own, which is lent to be filled.
pub fn schedule_of(table: &[u8]) -> Planned
    ensures { (result.verdict ≡ (passages_call table.now (replicate 1024 blank)).verdict) × (result.count ≡ (passages_call table.now (replicate 1024 blank)).size) × (result.items ≡ (passages_call table.now (replicate 1024 blank)).lent) × (result.count ≤ 1024) }
{
    let mut items = blanks();
    let c = schedule_into(table, &mut items);
    answered(items, c)
}
