// All that is said of a table's schedule: a line a passage, or `refused`, number, component. The passages are those that were written through a
// lent list.
#![tactic(auto)]

ghost use Rattle.std.specs.Prelude.{◌≡◌, ◌≤◌, length, take};
ghost use Rattle.io.specs.Counts.{IsPrefixLen};
ghost use Rattle.schedule_text.specs.ScheduleText.{printed_schedule};

use model::Verdict;
use passages::Passage;

// The first line has 26 bytes, and each of 1,024 passages at most 77.
pub const ROOM: usize = 78874;

// The words, at the front of out; answers how many bytes.
fn put_printed(table: &[u8], out: &mut [u8]) -> usize
    requires { 78874 ≤ length out.old }
    ensures prefix_len { IsPrefixLen result out.new }
    ensures out_after { take result out.new ≡ printed_schedule table.now }
{
    // The list is lent, not answered: a list in an answer stands on the stack once more.
    let blank = Passage {
        component: 0,
        edge: 0,
        location: 0,
        message: 0,
        entry: 0,
        ready: 0,
        end: 0,
    };
    let mut list = [blank; 1024];
    let called = passages::schedule_into(table, &mut list);
    match called.verdict {
        Verdict::Accepted => schedule_text::put_schedule(out, &list[..called.size]),
        Verdict::Refused(number, component) => text::put_refusal(out, 0, number, component),
    }
}

// The same in an array, whose length nobody has to prove.
pub fn write(table: &[u8], out: &mut [u8; ROOM]) -> usize
    ensures prefix_len { IsPrefixLen result out.new }
    ensures out_after { take result out.new ≡ printed_schedule table.now }
    ensures upper_bound { result ≤ 78874 }
{
    put_printed(table, out)
}
