// All that is said of a table at a spread: its verdict in words: the number, the question that was asked, and the component; after 4 to 6 also
// where in the bytes the reader stopped, after 7 to 9 at which opening the schedule did, after 10 to 12 and 15 to 17 which windows met, and where
// a send is not heard well the remedy.
#![tactic(auto)]

ghost use Rattle.std.specs.Prelude.{◌≡◌, ◌++◌, ◌+◌, ◌*◌, ◌≤◌, ◌<◌, length, take};
ghost use Rattle.io.specs.Counts.{IsPrefixLen};
ghost use Rattle.model.specs.declared.Verdict.TheVariants.{Refused};
ghost use Rattle.model.specs.Calls.{check_call_at};
ghost use Rattle.refusal_place.specs.Walk.{place_of};
ghost use Rattle.text.specs.Words.{Added};
ghost use Rattle.refusal_text.specs.RefusalText.{refusal_text};
ghost use Rattle.spread_text.specs.SpreadWords.{spread_line};
ghost use Rattle.verdict_text.specs.VerdictText.{mets_of, stop_text, band_text, meetings_text, verdict_text_at, verdict_text};

use model::Verdict;

// The refusal has at most 170 bytes, the spread 50, the place or the opening 300, the band 30, the window at fault 200, each of 1,025 lines 160,
// and the remedy 180.
pub const ROOM: usize = 164930;

// Where the check stopped: after 4 to 6 a place in the bytes, after 7 to 9 an opening.
fn put_stop(out: &mut [u8], at: usize, table: &[u8], number: u8) -> usize
    requires { (at + 300 ≤ length out.old) × (4 ≤ number → number ≤ 6 → 0 < (place_of table.now).number) }
    ensures { Added out.old at (stop_text table.now number) out.new result × (result ≤ at + 300) }
{
    if number < 4 {
        return at;
    }
    if number < 7 {
        let place = refusal_place::locate(table);
        return place_text::put_place_text(out, at, place);
    }
    if number < 10 {
        let opening = refused_opening::locate(table);
        return opening_text::put_opening_text(out, at, opening);
    }
    at
}

// A refusal in words, where the check stopped, and which windows met after 10 to 12 and 15 to 17: n passages, at most the one at fault and all
// 1,024.
fn put_refused(
    table: &[u8],
    number: u8,
    component: u8,
    list: &[u32],
    n: usize,
    spread: u32,
    out: &mut [u8],
) -> usize
    requires { (164930 ≤ length out.old) × (n ≤ 1025) × (n * 7 ≤ length list.now) × (check_call_at spread table.now ≡ Refused number component) }
    ensures prefix_len { IsPrefixLen result out.new }
    ensures out_after { take result out.new ≡ refusal_text number component ++ spread_line spread ++ stop_text table.now number ++ band_text table.now number (mets_of list.now n) ++ meetings_text spread number (mets_of list.now n) }
{
    let nodes = refusal_text::put_refusal_text(out, 0, number, component);
    let stop = spread_text::put_spread(out, nodes, spread);
    let band = put_stop(out, stop, table, number);
    let lines = verdict_text::put_band(out, band, table, number, list, n);
    verdict_text::put_meetings(out, lines, number, list, n, spread)
}

// All that is printed of a table at a spread, at the front of out; answers how many bytes.
fn put_printed(table: &[u8], spread: u32, out: &mut [u8]) -> usize
    requires { 164930 ≤ length out.old }
    ensures prefix_len { IsPrefixLen result out.new }
    ensures out_after { take result out.new ≡ verdict_text_at spread table.now }
    ensures out_after_2 { spread ≡ 0 → take result out.new ≡ verdict_text table.now }
{
    let mut list = [0u32; 7175];
    let r = meetings::meetings_spread(table, spread, &mut list);
    let v = r.table;
    match v {
        Verdict::Accepted => {
            let nodes = text::put(out, 0, b"accepted\n");
            spread_text::put_spread(out, nodes, spread)
        }
        Verdict::Refused(number, component) => put_refused(
            table, number, component, &list, r.size, spread, out,
        ),
    }
}

// The same in an array, whose length nobody has to prove.
pub fn write(table: &[u8], spread: u32, out: &mut [u8; ROOM]) -> usize
    ensures prefix_len { IsPrefixLen result out.new }
    ensures out_after { take result out.new ≡ verdict_text_at spread table.now }
    ensures out_after_2 { spread ≡ 0 → take result out.new ≡ verdict_text table.now }
    ensures upper_bound { result ≤ 164930 }
{
    put_printed(table, spread, out)
}
