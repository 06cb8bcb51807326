// How far apart windows are, in words: nodes may wake up to a spread of ticks apart.
#![tactic(auto)]

ghost use Rattle.std.specs.Prelude.{◌≡◌, List, ◌++◌, ℕ, ◌+◌, ◌≤◌, ◌<◌, length};
ghost use Rattle.text.specs.Words.{decimal, Added};
ghost use Rattle.spread_text.specs.SpreadWords.{ticks, lacking, spread_line, meeting_words, near_words, start_margin, end_margin, from_words, until_words, listen_words, around_words};

use text::{put, put_decimal, put_field, put_number};

// How many ticks a number is lacking to be more than the spread above another; none if it is.
pub fn lacking(earlier: u32, later: u32, spread: u32) -> u64
    ensures { (result ≡ lacking spread earlier later) × (result < 10000000000) }
{
    let least = earlier as u64 + spread as u64 + 1;
    let reached = later as u64;
    if least <= reached {
        return 0;
    }
    least - reached
}

// So many ticks.
fn put_ticks(out: &mut [u8], at: usize, n: u64) -> usize
    requires { (at + 16 ≤ length out.old) × (n < 10000000000) }
    ensures { Added out.old at (ticks n) out.new result × (result ≤ at + 16) }
{
    let unit = put_number(out, at, n);
    if n == 1 {
        put(out, unit, b" tick")
    } else {
        put(out, unit, b" ticks")
    }
}

// Between words.
pub fn put_distance(out: &mut [u8], at: usize, before: &[u8], n: u64, after: &[u8]) -> usize
    requires { (at + length before.now + length after.now + 16 ≤ length out.old) × (n < 10000000000) }
    ensures { Added out.old at (before.now ++ ticks n ++ after.now) out.new result × (result ≤ at + length before.now + length after.now + 16) }
{
    let number = put(out, at, before);
    let last = put_ticks(out, number, n);
    put(out, last, after)
}

// For which nodes a verdict is: nothing is said without a spread.
pub fn put_spread(out: &mut [u8], at: usize, spread: u32) -> usize
    requires { at + 50 ≤ length out.old }
    ensures { Added out.old at (spread_line spread) out.new result × (result ≤ at + 50) }
{
    if spread == 0 {
        return at;
    }
    put_distance(
        out,
        at,
        b"The nodes may wake up to ",
        spread as u64,
        b" apart.\n",
    )
}

// That the window at fault meets what stands behind.
pub fn put_meeting(out: &mut [u8], at: usize, spread: u32) -> usize
    requires { at + 31 ≤ length out.old }
    ensures { Added out.old at (meeting_words spread) out.new result × (result ≤ at + 31) }
{
    if spread == 0 {
        return put(out, at, b", shares a tick with");
    }
    put_distance(out, at, b", is within ", spread as u64, b" of")
}

// That those of the lines behind meet it.
pub fn put_near(out: &mut [u8], at: usize, spread: u32) -> usize
    requires { at + 31 ≤ length out.old }
    ensures { Added out.old at (near_words spread) out.new result × (result ≤ at + 31) }
{
    if spread == 0 {
        return put(out, at, b"that share a tick with it:\n");
    }
    put_distance(out, at, b"within ", spread as u64, b" of it:\n")
}

// How a listener starts that is lacking so many ticks ..
pub fn put_start_margin(out: &mut [u8], at: usize, lack: u64) -> usize
    requires { (at + 35 ≤ length out.old) × (lack < 10000000000) }
    ensures { Added out.old at (start_margin lack) out.new result × (result ≤ at + 35) }
{
    if lack == 0 {
        return put(out, at, b": starts early enough,");
    }
    put_distance(out, at, b": starts ", lack, b" too late,")
}

// .. and how it ends.
pub fn put_end_margin(out: &mut [u8], at: usize, lack: u64) -> usize
    requires { (at + 35 ≤ length out.old) × (lack < 10000000000) }
    ensures { Added out.old at (end_margin lack) out.new result × (result ≤ at + 35) }
{
    if lack == 0 {
        return put(out, at, b" ends late enough\n");
    }
    put_distance(out, at, b" ends ", lack, b" too soon\n")
}

// Words, the spread, words, and the tick from which it is so far.
fn put_away(out: &mut [u8], at: usize, before: &[u8], spread: u32, after: &[u8], tick: u32) -> usize
    requires { at + length before.now + length after.now + 26 ≤ length out.old }
    ensures { Added out.old at (before.now ++ ticks spread ++ after.now ++ decimal tick) out.new result × (result ≤ at + length before.now + length after.now + 26) }
{
    let number = put_distance(out, at, before, spread as u64, after);
    put_decimal(out, number, tick)
}

// The first tick of a listener of a send that is ready at that tick.
fn put_from(out: &mut [u8], at: usize, spread: u32, tick: u32) -> usize
    requires { at + 54 ≤ length out.old }
    ensures { Added out.old at (from_words spread tick) out.new result × (result ≤ at + 54) }
{
    if spread == 0 {
        return put_field(out, at, b"from before tick ", tick);
    }
    put_away(out, at, b"from more than ", spread, b" before tick ", tick)
}

// The last tick of a listener of a send that ends at that tick.
pub fn put_until(out: &mut [u8], at: usize, spread: u32, tick: u32) -> usize
    requires { at + 54 ≤ length out.old }
    ensures { Added out.old at (until_words spread tick) out.new result × (result ≤ at + 54) }
{
    if spread == 0 {
        return put_field(out, at, b"until after tick ", tick);
    }
    put_away(out, at, b"until more than ", spread, b" after tick ", tick)
}

// Both.
pub fn put_listen(out: &mut [u8], at: usize, spread: u32, ready: u32, end: u32) -> usize
    requires { at + 110 ≤ length out.old }
    ensures { Added out.old at (listen_words spread ready end) out.new result × (result ≤ at + 110) }
{
    let blank = put_from(out, at, spread, ready);
    let until = put(out, blank, b" ");
    put_until(out, until, spread, end)
}

// The ticks around a send in which nobody else may listen.
pub fn put_around(out: &mut [u8], at: usize, spread: u32, ready: u32, end: u32) -> usize
    requires { at + 90 ≤ length out.old }
    ensures { Added out.old at (around_words spread ready end) out.new result × (result ≤ at + 90) }
{
    if spread == 0 {
        let to = put_field(out, at, b" in ticks ", ready);
        return put_field(out, to, b" to ", end);
    }
    let to = put_away(out, at, b" from ", spread, b" before tick ", ready);
    put_away(out, to, b" to ", spread, b" after tick ", end)
}
