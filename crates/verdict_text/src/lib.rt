// Which windows met, in words; where a send is not heard well, also the remedy. The spread is 0 where there is none.
#![tactic(auto)]

pub mod remedy;

ghost use Rattle.std.specs.Prelude.{◌≡◌, List, ◌++◌, ℕ, ◌+◌, ◌*◌, ◌-◌, ◌≤◌, ◌<◌, length, drop};
ghost use Rattle.model.specs.Lists.{each};
ghost use Rattle.text.specs.Words.{Added};
ghost use Rattle.verdict_text.specs.VerdictText.{met_at, place_words, window_words, send_words, receive_fault, fault_end, send_fault, fault_text, send_line, too_close, close_words, receive_words, start_words, end_words, listener_line, met_line, mets_of, met_lines, band_told, band_line, band_text, meetings_text};

use text::{put, put_field};

// Words, then the component and the edge of the passage at the front of a list: whose window it is.
pub fn put_place(out: &mut [u8], at: usize, words: &[u8], w: &[u32]) -> usize
    requires { (at + length words.now + 37 ≤ length out.old) × (7 ≤ length w.now) }
    ensures { Added out.old at (words.now ++ place_words (met_at w.now)) out.new result × (result ≤ at + length words.now + 37) }
{
    let place = put(out, at, words);
    let edge = put_field(out, place, b"component ", w[0]);
    put_field(out, edge, b", edge ", w[1])
}

// Its ticks, the first and the last included.
fn put_window(out: &mut [u8], at: usize, w: &[u32]) -> usize
    requires { (at + 32 ≤ length out.old) × (7 ≤ length w.now) }
    ensures { Added out.old at (window_words (met_at w.now)) out.new result × (result ≤ at + 32) }
{
    let end = put_field(out, at, b", ticks ", w[4]);
    put_field(out, end, b" to ", w[5])
}

// A send's channel, its message, and its ticks.
fn put_send(out: &mut [u8], at: usize, w: &[u32]) -> usize
    requires { (at + 52 ≤ length out.old) × (7 ≤ length w.now) }
    ensures { Added out.old at (send_words (met_at w.now)) out.new result × (result ≤ at + 52) }
{
    let ticks = put_field(out, at, b", channel ", w[6]);
    put_window(out, ticks, w)
}

// 12: the receive window at fault.
fn put_receive_fault(out: &mut [u8], at: usize, w: &[u32], spread: u32) -> usize
    requires { (at + 200 ≤ length out.old) × (7 ≤ length w.now) }
    ensures { Added out.old at (receive_fault spread (met_at w.now)) out.new result × (result ≤ at + 200) }
{
    let ticks = put_place(out, at, b"The receive window of ", w);
    let meeting = put_window(out, ticks, w);
    let last = spread_text::put_meeting(out, meeting, spread);
    put(out, last, b" these send windows on its channels:\n")
}

// 10, or 11 and 15 to 17: what the lines after the send window are.
fn put_fault_end(out: &mut [u8], at: usize, number: u8, spread: u32) -> usize
    requires { at + 90 ≤ length out.old }
    ensures { Added out.old at (fault_end spread number) out.new result × (result ≤ at + 90) }
{
    if number == 10 {
        let last = spread_text::put_meeting(out, at, spread);
        return put(out, last, b" these send windows:\n");
    }
    let near = put(
        out,
        at,
        b".\nReceive windows of other components on its channel ",
    );
    spread_text::put_near(out, near, spread)
}

// 10, 11 and 15 to 17: the send window at fault.
fn put_send_fault(out: &mut [u8], at: usize, number: u8, w: &[u32], spread: u32) -> usize
    requires { (at + 200 ≤ length out.old) × (7 ≤ length w.now) }
    ensures { Added out.old at (send_fault spread number (met_at w.now)) out.new result × (result ≤ at + 200) }
{
    let channel = put_place(out, at, b"The send window of ", w);
    let last = put_send(out, channel, w);
    put_fault_end(out, last, number, spread)
}

// The window at fault, and what the lines after it are.
fn put_fault(out: &mut [u8], at: usize, number: u8, w: &[u32], spread: u32) -> usize
    requires { (at + 200 ≤ length out.old) × (7 ≤ length w.now) }
    ensures { Added out.old at (fault_text spread number (met_at w.now)) out.new result × (result ≤ at + 200) }
{
    if number == 12 {
        put_receive_fault(out, at, w, spread)
    } else {
        put_send_fault(out, at, number, w, spread)
    }
}

// How many ticks the later of two windows would have to be moved.
fn too_close(v: &[u32], w: &[u32], spread: u32) -> u64
    requires { (7 ≤ length v.now) × (7 ≤ length w.now) }
    ensures { (result ≡ too_close spread (met_at v.now) (met_at w.now)) × (result < 10000000000) }
{
    let one = v[4];
    let other = w[4];
    if one <= other {
        spread_text::lacking(v[5], other, spread)
    } else {
        spread_text::lacking(w[5], one, spread)
    }
}

// The same in words; nothing is said without a spread.
fn put_close(out: &mut [u8], at: usize, fault: &[u32], w: &[u32], spread: u32) -> usize
    requires { (at + 28 ≤ length out.old) × (7 ≤ length fault.now) × (7 ≤ length w.now) }
    ensures { Added out.old at (close_words spread (met_at fault.now) (met_at w.now)) out.new result × (result ≤ at + 28) }
{
    if spread == 0 {
        return at;
    }
    let moved = too_close(fault, w, spread);
    spread_text::put_distance(out, at, b": ", moved, b" too close")
}

// A send window that was met.
fn put_send_line(out: &mut [u8], at: usize, fault: &[u32], w: &[u32], spread: u32) -> usize
    requires { (at + 160 ≤ length out.old) × (7 ≤ length fault.now) × (7 ≤ length w.now) }
    ensures { Added out.old at (send_line spread (met_at fault.now) (met_at w.now)) out.new result × (result ≤ at + 160) }
{
    let kind = put_place(out, at, b"  ", w);
    let channel = put(out, kind, b", a send window");
    let close = put_send(out, channel, w);
    let last = put_close(out, close, fault, w, spread);
    put(out, last, b"\n")
}

// A receive window that was met.
fn put_receive(out: &mut [u8], at: usize, w: &[u32]) -> usize
    requires { (at + 90 ≤ length out.old) × (7 ≤ length w.now) }
    ensures { Added out.old at (receive_words (met_at w.now)) out.new result × (result ≤ at + 90) }
{
    let kind = put_place(out, at, b"  ", w);
    let ticks = put(out, kind, b", a receive window");
    put_window(out, ticks, w)
}

// How it starts against the send window.
fn put_start(out: &mut [u8], at: usize, sent: &[u32], w: &[u32], spread: u32) -> usize
    requires { (at + 35 ≤ length out.old) × (7 ≤ length sent.now) × (7 ≤ length w.now) }
    ensures { Added out.old at (start_words spread (met_at sent.now) (met_at w.now)) out.new result × (result ≤ at + 35) }
{
    let start = w[4];
    let send = sent[4];
    if spread != 0 {
        let lack = spread_text::lacking(start, send, spread);
        return spread_text::put_start_margin(out, at, lack);
    }
    if start < send {
        put(out, at, b": starts earlier,")
    } else {
        put(out, at, b": starts with the send or later,")
    }
}

// How it ends against it.
fn put_end(out: &mut [u8], at: usize, sent: &[u32], w: &[u32], spread: u32) -> usize
    requires { (at + 35 ≤ length out.old) × (7 ≤ length sent.now) × (7 ≤ length w.now) }
    ensures { Added out.old at (end_words spread (met_at sent.now) (met_at w.now)) out.new result × (result ≤ at + 35) }
{
    let send = sent[5];
    let end = w[5];
    if spread != 0 {
        let lack = spread_text::lacking(send, end, spread);
        return spread_text::put_end_margin(out, at, lack);
    }
    if send < end {
        put(out, at, b" ends later\n")
    } else {
        put(out, at, b" ends with the send or earlier\n")
    }
}

// A receive window that was met, against the send window.
fn put_listener(out: &mut [u8], at: usize, sent: &[u32], w: &[u32], spread: u32) -> usize
    requires { (at + 160 ≤ length out.old) × (7 ≤ length sent.now) × (7 ≤ length w.now) }
    ensures { Added out.old at (listener_line spread (met_at sent.now) (met_at w.now)) out.new result × (result ≤ at + 160) }
{
    let start = put_receive(out, at, w);
    let end = put_start(out, start, sent, w, spread);
    put_end(out, end, sent, w, spread)
}

// A window that was met.
fn put_met(out: &mut [u8], at: usize, number: u8, fault: &[u32], w: &[u32], spread: u32) -> usize
    requires { (at + 160 ≤ length out.old) × (7 ≤ length fault.now) × (7 ≤ length w.now) }
    ensures { Added out.old at (met_line spread number (met_at fault.now) (met_at w.now)) out.new result × (result ≤ at + 160) }
{
    if number == 10 {
        put_send_line(out, at, fault, w, spread)
    } else if number == 12 {
        put_send_line(out, at, fault, w, spread)
    } else {
        put_listener(out, at, fault, w, spread)
    }
}

// The windows that were met: the passages of the list after the first, which is the one at fault.
fn put_each_met(out: &mut [u8], at: usize, number: u8, list: &[u32], n: usize, spread: u32) -> usize
    requires { (at + n * 160 ≤ length out.old) × (n * 7 ≤ length list.now) × (1 ≤ n) }
    ensures { Added out.old at (each (met_line spread number (met_at list.now)) (mets_of (drop 7 list.now) (n - 1))) out.new result × (result ≤ at + n * 160) }
{
    let mut end = at;
    for i in 1..n {
        end = put_met(out, end, number, list, &list[i * 7..], spread);
    }
    end
}

// The same, and that there is none.
fn put_met_lines(
    out: &mut [u8],
    at: usize,
    number: u8,
    list: &[u32],
    n: usize,
    spread: u32,
) -> usize
    requires { (at + n * 160 ≤ length out.old) × (n * 7 ≤ length list.now) × (1 ≤ n) }
    ensures { Added out.old at (met_lines spread number (met_at list.now) (mets_of (drop 7 list.now) (n - 1))) out.new result × (result ≤ at + n * 160) }
{
    if n == 1 {
        put(out, at, b"  none\n")
    } else {
        put_each_met(out, at, number, list, n, spread)
    }
}

// n passages: the one at fault, then those that it meets; then the remedy.
pub fn put_meetings(
    out: &mut [u8],
    at: usize,
    number: u8,
    list: &[u32],
    n: usize,
    spread: u32,
) -> usize
    requires { (at + 380 + n * 160 ≤ length out.old) × (n * 7 ≤ length list.now) }
    ensures { Added out.old at (meetings_text spread number (mets_of list.now n)) out.new result × (result ≤ at + 380 + n * 160) }
{
    if n == 0 {
        return at;
    }
    let lines = put_fault(out, at, number, list, spread);
    let last = put_met_lines(out, lines, number, list, n, spread);
    remedy::put_remedy(out, last, number, list, n, spread)
}

// Whether the band of a send at fault on that channel is told: after 10, in version 2.
fn tells_band(table: &[u8], number: u8, channel: u32) -> bool
    ensures { result ≡ band_told table.now number channel }
{
    if number != 10 {
        return false;
    }
    if table.len() <= 7 + channel as usize {
        return false;
    }
    2 <= table[0]
}

// The line that tells it.
fn put_band_line(out: &mut [u8], at: usize, table: &[u8], number: u8, channel: u32) -> usize
    requires { at + 30 ≤ length out.old }
    ensures { Added out.old at (band_line table.now number channel) out.new result × (result ≤ at + 30) }
{
    if !tells_band(table, number, channel) {
        return at;
    }
    let band = table[7 + channel as usize] as u32;
    let last = put_field(out, at, b"On band ", band);
    put(out, last, b":\n")
}

// n passages, the first of them the one at fault: its band, if it is told.
pub fn put_band(
    out: &mut [u8],
    at: usize,
    table: &[u8],
    number: u8,
    list: &[u32],
    n: usize,
) -> usize
    requires { (at + 30 ≤ length out.old) × (n * 7 ≤ length list.now) }
    ensures { Added out.old at (band_text table.now number (mets_of list.now n)) out.new result × (result ≤ at + 30) }
{
    if n == 0 {
        return at;
    }
    put_band_line(out, at, table, number, list[6])
}
