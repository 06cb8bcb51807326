// The remedy for a send that is not heard well: who must listen, earlier, longer or not at all.
ghost use Rattle.std.specs.Prelude.{◌≡◌, List, ◌++◌, ℕ, ◌+◌, ◌*◌, ◌-◌, ◌≤◌, ◌<◌, length, drop};
ghost use Rattle.text.specs.Words.{Added};
ghost use Rattle.verdict_text.specs.VerdictText.{met_at, mets_of, nobody_remedy, several_remedy, late_remedy, early_remedy, listener_remedy, remedy_text};

use crate::put_place;
use spread_text::{put_around, put_listen, put_until};
use text::{put, put_field};

// 11: nobody listens.
fn put_nobody(out: &mut [u8], at: usize, sent: &[u32], spread: u32) -> usize
    requires { (at + 180 ≤ length out.old) × (7 ≤ length sent.now) }
    ensures { Added out.old at (nobody_remedy spread (met_at sent.now)) out.new result × (result ≤ at + 180) }
{
    let comma = put_field(
        out,
        at,
        b"Remedy: another component must listen on channel ",
        sent[6],
    );
    let from = put(out, comma, b", ");
    let last = put_listen(out, from, spread, sent[4], sent[5]);
    put(out, last, b".\n")
}

// 15: several do.
fn put_several(out: &mut [u8], at: usize, sent: &[u32], spread: u32) -> usize
    requires { (at + 180 ≤ length out.old) × (7 ≤ length sent.now) }
    ensures { Added out.old at (several_remedy spread (met_at sent.now)) out.new result × (result ≤ at + 180) }
{
    let from = put_field(
        out,
        at,
        b"Remedy: all of them but one must not listen on channel ",
        sent[6],
    );
    let last = put_around(out, from, spread, sent[4], sent[5]);
    put(out, last, b".\n")
}

// 16: the one that does starts too late, and may end too soon as well.
fn put_late(out: &mut [u8], at: usize, sent: &[u32], w: &[u32], spread: u32) -> usize
    requires { (at + 180 ≤ length out.old) × (7 ≤ length sent.now) × (7 ≤ length w.now) }
    ensures { Added out.old at (late_remedy spread (met_at sent.now) (met_at w.now)) out.new result × (result ≤ at + 180) }
{
    let earlier = put_place(out, at, b"Remedy: ", w);
    let from = put(out, earlier, b", must listen earlier: ");
    let last = put_listen(out, from, spread, sent[4], sent[5]);
    put(out, last, b".\n")
}

// 17: it ends too soon.
fn put_early(out: &mut [u8], at: usize, sent: &[u32], w: &[u32], spread: u32) -> usize
    requires { (at + 180 ≤ length out.old) × (7 ≤ length sent.now) × (7 ≤ length w.now) }
    ensures { Added out.old at (early_remedy spread (met_at sent.now) (met_at w.now)) out.new result × (result ≤ at + 180) }
{
    let longer = put_place(out, at, b"Remedy: ", w);
    let until = put(out, longer, b", must listen longer: ");
    let last = put_until(out, until, spread, sent[5]);
    put(out, last, b".\n")
}

// By the number, where a window listens.
fn put_listened(
    out: &mut [u8],
    at: usize,
    number: u8,
    sent: &[u32],
    w: &[u32],
    spread: u32,
) -> usize
    requires { (at + 180 ≤ length out.old) × (7 ≤ length sent.now) × (7 ≤ length w.now) }
    ensures { Added out.old at (listener_remedy spread number (met_at sent.now) (met_at w.now)) out.new result × (result ≤ at + 180) }
{
    match number {
        15 => put_several(out, at, sent, spread),
        16 => put_late(out, at, sent, w, spread),
        17 => put_early(out, at, sent, w, spread),
        _ => at,
    }
}

// n passages: the send at fault, then the windows that it meets.
pub fn put_remedy(
    out: &mut [u8],
    at: usize,
    number: u8,
    list: &[u32],
    n: usize,
    spread: u32,
) -> usize
    requires { (at + 180 ≤ length out.old) × (n * 7 ≤ length list.now) × (1 ≤ n) }
    ensures { Added out.old at (remedy_text spread number (met_at list.now) (mets_of (drop 7 list.now) (n - 1))) out.new result × (result ≤ at + 180) }
{
    if 2 <= n {
        return put_listened(out, at, number, list, &list[7..], spread);
    }
    if number == 11 {
        return put_nobody(out, at, list, spread);
    }
    at
}
