// The place of a refusal in words.
#![tactic(auto)]

mod names;

ghost use Rattle.std.specs.Prelude.{◌≡◌, List, ◌++◌, ℕ, ◌+◌, ◌-◌, ◌≤◌, length};
ghost use Rattle.text.specs.Words.{decimal, Added};
ghost use Rattle.place_text.specs.PlaceText.{part_name, edge_words, index_words, part_words, range_words, value_words, bytes_words, fault_words, place_text};

use refusal_place::Place;
use text::{put, put_field};

// A number in decimal, of up to 64 bits.
fn put_number(out: &mut [u8], at: usize, n: usize) -> usize
    requires { at + 20 ≤ length out.old }
    ensures { Added out.old at (decimal n) out.new result × (result ≤ at + 20) }
{
    let mut digits = [0u8; 20];
    let k = io::decimal(n as u64, &mut digits);
    put(out, at, &digits[..k])
}

// A text and a number.
fn put_counted(out: &mut [u8], at: usize, words: &[u8], n: usize) -> usize
    requires { at + length words.now + 20 ≤ length out.old }
    ensures { Added out.old at (words.now ++ decimal n) out.new result × (result ≤ at + length words.now + 20) }
{
    let number = put(out, at, words);
    put_number(out, number, n)
}

fn put_part_name(out: &mut [u8], at: usize, part: u8) -> usize
    requires { at + 30 ≤ length out.old }
    ensures { Added out.old at (part_name part) out.new result × (result ≤ at + 30) }
{
    match part {
        1 => put(out, at, b", its length"),
        2 => put(out, at, b", its first 7 bytes"),
        3 => put(out, at, b", location "),
        5 => put(out, at, b", its clock bound "),
        6 => put(out, at, b", its data bound "),
        7 => put(out, at, b", its update "),
        8 => put(out, at, b", its item "),
        9 => put(out, at, b", its pair "),
        10 => put(out, at, b", its end"),
        11 => put(out, at, b", behind it"),
        12 => put(out, at, b", its budget"),
        _ => put(out, at, b""),
    }
}

// The edge that the part is of; 255 is none.
fn put_edge(out: &mut [u8], at: usize, edge: u8) -> usize
    requires { at + 20 ≤ length out.old }
    ensures { Added out.old at (edge_words edge) out.new result × (result ≤ at + 20) }
{
    if edge == 255 {
        return put(out, at, b"");
    }
    put_field(out, at, b", edge ", edge as u32)
}

// The number of the part; 255 is none.
fn put_index(out: &mut [u8], at: usize, index: u8) -> usize
    requires { at + 20 ≤ length out.old }
    ensures { Added out.old at (index_words index) out.new result × (result ≤ at + 20) }
{
    if index == 255 {
        return put(out, at, b"");
    }
    put_field(out, at, b"", index as u32)
}

// The part.
fn put_part(out: &mut [u8], at: usize, p: Place) -> usize
    requires { at + 100 ≤ length out.old }
    ensures { Added out.old at (part_words p) out.new result × (result ≤ at + 100) }
{
    let edge = put_field(out, at, b"Component ", p.component as u32);
    let name = put_edge(out, edge, p.edge);
    let index = put_part_name(out, name, p.part);
    put_index(out, index, p.index)
}

// What is allowed.
fn put_range(out: &mut [u8], at: usize, p: Place) -> usize
    requires { at + 90 ≤ length out.old }
    ensures { Added out.old at (range_words p) out.new result × (result ≤ at + 90) }
{
    if p.limit <= p.least {
        return put(out, at, b", none is allowed");
    }
    let to = put_counted(out, at, b", allowed are ", p.least);
    let more = put_counted(out, to, b" to ", p.limit - 1);
    if p.unbounded {
        put(out, more, b", or 65535 for none")
    } else {
        put(out, more, b"")
    }
}

// A value that is not in its range.
fn put_value(out: &mut [u8], at: usize, p: Place) -> usize
    requires { at + 150 ≤ length out.old }
    ensures { Added out.old at (value_words p) out.new result × (result ≤ at + 150) }
{
    let value = names::put_name(out, at, p.part, p.offset);
    let range = put_counted(out, value, b" is ", p.value);
    put_range(out, range, p)
}

// Bytes that are left over or missing.
fn put_bytes(out: &mut [u8], at: usize, p: Place) -> usize
    requires { at + 90 ≤ length out.old }
    ensures { Added out.old at (bytes_words p) out.new result × (result ≤ at + 90) }
{
    if p.limit == 1 {
        return put_counted(out, at, b"bytes left over: ", p.value);
    }
    let there = put_counted(out, at, b"bytes needed: ", p.least);
    put_counted(out, there, b", there: ", p.value)
}

// What is wrong.
fn put_fault(out: &mut [u8], at: usize, p: Place) -> usize
    requires { at + 150 ≤ length out.old }
    ensures { Added out.old at (fault_words p) out.new result × (result ≤ at + 150) }
{
    if p.number == 6 {
        let channel = put_counted(out, at, b"channel ", p.value);
        return put(out, channel, b" is listed before");
    }
    if p.width == 0 {
        return put_bytes(out, at, p);
    }
    put_value(out, at, p)
}

// The whole line.
pub fn put_place_text(out: &mut [u8], at: usize, p: Place) -> usize
    requires { (at + 300 ≤ length out.old) × (p.start + p.offset ≤ 8192) }
    ensures { Added out.old at (place_text p) out.new result × (result ≤ at + 300) }
{
    let byte = put_part(out, at, p);
    let close = put_counted(out, byte, b" (byte ", p.start + p.offset);
    let fault = put(out, close, b"): ");
    let stop = put_fault(out, fault, p);
    put(out, stop, b".\n")
}
