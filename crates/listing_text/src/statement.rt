// One statement a line: its place, its four bytes, its name in document 01, and its fields as they apply.
ghost use Rattle.std.specs.Prelude.{◌≡◌, List, ◌++◌, ℕ, ◌+◌, ◌*◌, ◌≤◌, ◌<◌, length};
ghost use Rattle.text.specs.Words.{ascii, decimal, Added};
ghost use Rattle.text.specs.Columns.{signed_text};
ghost use Rattle.listing_text.specs.StatementText.{hex_digit, hex_byte, four_bytes, statement_words, statement_line};

use text::{put, put_decimal, put_field};

// A digit below 16.
fn hex_digit(d: u8) -> u8
    requires { d < 16 }
    ensures { result ≡ hex_digit d }
{
    if d < 10 { b'0' + d } else { b'a' - 10 + d }
}

fn put_byte(out: &mut [u8], at: usize, n: u8) -> usize
    requires { at + 2 ≤ length out.old }
    ensures { Added out.old at (hex_byte n) out.new result × (result ≡ at + 2) }
{
    let high = hex_digit(n / 16);
    let low = hex_digit(n % 16);
    put(out, at, &[high, low])
}

fn put_four_bytes(out: &mut [u8], at: usize, bytes: &[u8], from: usize) -> usize
    requires { (at + 8 ≤ length out.old) × (from + 3 < length bytes.now) }
    ensures { Added out.old at (four_bytes bytes.now from) out.new result × (result ≡ at + 8) }
{
    let second = put_byte(out, at, bytes[from]);
    let third = put_byte(out, second, bytes[from + 1]);
    let fourth = put_byte(out, third, bytes[from + 2]);
    put_byte(out, fourth, bytes[from + 3])
}

// A signed number of sixteen bits.
fn put_signed(out: &mut [u8], at: usize, bits: u32) -> usize
    requires { (at + 11 ≤ length out.old) × (bits < 65536) }
    ensures { Added out.old at (signed_text bits) out.new result × (result ≤ at + 11) }
{
    if bits < 32768 {
        put_decimal(out, at, bits)
    } else {
        put_field(out, at, b"-", 65536 - bits)
    }
}

// A field, and behind a colon the signed number that belongs to it.
fn put_bound(out: &mut [u8], at: usize, words: &[u8], a: u32, bits: u32) -> usize
    requires { (at + length words.now + 23 ≤ length out.old) × (bits < 65536) }
    ensures { Added out.old at (words.now ++ decimal a ++ ascii ": " ++ signed_text bits) out.new result × (result ≤ at + length words.now + 23) }
{
    let colon = put_field(out, at, words, a);
    let number = put(out, colon, b": ");
    put_signed(out, number, bits)
}

// Two fields.
fn put_two(out: &mut [u8], at: usize, first: &[u8], a: u32, second: &[u8], k: u32) -> usize
    requires { at + length first.now + 10 + length second.now + 10 ≤ length out.old }
    ensures { Added out.old at (first.now ++ decimal a ++ (second.now ++ decimal k)) out.new result × (result ≤ at + length first.now + 10 + length second.now + 10) }
{
    let next = put_field(out, at, first, a);
    put_field(out, next, second, k)
}

// The statements of an edge's block up to its work.
fn put_work(out: &mut [u8], at: usize, op: u8, a: u32, k: u32) -> usize
    requires { (at + 50 ≤ length out.old) × (k < 65536) × (op < 7) }
    ensures { Added out.old at (statement_words op a k) out.new result × (result ≤ at + 50) }
{
    match op {
        0x00 => put(out, at, b"sleep"),
        0x01 => put_bound(out, at, b"set variable ", a, k),
        0x02 => put_bound(out, at, b"add variable ", a, k),
        0x03 => put(out, at, b"done"),
        0x04 => put_field(out, at, b"send channel ", a),
        0x05 => put_field(out, at, b"listen pairs ", a),
        _ => put_two(out, at, b"pair channel ", a, b" location ", k),
    }
}

// Those behind its work.
fn put_passage_end(out: &mut [u8], at: usize, op: u8, a: u32, k: u32) -> usize
    requires { (at + 50 ≤ length out.old) × (7 ≤ op) × (op < 10) }
    ensures { Added out.old at (statement_words op a k) out.new result × (result ≤ at + 50) }
{
    match op {
        0x07 => put_field(out, at, b"age clock ", a),
        0x08 => put_field(out, at, b"zero clock ", a),
        _ => put_field(out, at, b"enter location ", k),
    }
}

// The statements of a location's block.
fn put_trial(out: &mut [u8], at: usize, op: u8, a: u32, k: u32) -> usize
    requires { (at + 50 ≤ length out.old) × (k < 65536) × (10 ≤ op) × (op < 17) }
    ensures { Added out.old at (statement_words op a k) out.new result × (result ≤ at + 50) }
{
    match op {
        0x0A => put(out, at, b"trial"),
        0x0B => put_two(out, at, b"low clock ", a, b": ", k),
        0x0C => put_two(out, at, b"high clock ", a, b": ", k),
        0x0D => put_bound(out, at, b"data low variable ", a, k),
        0x0E => put_bound(out, at, b"data high variable ", a, k),
        0x0F => put_field(out, at, b"keep edge ", k),
        _ => put(out, at, b"take"),
    }
}

fn put_words(out: &mut [u8], at: usize, op: u8, a: u32, k: u32) -> usize
    requires { (at + 50 ≤ length out.old) × (k < 65536) }
    ensures { Added out.old at (statement_words op a k) out.new result × (result ≤ at + 50) }
{
    if op < 7 {
        put_work(out, at, op, a, k)
    } else if op < 10 {
        put_passage_end(out, at, op, a, k)
    } else if op < 17 {
        put_trial(out, at, op, a, k)
    } else if op == 17 {
        put(out, at, b"choose")
    } else if op == 18 {
        put_field(out, at, b"budget ", k)
    } else {
        put(out, at, b"no statement")
    }
}

// The statement whose bytes start there.
pub fn put_statement(out: &mut [u8], place: u32, bytes: &[u8], from: usize) -> usize
    requires { (77 ≤ length out.old) × (from + 3 < length bytes.now) }
    ensures { Added out.old 0 (statement_line place bytes.now from) out.new result × (result ≤ 77) }
{
    let a = u32::from(bytes[from + 1]);
    let k = parts::word_at(bytes, from + 2) as u32;
    let first = text::put_column(out, 0, place, 6);
    let four = put(out, first, b" ");
    let behind = put_four_bytes(out, four, bytes, from);
    let words = put(out, behind, b" ");
    let last = put_words(out, words, bytes[from], a, k);
    put(out, last, b"\n")
}
