// Words, numbers and columns, written into a lent slice: each function adds its words after those that stand there, and answers
// where they end. And numbers, read from their digits.
// A slice with a place beside it, and no string: there is no heap.
#![tactic(auto)]

mod columns;
mod numbers;

ghost use Rattle.std.specs.Prelude.{◌≡◌, List, ◌++◌, ℕ, ◌+◌, ◌≤◌, ◌<◌, length};
ghost use Rattle.text.specs.Words.{decimal, refusal_line, Added};

pub use columns::{put_column, put_signed_column};
pub use numbers::number_of;

// These words. By a loop: `copy_from_slice` would need `memmove` of whoever links the archive of the words.
pub fn put(out: &mut [u8], at: usize, words: &[u8]) -> usize
    requires { at + length words.now ≤ length out.old }
    ensures { Added out.old at words.now out.new result × (result ≡ at + length words.now) }
{
    for i in 0..words.len() {
        out[at + i] = words[i];
    }
    at + words.len()
}

// A number of at most ten digits in decimal.
pub fn put_number(out: &mut [u8], at: usize, n: u64) -> usize
    requires { (at + 10 ≤ length out.old) × (n < 10000000000) }
    ensures { Added out.old at (decimal n) out.new result × (result ≤ at + 10) }
{
    let mut digits = [0u8; 20];
    let k = io::decimal(n, &mut digits);
    put(out, at, &digits[..k])
}

// One of 32 bits, which has no more.
pub fn put_decimal(out: &mut [u8], at: usize, n: u32) -> usize
    requires { at + 10 ≤ length out.old }
    ensures { Added out.old at (decimal n) out.new result × (result ≤ at + 10) }
{
    put_number(out, at, u64::from(n))
}

// A text and a number.
#[tactic(auto, using(crate::proofs::Appended::next))]
pub fn put_field(out: &mut [u8], at: usize, words: &[u8], n: u32) -> usize
    requires { at + length words.now + 10 ≤ length out.old }
    ensures { Added out.old at (words.now ++ decimal n) out.new result × (result ≤ at + length words.now + 10) }
{
    let number = put(out, at, words);
    put_decimal(out, number, n)
}

// A refusal's number and component.
#[tactic(auto, using(crate::proofs::Appended::next), unfolding(crate::specs::Words::refusal_line))]
pub fn put_refusal(out: &mut [u8], at: usize, number: u8, component: u8) -> usize
    requires { at + 30 ≤ length out.old }
    ensures { Added out.old at (refusal_line number component) out.new result × (result ≤ at + 30) }
{
    let second = put_field(out, at, b"refused ", u32::from(number));
    let last = put_field(out, second, b" ", u32::from(component));
    put(out, last, b"\n")
}
