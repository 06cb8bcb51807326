// Columns of a table: a text at the right of so many bytes.
ghost use Rattle.std.specs.Prelude.{◌≡◌, List, ◌++◌, ℕ, ◌+◌, ◌-◌, ◌≤◌, ◌<◌, length, replicate};
ghost use Rattle.text.specs.Words.{ascii, decimal, Added};
ghost use Rattle.text.specs.Columns.{column, signed_text};

use crate::put;

// Blanks up to a column's width, where so many bytes of it are used.
fn put_padding(out: &mut [u8], at: usize, used: usize, width: usize) -> usize
    requires { at + width ≤ length out.old }
    ensures { Added out.old at (replicate (width - used) 32) out.new result × (result ≤ at + width) }
{
    let end = at + width.saturating_sub(used);
    out[at..end].fill(b' ');
    end
}

// A sign, or none, and a number at the right of a column.
fn put_with_sign(out: &mut [u8], at: usize, sign: &[u8], n: u32, width: usize) -> usize
    requires { at + width + length sign.now + 10 ≤ length out.old }
    ensures { Added out.old at (column width (sign.now ++ decimal n)) out.new result × (result ≤ at + width + length sign.now + 10) }
{
    let mut digits = [0u8; 20];
    let k = io::decimal(u64::from(n), &mut digits);
    let first = put_padding(out, at, sign.len() + k, width);
    let number = put(out, first, sign);
    put(out, number, &digits[..k])
}

// A number at the right of a column.
pub fn put_column(out: &mut [u8], at: usize, n: u32, width: usize) -> usize
    requires { at + width + 10 ≤ length out.old }
    ensures { Added out.old at (column width (decimal n)) out.new result × (result ≤ at + width + 10) }
{
    put_with_sign(out, at, b"", n, width)
}

// A signed number of sixteen bits at the right of a column.
pub fn put_signed_column(out: &mut [u8], at: usize, bits: u32, width: usize) -> usize
    requires { (at + width + 11 ≤ length out.old) × (bits < 65536) }
    ensures { Added out.old at (column width (signed_text bits)) out.new result × (result ≤ at + width + 11) }
{
    if bits < 32768 {
        put_column(out, at, bits, width)
    } else {
        put_with_sign(out, at, b"-", 65536 - bits, width)
    }
}
