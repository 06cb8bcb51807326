// The pieces of a guard for UPPAAL, from the bytes of an edge: upper bounds, lows and data bounds.
// Text is put into a lent slice, from a place on, and the place behind it is answered: memory is fixed, and what does not fit is counted.
#![tactic(auto)]

ghost use Rattle.std.specs.Prelude.{◌≡◌, List, ◌++◌, ℕ, pred, ◌+◌, ◌*◌, ◌≤◌, length};
ghost use Rattle.model.specs.Reader.{complement, clock_guard_at, data_guard_at};
ghost use Rattle.blocks.specs.Put.{Put};
ghost use Rattle.words.specs.Words.{ascii, decimal};
ghost use Rattle.uppaal.specs.Xta.{at_least};
ghost use Rattle.uppaal.specs.XtaText.{atom_text, signed};
ghost use Rattle.uppaal_parts.specs.Telling.{Takes, Tells};
ghost use Rattle.uppaal_parts.specs.Marks.{all_told, mark_of, upper_of, high_text, high_mark, highs_text, low_text, lows_text, data_text, datas_text, high_count, highs_count};

use model::layout;

pub mod assignments;
pub mod ranges;

// Where the text stands, and which of the upper bounds that follow is reached.
#[derive(Clone, Copy)]
pub struct Mark {
    pub at: usize,
    pub tight: u8,
}

impl Mark {
    // A clock against an upper bound; the mark falls.
    #[inline(never)]
    pub fn put_upper(self, out: &mut [u8], clock: u8, bound: u16) -> Mark
        requires { self.at + 30 ≤ 2305843009213693952 }
        ensures { Put out.old self.at (atom_text (mark_of self.tight (upper_of clock bound))) result.at out.new × (result.tight ≡ pred self.tight) × (result.at ≤ self.at + 30) }
    {
        let sign = words::put_field(out, self.at, b"x", u32::from(clock));
        let at = match self.tight {
            0 => words::put_field(out, sign, b" <= ", u32::from(bound)),
            1 => words::put_field(out, sign, b" == ", u32::from(bound)),
            _ => words::put_field(out, sign, b" < ", u32::from(bound)),
        };
        Mark {
            at,
            tight: self.tight.saturating_sub(1),
        }
    }

    // The high of the clock bound at the front, if it has one, behind other atoms.
    fn put_high(self, bytes: &[u8], out: &mut [u8]) -> Mark
        requires { (5 ≤ length bytes.now) × (self.at + 40 ≤ 2305843009213693952) }
        ensures { Put out.old self.at (high_text self.tight (clock_guard_at bytes.now)) result.at out.new × (result.tight ≡ high_mark self.tight (clock_guard_at bytes.now)) × (result.at ≤ self.at + 40) }
    {
        let guard = decoder::clock_guard_at(bytes);
        if guard.high == 65535 {
            return self;
        }
        let at = words::put_words(out, self.at, b" && ");
        Mark {
            at,
            tight: self.tight,
        }
        .put_upper(out, guard.clock, guard.high)
    }

    // Those of so many clock bounds.
    pub fn put_highs(self, bytes: &[u8], count: u8, out: &mut [u8]) -> usize
        requires { (count * 5 ≤ length bytes.now) × (self.at + count * 40 ≤ 2305843009213693952) }
        ensures { Put out.old self.at (highs_text self.tight count bytes.now) result out.new × (result ≤ self.at + count * 40) }
    {
        let mut mark = self;
        for k in 0..usize::from(count) {
            mark = mark.put_high(&bytes[k * layout::GUARD_WIDTH..], out);
        }
        mark.at
    }
}

// So many parts of this width, one after the other: `put` puts the one at the front, in at most so many bytes.
pub fn put_each<F: Fn(&[u8], &mut [u8], usize) -> usize>(
    bytes: &[u8],
    width: usize,
    count: u8,
    most: usize,
    put: F,
    out: &mut [u8],
    at: usize,
) -> usize
    ghost tell: { List ℕ → List ℕ }
    requires whole { count * width ≤ length bytes.now }
    requires room { at + count * most ≤ 2305843009213693952 }
    requires takes { Takes F.Fn put width most }
    requires tells { Tells F.Fn put width most tell }
    ensures told { Put out.old at (all_told tell width count bytes.now) result out.new }
    ensures near { result ≤ at + count * most }
{
    let mut next = at;
    for k in 0..usize::from(count) {
        next = put(&bytes[k * width..], out, next);
    }
    next
}

// The low of the clock bound at the front, behind other atoms.
fn put_low(bytes: &[u8], out: &mut [u8], at: usize) -> usize
    requires { (5 ≤ length bytes.now) × (at + 40 ≤ 2305843009213693952) }
    ensures { Put out.old at (low_text (clock_guard_at bytes.now)) result out.new × (result ≤ at + 40) }
{
    let g = decoder::clock_guard_at(bytes);
    let first = words::put_field(out, at, b" && x", g.clock as u32);
    words::put_field(out, first, b" >= ", g.low as u32)
}

// Those of n clock bounds.
pub fn put_lows(bytes: &[u8], count: u8, out: &mut [u8], at: usize) -> usize
    requires { (count * 5 ≤ length bytes.now) × (at + count * 40 ≤ 2305843009213693952) }
    ensures { Put out.old at (lows_text count bytes.now) result out.new × (result ≤ at + count * 40) }
{
    put_each(bytes, layout::GUARD_WIDTH, count, 40, put_low, out, at)
}

// A signed number of 16 bits.
pub fn put_bits(out: &mut [u8], at: usize, bits: u16) -> usize
    requires { at + 20 ≤ 2305843009213693952 }
    ensures { Put out.old at (signed (complement bits)) result out.new × (result ≤ at + 20) }
{
    if bits < 32768 {
        return words::put_field(out, at, b"", bits as u32);
    }
    words::put_field(out, at, b"-", 65536 - bits as u32)
}

// A variable against a number, behind other atoms.
fn put_value(out: &mut [u8], at: usize, variable: u8, sign: &[u8], bits: u16) -> usize
    requires { (length sign.now ≤ 4) × (at + 45 ≤ 2305843009213693952) }
    ensures { Put out.old at (ascii " && v" ++ decimal variable ++ (sign.now ++ signed (complement bits))) result out.new × (result ≤ at + 45) }
{
    let first = words::put_field(out, at, b" && v", variable as u32);
    let second = words::put_words(out, first, sign);
    put_bits(out, second, bits)
}

// The data bound at the front, behind other atoms.
fn put_data(bytes: &[u8], out: &mut [u8], at: usize) -> usize
    requires { (5 ≤ length bytes.now) × (at + 100 ≤ 2305843009213693952) }
    ensures { Put out.old at (data_text (data_guard_at bytes.now)) result out.new × (result ≤ at + 100) }
{
    let g = decoder::data_guard_at(bytes);
    let low = parts::word_at(bytes, 1);
    let high = parts::word_at(bytes, 3);
    let first = put_value(out, at, g.variable, b" >= ", low);
    put_value(out, first, g.variable, b" <= ", high)
}

// Those of n data bounds.
pub fn put_datas(bytes: &[u8], count: u8, out: &mut [u8], at: usize) -> usize
    requires { (count * 5 ≤ length bytes.now) × (at + count * 100 ≤ 2305843009213693952) }
    ensures { Put out.old at (datas_text count bytes.now) result out.new × (result ≤ at + count * 100) }
{
    put_each(bytes, layout::GUARD_WIDTH, count, 100, put_data, out, at)
}

// One or none: whether a clock bound has a high.
fn high_count(bytes: &[u8]) -> u8
    requires { 5 ≤ length bytes.now }
    ensures { result ≡ high_count (clock_guard_at bytes.now) }
{
    u8::from(decoder::clock_guard_at(bytes).high != 65535)
}

// How many of n clock bounds have a high.
pub fn highs_count(bytes: &[u8], count: u8) -> u8
    requires { (count * 5 ≤ length bytes.now) × (count ≤ 4) }
    ensures { (result ≡ highs_count count bytes.now) × (result ≤ count) }
{
    let mut n = 0;
    for k in 0..usize::from(count) {
        n += high_count(&bytes[k * layout::GUARD_WIDTH..]);
    }
    n
}
