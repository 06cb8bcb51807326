// That the updates of an edge stay in range, as atoms of a guard for UPPAAL: add by add.
ghost use Rattle.std.specs.Prelude.{◌≡◌, cond, true, false, ◌++◌, ℕ, min, max, ◌+◌, ◌*◌, ◌≤◌, eqb, pos, ◌+ℤ◌, length, drop};
ghost use Rattle.model.specs.Reader.{complement, update_at};
ghost use Rattle.model.specs.Places.{list_at};
ghost use Rattle.blocks.specs.Put.{Put};
ghost use Rattle.words.specs.Words.{ascii, decimal};
ghost use Rattle.uppaal.specs.XtaText.{addend};
ghost use Rattle.uppaal.specs.Export.{number, more, plus, after, summed};
ghost use Rattle.uppaal_parts.specs.Marks.{less_bias, total_of, stays_text, range_of, ranges_text};

use model::layout;

// What a variable is worth while the updates act: a number, or a number more than its value at entry. The number is kept 16,777,216 larger.
// A struct: the sum counts in both cases, and an enum would carry it in each.
#[derive(Clone, Copy)]
pub struct Total {
    pub known: bool,
    pub sum: u32,
}

fn plus_bits(sum: u32, bits: u16) -> u32
    requires { (32768 ≤ sum) × (sum ≤ 4000000000) }
    ensures { (less_bias result ≡ less_bias sum +ℤ complement bits) × (result ≤ sum + 32768) × (sum ≤ result + 32768) }
{
    if bits < 32768 {
        return sum + bits as u32;
    }
    sum - (65536 - bits as u32)
}

// After an update.
fn after_update(t: Total, adds: bool, bits: u16) -> Total
    requires { (32768 ≤ t.sum) × (t.sum ≤ 4000000000) }
    ensures { (total_of result.known result.sum ≡ cond adds (plus (total_of t.known t.sum) (complement bits)) (number (complement bits))) × (result.sum ≤ max t.sum 16777216 + 32768) × (min t.sum 16777216 ≤ result.sum + 32768) }
{
    if adds {
        return Total {
            known: t.known,
            sum: plus_bits(t.sum, bits),
        };
    }
    Total {
        known: true,
        sum: plus_bits(16777216, bits),
    }
}

// After the update at the front, for one variable.
fn pass_update(t: Total, variable: u8, bytes: &[u8]) -> Total
    requires { (4 ≤ length bytes.now) × (32768 ≤ t.sum) × (t.sum ≤ 4000000000) }
    ensures { (total_of result.known result.sum ≡ cond (eqb (update_at bytes.now).variable variable) (after (update_at bytes.now) (total_of t.known t.sum)) (total_of t.known t.sum)) × (result.sum ≤ max t.sum 16777216 + 32768) × (min t.sum 16777216 ≤ result.sum + 32768) }
{
    let u = decoder::update_at(bytes);
    let bits = parts::word_at(bytes, 2);
    if u.variable == variable {
        return after_update(t, u.adds, bits);
    }
    t
}

// What a variable is worth after the first n updates.
fn total_before(bytes: &[u8], count: u8, variable: u8) -> Total
    requires { (count * 4 ≤ length bytes.now) × (count ≤ 4) }
    ensures { (total_of result.known result.sum ≡ summed variable (more (pos 0)) (list_at update_at 4 count bytes.now)) × (result.sum ≤ 16777216 + 131072) × (16777216 ≤ result.sum + 131072) }
{
    let mut t = Total {
        known: false,
        sum: 16777216,
    };
    for k in 0..usize::from(count) {
        t = pass_update(t, variable, &bytes[k * layout::UPDATE_WIDTH..]);
    }
    t
}

// A sum that is added.
fn put_biased(out: &mut [u8], at: usize, sum: u32) -> usize
    requires { at + 15 ≤ 2305843009213693952 }
    ensures { Put out.old at (addend (less_bias sum)) result out.new × (result ≤ at + 15) }
{
    if 16777216 <= sum {
        return words::put_field(out, at, b" + ", sum - 16777216);
    }
    words::put_field(out, at, b" - ", 16777216 - sum)
}

// A variable and a sum against a bound, behind other atoms.
fn put_sum(out: &mut [u8], at: usize, variable: u8, sum: u32, bound: &[u8]) -> usize
    requires { (length bound.now ≤ 10) × (at + 45 ≤ 2305843009213693952) }
    ensures { Put out.old at (ascii " && v" ++ decimal variable ++ (addend (less_bias sum) ++ bound.now)) result out.new × (result ≤ at + 45) }
{
    let first = words::put_field(out, at, b" && v", variable as u32);
    let second = put_biased(out, first, sum);
    words::put_words(out, second, bound)
}

// That a number that is known stays in its range.
fn put_known(out: &mut [u8], at: usize, sum: u32) -> usize
    requires { at + 100 ≤ 2305843009213693952 }
    ensures { ((v : ℕ) → Put out.old at (stays_text v (total_of true sum)) result out.new) × (result ≤ at + 100) }
{
    if sum < 16744448 {
        return words::put_words(out, at, b" && false");
    }
    if 16809983 < sum {
        return words::put_words(out, at, b" && false");
    }
    at
}

// That a sum stays in its range.
fn put_stays(out: &mut [u8], at: usize, variable: u8, t: Total) -> usize
    requires { at + 100 ≤ 2305843009213693952 }
    ensures { Put out.old at (stays_text variable (total_of t.known t.sum)) result out.new × (result ≤ at + 100) }
{
    if t.known {
        return put_known(out, at, t.sum);
    }
    let first = put_sum(out, at, variable, t.sum, b" >= -32768");
    put_sum(out, first, variable, t.sum, b" <= 32767")
}

// That an add behind the first n updates stays in range.
fn put_add(bytes: &[u8], count: u8, variable: u8, bits: u16, out: &mut [u8], at: usize) -> usize
    requires { (count * 4 ≤ length bytes.now) × (count ≤ 4) × (at + 100 ≤ 2305843009213693952) }
    ensures { Put out.old at (stays_text variable (plus (summed variable (more (pos 0)) (list_at update_at 4 count bytes.now)) (complement bits))) result out.new × (result ≤ at + 100) }
{
    let before = total_before(bytes, count, variable);
    let with = after_update(before, true, bits);
    put_stays(out, at, variable, with)
}

// That update i, of those at the front, stays in range.
fn put_range(bytes: &[u8], number: u8, out: &mut [u8], at: usize) -> usize
    requires { (number * 4 + 4 ≤ length bytes.now) × (number ≤ 4) × (at + 100 ≤ 2305843009213693952) }
    ensures { Put out.old at (range_of bytes.now number (update_at (drop (number * 4) bytes.now))) result out.new × (result ≤ at + 100) }
{
    let place = parts::wide(number) * 4;
    let u = decoder::update_at(&bytes[place..]);
    let bits = parts::word_at(bytes, place + 2);
    if u.adds {
        return put_add(bytes, number, u.variable, bits, out, at);
    }
    at
}

// That n updates stay in range, add by add.
pub fn put_ranges(bytes: &[u8], count: u8, out: &mut [u8], at: usize) -> usize
    requires { (count * 4 ≤ length bytes.now) × (count ≤ 4) × (at + 400 ≤ 2305843009213693952) }
    ensures { Put out.old at (ranges_text bytes.now 0 count) result out.new × (result ≤ at + 400) }
{
    let mut next = at;
    for i in 0..count {
        next = put_range(bytes, i, out, next);
    }
    next
}
