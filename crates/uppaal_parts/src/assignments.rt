// The assignments of a step out for UPPAAL, from the bytes of an edge: its updates, then its resets.
ghost use Rattle.std.specs.Prelude.{◌≡◌, cond, true, false, [], ◌++◌, ℕ, ◌+◌, ◌*◌, ◌%◌, ◌≤◌, eqb, length};
ghost use Rattle.model.specs.Reader.{complement, update_at};
ghost use Rattle.blocks.specs.Put.{Put};
ghost use Rattle.words.specs.Words.{ascii};
ghost use Rattle.uppaal.specs.Xta.{adds, sets_to};
ghost use Rattle.uppaal.specs.XtaText.{addend, assignment_text};
ghost use Rattle.uppaal_parts.specs.Marks.{lead, update_text, updates_text, reset_of, resets_text, still_first};

use crate::put_bits;
use model::layout;

// Where the text stands, and whether no assignment was written yet.
#[derive(Clone, Copy)]
pub struct Led {
    pub at: usize,
    pub first: bool,
}

// What stands before an assignment.
fn put_lead(out: &mut [u8], led: Led) -> usize
    requires { led.at + 8 ≤ 2305843009213693952 }
    ensures { Put out.old led.at (lead led.first) result out.new × (result ≤ led.at + 8) }
{
    if led.first {
        return words::put_words(out, led.at, b" assign ");
    }
    words::put_words(out, led.at, b", ")
}

// A signed number that is added.
fn put_addend(out: &mut [u8], at: usize, bits: u16) -> usize
    requires { at + 15 ≤ 2305843009213693952 }
    ensures { Put out.old at (addend (complement bits)) result out.new × (result ≤ at + 15) }
{
    if bits < 32768 {
        return words::put_field(out, at, b" + ", bits as u32);
    }
    words::put_field(out, at, b" - ", 65536 - bits as u32)
}

fn put_adds(out: &mut [u8], at: usize, variable: u8, bits: u16) -> usize
    requires { at + 50 ≤ 2305843009213693952 }
    ensures { Put out.old at (assignment_text (adds variable (complement bits))) result out.new × (result ≤ at + 50) }
{
    let first = words::put_field(out, at, b"v", variable as u32);
    let second = words::put_field(out, first, b" := v", variable as u32);
    put_addend(out, second, bits)
}

fn put_sets(out: &mut [u8], at: usize, variable: u8, bits: u16) -> usize
    requires { at + 50 ≤ 2305843009213693952 }
    ensures { Put out.old at (assignment_text (sets_to variable (complement bits))) result out.new × (result ≤ at + 50) }
{
    let first = words::put_field(out, at, b"v", variable as u32);
    let second = words::put_words(out, first, b" := ");
    put_bits(out, second, bits)
}

// The update at the front, as an assignment.
fn put_update(bytes: &[u8], out: &mut [u8], led: Led) -> Led
    requires { (4 ≤ length bytes.now) × (led.at + 60 ≤ 2305843009213693952) }
    ensures { Put out.old led.at (update_text led.first (update_at bytes.now)) result.at out.new × (result.first ≡ false) × (result.at ≤ led.at + 60) }
{
    let update = decoder::update_at(bytes);
    let bits = parts::word_at(bytes, layout::UPDATE_NUMBER);
    let next = put_lead(out, led);
    let at = if update.adds {
        put_adds(out, next, update.variable, bits)
    } else {
        put_sets(out, next, update.variable, bits)
    };
    Led { at, first: false }
}

// Those of so many updates.
pub fn put_updates(bytes: &[u8], count: u8, out: &mut [u8], at: usize) -> Led
    requires { (count * 4 ≤ length bytes.now) × (at + count * 60 ≤ 2305843009213693952) }
    ensures { Put out.old at (updates_text true count bytes.now) result.at out.new × (result.first ≡ eqb count 0) × (result.at ≤ at + count * 60) }
{
    let mut led = Led { at, first: true };
    for k in 0..usize::from(count) {
        led = put_update(&bytes[k * layout::UPDATE_WIDTH..], out, led);
    }
    led
}

// The reset of a clock, if the lowest bit says so.
fn put_reset(bits: u8, clock: u8, out: &mut [u8], led: Led) -> Led
    requires { led.at + 40 ≤ 2305843009213693952 }
    ensures { Put out.old led.at (reset_of led.first clock (eqb (bits % 2) 1)) result.at out.new × (result.first ≡ cond (eqb (bits % 2) 1) false led.first) × (result.at ≤ led.at + 40) }
{
    if bits % 2 == 0 {
        return led;
    }
    let next = put_lead(out, led);
    let name = words::put_field(out, next, b"x", clock as u32);
    let at = words::put_words(out, name, b" := 0");
    Led { at, first: false }
}

// Those of all clocks, by the reset mask.
pub fn put_resets(mask: u8, clocks: u8, out: &mut [u8], begun: Led) -> Led
    requires { begun.at + clocks * 40 ≤ 2305843009213693952 }
    ensures { Put out.old begun.at (resets_text begun.first mask 0 clocks) result.at out.new × (result.first ≡ still_first begun.first mask 0 clocks) × (result.at ≤ begun.at + clocks * 40) }
{
    let mut bits = mask;
    let mut led = begun;
    for clock in 0..clocks {
        led = put_reset(bits, clock, out, led);
        bits /= 2;
    }
    led
}

// What closes the assignments, if there are any.
fn put_close(out: &mut [u8], led: Led) -> usize
    requires { led.at + 5 ≤ 2305843009213693952 }
    ensures { Put out.old led.at (cond led.first [] (ascii ";")) result out.new × (result ≤ led.at + 5) }
{
    if led.first {
        return led.at;
    }
    words::put_words(out, led.at, b";")
}

// The resets of the edge at the front behind its updates, and what closes them.
pub fn put_resets_closed(mask: u8, clocks: u8, out: &mut [u8], begun: Led) -> usize
    requires { (clocks ≤ 4) × (begun.at + 165 ≤ 2305843009213693952) }
    ensures { Put out.old begun.at (resets_text begun.first mask 0 clocks ++ cond (still_first begun.first mask 0 clocks) [] (ascii ";")) result out.new × (result ≤ begun.at + 165) }
{
    let led = put_resets(mask, clocks, out, begun);
    put_close(out, led)
}
