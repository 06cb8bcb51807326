// A run in words, and its observations as a table.
// A slice with a place beside it, and no string: there is no heap.
#![tactic(auto, using(text::proofs::Appended::next))]

mod offsets;

ghost use Rattle.std.specs.Prelude.{◌≡◌, List, ℕ, ◌+◌, ◌*◌, ◌≤◌, ◌<◌, length};
ghost use Rattle.model.specs.Run.{observation_width};
ghost use Rattle.text.specs.Words.{Added};
ghost use Rattle.run_text.specs.RunText.{long, word, place_columns, tick_columns, time_columns, value_columns, finish_text, observation_line, observation_lines, not_allowed, end_text, counts_text};

use model::{End, layout};
pub use offsets::put_offsets;
use text::{put, put_column, put_field, put_signed_column};

// The tick that stands in a node's first observation.
const NO_WORK: u32 = u32::MAX;

fn word_at(bytes: &[u8], at: usize) -> u32
    requires { at + 1 < length bytes.now }
    ensures { (result ≡ word bytes.now at) × (result < 65536) }
{
    u32::from(bytes[at]) * 256 + u32::from(bytes[at + 1])
}

fn long_at(bytes: &[u8], at: usize) -> u32
    requires { at + 3 < length bytes.now }
    ensures { result ≡ long bytes.now at }
{
    (word_at(bytes, at) * 256 + u32::from(bytes[at + 2])) * 256 + u32::from(bytes[at + 3])
}

// The place: component, edge and location of the observation at the front.
fn put_place_columns(out: &mut [u8], at: usize, o: &[u8]) -> usize
    requires { (at + 48 ≤ length out.old) × (32 ≤ length o.now) }
    ensures { Added out.old at (place_columns o.now) out.new result × (result ≤ at + 48) }
{
    let edge = put_column(out, at, u32::from(o[0]), 4);
    let location = put_column(out, edge, u32::from(o[1]), 5);
    put_column(out, location, u32::from(o[2]), 9)
}

// Its tick and first two clocks.
fn put_tick_columns(out: &mut [u8], at: usize, o: &[u8]) -> usize
    requires { (at + 48 ≤ length out.old) × (32 ≤ length o.now) }
    ensures { Added out.old at (tick_columns o.now) out.new result × (result ≤ at + 48) }
{
    let first = put_column(out, at, long_at(o, 4), 6);
    let second = put_column(out, first, long_at(o, 8), 6);
    put_column(out, second, long_at(o, 12), 6)
}

// Its tick and clocks.
fn put_time_columns(out: &mut [u8], at: usize, o: &[u8]) -> usize
    requires { (at + 80 ≤ length out.old) × (32 ≤ length o.now) }
    ensures { Added out.old at (time_columns o.now) out.new result × (result ≤ at + 80) }
{
    let third = put_tick_columns(out, at, o);
    let fourth = put_column(out, third, long_at(o, 16), 6);
    put_column(out, fourth, long_at(o, 20), 6)
}

// Its variables.
fn put_value_columns(out: &mut [u8], at: usize, o: &[u8]) -> usize
    requires { (at + 72 ≤ length out.old) × (32 ≤ length o.now) }
    ensures { Added out.old at (value_columns o.now) out.new result × (result ≤ at + 72) }
{
    let second = put_signed_column(out, at, word_at(o, 24), 7);
    let third = put_signed_column(out, second, word_at(o, 26), 7);
    let fourth = put_signed_column(out, third, word_at(o, 28), 7);
    put_signed_column(out, fourth, word_at(o, 30), 7)
}

// When the previous work finished.
fn put_finish(out: &mut [u8], at: usize, tick: u32) -> usize
    requires { at + 19 ≤ length out.old }
    ensures { Added out.old at (finish_text tick) out.new result × (result ≤ at + 19) }
{
    if tick == NO_WORK {
        return put(out, at, b"        -");
    }
    put_column(out, at, tick, 9)
}

// The line of the observation at the front.
fn put_observation(out: &mut [u8], at: usize, o: &[u8]) -> usize
    requires { (at + 220 ≤ length out.old) × (observation_width ≤ length o.now) }
    ensures { Added out.old at (observation_line o.now) out.new result × (result ≤ at + 220) }
{
    let tick = put_place_columns(out, at, o);
    let values = put_time_columns(out, tick, o);
    let finish = put_value_columns(out, values, o);
    let last = put_finish(out, finish, long_at(o, layout::OBSERVATION_PREVIOUS));
    put(out, last, b"\n")
}

// So many observations from the front on, a line each.
pub fn put_observations(out: &mut [u8], at: usize, bytes: &[u8], n: usize) -> usize
    requires { (at + n * 220 ≤ length out.old) × (n * observation_width ≤ length bytes.now) }
    ensures { Added out.old at (observation_lines bytes.now n) out.new result × (result ≤ at + n * 220) }
{
    let mut end = at;
    for i in 0..n {
        end = put_observation(out, end, &bytes[i * layout::OBSERVATION_WIDTH..]);
    }
    end
}

// The choice that was not allowed is the first that was not carried out. Choices are numbered from 0.
fn put_not_allowed(out: &mut [u8], at: usize, choices: &[u8], used: u32) -> usize
    requires { at + 60 ≤ length out.old }
    ensures { Added out.old at (not_allowed choices.now used) out.new result × (result ≤ at + 60) }
{
    let last = put_field(out, at, b"choice not allowed: number ", used);
    match choices.get(used as usize) {
        Some(choice) => put_field(out, last, b", byte ", u32::from(*choice)),
        None => last,
    }
}

// How the run ended.
pub fn put_end(out: &mut [u8], at: usize, end: End, choices: &[u8], used: u32) -> usize
    requires { at + 60 ≤ length out.old }
    ensures { Added out.old at (end_text end choices.now used) out.new result × (result ≤ at + 60) }
{
    match end {
        End::Horizon => put(out, at, b"horizon reached"),
        End::UsedUp => put(out, at, b"choices used up"),
        End::Late(node) => put_field(out, at, b"late: node ", u32::from(node)),
        End::NotAllowed => put_not_allowed(out, at, choices, used),
    }
}

// The tick, the choices used and the observations.
pub fn put_counts(out: &mut [u8], at: usize, tick: u32, used: u32, size: u32) -> usize
    requires { at + 70 ≤ length out.old }
    ensures { Added out.old at (counts_text tick used size) out.new result × (result ≤ at + 70) }
{
    let second = put_field(out, at, b"\ntick ", tick);
    let third = put_field(out, second, b", choices used ", used);
    let last = put_field(out, third, b", observations ", size);
    put(out, last, b"\n")
}
