// A refusal in words: the number, the question that was asked, and the component.
#![tactic(auto)]

ghost use Rattle.std.specs.Prelude.{◌≡◌, List, ◌++◌, ℕ, ◌+◌, ◌≤◌, ◌<◌, length};
ghost use Rattle.text.specs.Words.{Added};
ghost use Rattle.refusal_text.specs.RefusalText.{question, concern, refusal_text};

use text::{put, put_field, put_refusal};

// The questions about the bytes.
fn put_question_on_bytes(out: &mut [u8], at: usize, number: u8) -> usize
    requires { (at + 80 ≤ length out.old) × (number < 7) }
    ensures { Added out.old at (question number) out.new result × (result ≤ at + 80) }
{
    match number {
        0 => put(out, at, b"Does a question have this number?\n"),
        1 => put(out, at, b"Is the first byte 1, 2 or 3?\n"),
        2 => put(
            out,
            at,
            b"Is the stated length the length handed in, from 7 to 8,192?\n",
        ),
        3 => put(
            out,
            at,
            b"Are components, channels, horizon and bands in range?\n",
        ),
        4 => put(
            out,
            at,
            b"Does each part fit its component and end exactly there?\n",
        ),
        5 => put(
            out,
            at,
            b"Is every number in its range and every mask bit a clock?\n",
        ),
        _ => put(out, at, b"Does no receive edge list a channel twice?\n"),
    }
}

// The questions about time.
fn put_question_on_time(out: &mut [u8], at: usize, number: u8) -> usize
    requires { (at + 80 ≤ length out.old) × (7 ≤ number) × (number < 13) }
    ensures { Added out.old at (question number) out.new result × (result ≤ at + 80) }
{
    match number {
        7 => put(
            out,
            at,
            b"Are there at most 1,024 passages up to the horizon?\n",
        ),
        8 => put(
            out,
            at,
            b"Is there an edge with a window of a tick's length, no shorter than its budget?\n",
        ),
        9 => put(
            out,
            at,
            b"Does each update of the edge taken stay in range?\n",
        ),
        10 => put(
            out,
            at,
            b"Do no two send windows of different components on one band share a tick?\n",
        ),
        11 => put(
            out,
            at,
            b"Does a receive window on its channel share a tick with the send window?\n",
        ),
        _ => put(
            out,
            at,
            b"Does no receive window share a tick with two sends on its channels?\n",
        ),
    }
}

// The questions about the call alone.
fn put_question_on_call(out: &mut [u8], at: usize, number: u8) -> usize
    requires { (at + 80 ≤ length out.old) × (13 ≤ number) × (number < 15) }
    ensures { Added out.old at (question number) out.new result × (result ≤ at + 80) }
{
    match number {
        13 => put(out, at, b"Does the lent buffer hold the result?\n"),
        _ => put(out, at, b"Are there at most 1,000,000 choices?\n"),
    }
}

// The questions about the listener of a send.
fn put_question_on_listener(out: &mut [u8], at: usize, number: u8) -> usize
    requires { (at + 80 ≤ length out.old) × (15 ≤ number) × (number < 18) }
    ensures { Added out.old at (question number) out.new result × (result ≤ at + 80) }
{
    match number {
        15 => put(
            out,
            at,
            b"Does only one receive window on its channel share a tick with the send?\n",
        ),
        16 => put(
            out,
            at,
            b"Does the one receive window that meets the send start earlier than it?\n",
        ),
        _ => put(
            out,
            at,
            b"Does the one receive window that meets the send end later than it?\n",
        ),
    }
}

// The questions about numbers handed in: a plan's, the spread, the offsets, a component and a tick, the seed, ticks of work and runs.
fn put_question_on_numbers(out: &mut [u8], at: usize, number: u8) -> usize
    requires { (at + 80 ≤ length out.old) × (18 ≤ number) × (number < 24) }
    ensures { Added out.old at (question number) out.new result × (result ≤ at + 80) }
{
    match number {
        18 => put(
            out,
            at,
            b"Are the numbers in range and probes x (slot + 2 x guard) below the period?\n",
        ),
        19 => put(out, at, b"Is the spread at most 1,000 ticks?\n"),
        20 => put(out, at, b"Is no offset above the spread?\n"),
        21 => put(
            out,
            at,
            b"Is the component there and the tick below the horizon?\n",
        ),
        22 => put(out, at, b"Is the seed at least 1?\n"),
        _ => put(
            out,
            at,
            b"Is lo at most hi, hi at most 60,000, and are the runs 1 to 10,000?\n",
        ),
    }
}

// The questions of further calls: about the order of pairs, a table that is exported, a site, a run's horizon. A number past them has none.
fn put_question_on_further_calls(out: &mut [u8], at: usize, number: u8) -> usize
    requires { (at + 80 ≤ length out.old) × (24 ≤ number) }
    ensures { Added out.old at (question number) out.new result × (result ≤ at + 80) }
{
    match number {
        24 => put(out, at, b"Is no tick below that of the pair before it?\n"),
        25 => put(out, at, b"Are all budgets 0?\n"),
        26 => put(
            out,
            at,
            b"Is it a place 0 to 3, empty when putting, filled when taking?\n",
        ),
        27 => put(out, at, b"Is the horizon that of the networks present?\n"),
        28 => put(
            out,
            at,
            b"Is the airtime in use with this network at most the limit?\n",
        ),
        29 => put(
            out,
            at,
            b"Is the horizon at least 1, and at most the table's unless all comes again?\n",
        ),
        _ => put(out, at, b"Does a question have this number?\n"),
    }
}

fn put_question(out: &mut [u8], at: usize, number: u8) -> usize
    requires { at + 80 ≤ length out.old }
    ensures { Added out.old at (question number) out.new result × (result ≤ at + 80) }
{
    if number < 7 {
        put_question_on_bytes(out, at, number)
    } else if number < 13 {
        put_question_on_time(out, at, number)
    } else if number < 15 {
        put_question_on_call(out, at, number)
    } else if number < 18 {
        put_question_on_listener(out, at, number)
    } else if number < 24 {
        put_question_on_numbers(out, at, number)
    } else {
        put_question_on_further_calls(out, at, number)
    }
}

// Whom it concerns.
fn put_concern(out: &mut [u8], at: usize, component: u8) -> usize
    requires { at + 40 ≤ length out.old }
    ensures { Added out.old at (concern component) out.new result × (result ≤ at + 40) }
{
    if component == 255 {
        return put(out, at, b"No single component is concerned.\n");
    }
    let last = put_field(out, at, b"Component ", component as u32);
    put(out, last, b" is concerned.\n")
}

// A refusal: `refused`, number, component on a line, then the question that was asked, and whom it concerns.
pub fn put_refusal_text(out: &mut [u8], at: usize, number: u8, component: u8) -> usize
    requires { at + 170 ≤ length out.old }
    ensures { Added out.old at (refusal_text number component) out.new result × (result ≤ at + 170) }
{
    let second = put_refusal(out, at, number, component);
    let asked = put(out, second, b"The answer is no: ");
    let last = put_question(out, asked, number);
    put_concern(out, last, component)
}
