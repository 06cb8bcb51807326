// Checks 10 to 12 of document 01, over the rows of a finished schedule. In the place of 11 stands the number of the fault (document 02, wish 3).
// Two windows count as sharing a tick where they lie no more than the spread apart (wish 6).
#![tactic(auto)]

mod crowded;
pub mod distances;
mod listeners;
mod ticks;
pub mod unheard;

ghost use Rattle.std.specs.Prelude.{◌≡◌, false, ℕ, ◌<◌, IfSome};
ghost use Rattle.model.specs.declared.Verdict.TheVariants.{Refused};
ghost use Rattle.model.specs.Lists.{first};
ghost use Rattle.model.specs.Window.{channel_of};
ghost use Rattle.model.specs.Table.{band_of};
ghost use Rattle.model.specs.Places.{Valid, read_of};
ghost use Rattle.model.specs.Schedule.{passage_arc};
ghost use Rattle.model.specs.Checks.{disturb, is_send, meets, collides, unheard, crowded, may_hear, checked};
ghost use Rattle.model.specs.Calls.{verdict_of};
ghost use Rattle.rows.specs.Rows.{num, option_of, found_passage, row_passage, rows_of, RowKnown, RowsPlaced};
ghost use Rattle.checks.specs.Faults.{RowStands, from12, from11};

use crowded::is_crowded;
use model::{Verdict, layout};
use ticks::{overlap, put_off, tick};
use unheard::{SendsHeard, hear_sends};

// Whether row i is a send that is ready before the horizon.
pub fn is_send(table: &[u8], rows: &[u32], i: usize, horizon: u32) -> bool
    requires { RowKnown table.now rows.now i }
    ensures { result ≡ is_send (read_of table.now).table horizon (row_passage rows.now i) }
{
    if horizon <= rows::number(rows, i, rows::READY) {
        return false;
    }
    rows::row_sent(table, rows, i).is_some()
}

// The band of a channel: in version 1 always 0, else its byte after the header.
fn band(table: &[u8], channel: u8) -> u8
    requires { Valid table.now × (channel < (read_of table.now).table.channels) }
    ensures { result ≡ band_of (read_of table.now).table channel }
{
    if table[layout::TABLE_VERSION] < 2 {
        return 0;
    }
    table[layout::TABLE_HEADER + channel as usize]
}

// Whether rows i and j are sends on one band.
fn same_band(table: &[u8], rows: &[u32], i: usize, j: usize) -> bool
    requires { RowKnown table.now rows.now i × RowKnown table.now rows.now j }
    ensures { result ≡ disturb (read_of table.now).table (row_passage rows.now i) (row_passage rows.now j) }
{
    let Some(one) = rows::row_sent(table, rows, i) else {
        return false;
    };
    let Some(other) = rows::row_sent(table, rows, j) else {
        return false;
    };
    band(table, one) == band(table, other)
}

// Whether row j is a send of another component, on the band of row i, a send, and lies no more than the spread from it.
pub fn is_met(table: &[u8], rows: &[u32], i: usize, j: usize, horizon: u32, spread: u32) -> bool
    requires { RowKnown table.now rows.now i × RowKnown table.now rows.now j }
    ensures { result ≡ meets spread (read_of table.now).table horizon (row_passage rows.now i) (row_passage rows.now j) }
{
    if !overlap(rows, j, i, spread) {
        return false;
    }
    if !is_send(table, rows, j, horizon) {
        return false;
    }
    same_band(table, rows, i, j)
}

// Whether the send window of row i meets one of another component on its band, where no row before it does so: then it meets none of them.
fn collides_with_one(
    table: &[u8],
    rows: &[u32],
    count: usize,
    i: usize,
    horizon: u32,
    spread: u32,
) -> bool
    requires { RowsPlaced table.now rows.now count × (i < count) × ((k : ℕ) → k < i → collides spread (read_of table.now).table horizon (rows_of rows.now count) (row_passage rows.now k) ≡ false) }
    ensures { result ≡ collides spread (read_of table.now).table horizon (rows_of rows.now count) (row_passage rows.now i) }
{
    if !is_send(table, rows, i, horizon) {
        return false;
    }
    let until = put_off(rows, i, rows::END, spread);
    for j in i..count {
        if until < tick(rows, j, rows::ENTRY) {
            return false;
        }
        if is_met(table, rows, i, j, horizon, spread) {
            return true;
        }
    }
    false
}

// Whether row j hears the send window of row i, which is on that channel.
pub fn may_hear(
    table: &[u8],
    rows: &[u32],
    j: usize,
    i: usize,
    channel: Option<u8>,
    spread: u32,
) -> bool
    requires { RowKnown table.now rows.now j × RowKnown table.now rows.now i × (option_of channel ≡ channel_of (passage_arc (read_of table.now).table (row_passage rows.now i))) }
    ensures { result ≡ may_hear spread (read_of table.now).table (row_passage rows.now j) (row_passage rows.now i) }
{
    if !overlap(rows, j, i, spread) {
        return false;
    }
    if !rows::row_receives(table, rows, j) {
        return false;
    }
    rows::row_lists(table, rows, j, channel)
}

// 10: the first send that collides with another.
pub fn first_collision(
    table: &[u8],
    rows: &[u32],
    count: usize,
    horizon: u32,
    spread: u32,
) -> Option<usize>
    requires { RowsPlaced table.now rows.now count }
    ensures { (found_passage rows.now result ≡ first (collides spread (read_of table.now).table horizon (rows_of rows.now count)) (rows_of rows.now count)) × IfSome result (λ i. i < count) }
{
    // A loop, no `find`: what is asked of a row rests on the answers for the rows before it.
    for i in 0..count {
        if collides_with_one(table, rows, count, i, horizon, spread) {
            return Some(i);
        }
    }
    None
}

// 11: the first send that is not heard well.
pub fn first_unheard(
    table: &[u8],
    rows: &[u32],
    count: usize,
    horizon: u32,
    spread: u32,
) -> Option<usize>
    requires { RowsPlaced table.now rows.now count }
    ensures { (found_passage rows.now result ≡ first (unheard spread (read_of table.now).table horizon (rows_of rows.now count)) (rows_of rows.now count)) × IfSome result (λ i. i < count) }
{
    match hear_sends(table, rows, count, horizon, spread) {
        Ok(_) => None,
        Err(fault) => Some(fault.send),
    }
}

// 12: the first receive that hears two sends.
pub fn first_crowded(
    table: &[u8],
    rows: &[u32],
    count: usize,
    horizon: u32,
    spread: u32,
) -> Option<usize>
    requires { RowsPlaced table.now rows.now count }
    ensures { (found_passage rows.now result ≡ first (crowded spread (read_of table.now).table horizon (rows_of rows.now count)) (rows_of rows.now count)) × IfSome result (λ i. i < count) }
{
    for i in 0..count {
        if is_crowded(table, rows, count, i, horizon, spread) {
            return Some(i);
        }
    }
    None
}

// The refusal with that number, of the component of row i.
pub fn refused(rows: &[u32], number: u8, i: usize) -> Verdict
    requires { RowStands rows.now i }
    ensures { result ≡ Refused number (num rows.now i 0) }
{
    Verdict::Refused(number, rows::number(rows, i, rows::COMPONENT) as u8)
}

// Check 12.
fn check_crowded(table: &[u8], rows: &[u32], count: usize, horizon: u32, spread: u32) -> Verdict
    requires { RowsPlaced table.now rows.now count }
    ensures { result ≡ verdict_of (from12 spread (read_of table.now).table horizon (rows_of rows.now count)) }
{
    match first_crowded(table, rows, count, horizon, spread) {
        None => Verdict::Accepted,
        Some(i) => refused(rows, 12, i),
    }
}

// Checks 11 and 12. Where each send has a listener of its own, no receive hears two.
fn check_heard(table: &[u8], rows: &[u32], count: usize, horizon: u32, spread: u32) -> Verdict
    requires { RowsPlaced table.now rows.now count }
    ensures { result ≡ verdict_of (from11 spread (read_of table.now).table horizon (rows_of rows.now count)) }
{
    match hear_sends(table, rows, count, horizon, spread) {
        Ok(SendsHeard::Apart) => Verdict::Accepted,
        Ok(SendsHeard::Shared) => check_crowded(table, rows, count, horizon, spread),
        Err(fault) => refused(rows, unheard::number_of(fault.hearing), fault.send),
    }
}

// Checks 10, 11, 12, each over the whole schedule before the next.
pub fn check_messages(
    table: &[u8],
    rows: &[u32],
    count: usize,
    horizon: u32,
    spread: u32,
) -> Verdict
    requires { RowsPlaced table.now rows.now count }
    ensures { result ≡ verdict_of (checked spread (read_of table.now).table horizon (rows_of rows.now count)) }
{
    match first_collision(table, rows, count, horizon, spread) {
        None => check_heard(table, rows, count, horizon, spread),
        Some(i) => refused(rows, 10, i),
    }
}
