// How far the windows of a schedule lie apart: a spread at which checks 10 to 12 are likely to be passed, while one fails at the next. Nothing is
// proved of it but that it is safe: whoever asks tries both.
ghost use Rattle.std.specs.Prelude.{◌+◌, ◌*◌, ◌≤◌, ◌<◌, length};
ghost use Rattle.rows.specs.Rows.{RowKnown, RowsPlaced};

use crate::ticks::{cut_off, put_off, tick};
use crate::{is_send, same_band};

// The ticks from one to another, 0 if that isn't later.
fn until(from: u32, to: u32) -> u32 {
    to.saturating_sub(from)
}

fn lesser(first: u32, second: u32) -> u32 {
    first.min(second)
}

// The least spread at which row j, a receive that lists its channel, has a part in a fault of row i, a send: it lies so far away, or it starts so little
// earlier or ends so little later.
fn far(rows: &[u32], i: usize, j: usize) -> u32
    requires { (i * 9 + 9 ≤ length rows.now) × (j * 9 + 9 ≤ length rows.now) }
{
    let ready = rows::number(rows, i, rows::READY);
    let end = rows::number(rows, i, rows::END);
    let start = rows::number(rows, j, rows::READY);
    let stop = rows::number(rows, j, rows::END);
    if stop < ready {
        return until(stop, ready);
    }
    if end < start {
        return until(end, start);
    }
    lesser(until(start, ready), until(end, stop))
}

// The least so far, or that of row j if it is such a receive of another component.
fn least_by(table: &[u8], rows: &[u32], i: usize, j: usize, channel: Option<u8>, least: u32) -> u32
    requires { RowKnown table.now rows.now i × RowKnown table.now rows.now j }
{
    if rows::number(rows, i, rows::COMPONENT) == rows::number(rows, j, rows::COMPONENT) {
        return least;
    }
    if !rows::row_receives(table, rows, j) {
        return least;
    }
    if !rows::row_lists(table, rows, j, channel) {
        return least;
    }
    lesser(least, far(rows, i, j))
}

// The same with row j behind row i, which may be a send too.
fn least_behind(
    table: &[u8],
    rows: &[u32],
    i: usize,
    j: usize,
    channel: Option<u8>,
    horizon: u32,
    least: u32,
) -> u32
    requires { RowKnown table.now rows.now i × RowKnown table.now rows.now j }
{
    if !is_send(table, rows, j, horizon) {
        return least_by(table, rows, i, j, channel, least);
    }
    if rows::number(rows, i, rows::COMPONENT) == rows::number(rows, j, rows::COMPONENT) {
        return least;
    }
    if !same_band(table, rows, i, j) {
        return least;
    }
    lesser(
        least,
        until(
            rows::number(rows, i, rows::END),
            rows::number(rows, j, rows::READY),
        ),
    )
}

// The least of the rows before row i.
fn least_before(
    table: &[u8],
    rows: &[u32],
    count: usize,
    i: usize,
    channel: Option<u8>,
    most: u32,
) -> u32
    requires { RowsPlaced table.now rows.now count × (i < count) }
{
    let mut least = most;
    let from = cut_off(rows::number(rows, i, rows::READY), most);
    // A while of its own: the next row is read from the links, where from row i on rows are counted, and another tick ends the walk.
    let mut j = rows::open_before(rows, i, from);
    while 0 < j {
        let k = j - 1;
        least = least_by(table, rows, i, k, channel, least);
        j = rows::open_before(rows, k, from);
    }
    least
}

// The least of the rows from row i on.
fn least_from(
    table: &[u8],
    rows: &[u32],
    count: usize,
    i: usize,
    channel: Option<u8>,
    horizon: u32,
    most: u32,
) -> u32
    requires { RowsPlaced table.now rows.now count × (i < count) }
{
    let mut least = most;
    for j in i..count {
        if put_off(rows, i, rows::END, least) <= tick(rows, j, rows::ENTRY) {
            return least;
        }
        least = least_behind(table, rows, i, j, channel, horizon, least);
    }
    least
}

// The spread.
pub fn likely(table: &[u8], rows: &[u32], count: usize, horizon: u32) -> u32
    requires { RowsPlaced table.now rows.now count }
{
    let mut least: u32 = 1001;
    for i in 0..count {
        if is_send(table, rows, i, horizon) {
            let channel = rows::row_sent(table, rows, i);
            let before = least_before(table, rows, count, i, channel, least);
            least = least_from(table, rows, count, i, channel, horizon, before);
        }
    }
    until(1, least)
}
