// Check 12: the sends that a receive window may hear.
ghost use Rattle.std.specs.Prelude.{◌≡◌, true, ◌&&◌, ℕ, ◌<◌, length};
ghost use Rattle.model.specs.Lists.{only};
ghost use Rattle.model.specs.Places.{read_of};
ghost use Rattle.model.specs.Checks.{is_send, is_receive, crowded, may_hear};
ghost use Rattle.rows.specs.Rows.{row_passage, rows_of, RowKnown, RowsPlaced};

use crate::is_send;
use crate::ticks::{cut_off, overlap, put_off, tick};

// Whether row j is a send that row i, a receive, may hear.
fn hears_send(table: &[u8], rows: &[u32], i: usize, j: usize, horizon: u32, spread: u32) -> bool
    requires { RowKnown table.now rows.now i × RowKnown table.now rows.now j × (is_receive (read_of table.now).table (row_passage rows.now i) ≡ true) }
    ensures { result ≡ is_send (read_of table.now).table horizon (row_passage rows.now j) && may_hear spread (read_of table.now).table (row_passage rows.now i) (row_passage rows.now j) }
{
    if !overlap(rows, i, j, spread) {
        return false;
    }
    if !is_send(table, rows, j, horizon) {
        return false;
    }
    rows::row_lists(table, rows, i, rows::row_sent(table, rows, j))
}

// How many rows before row i, a receive, are sends that it may hear.
fn sends_before(
    table: &[u8],
    rows: &[u32],
    count: usize,
    i: usize,
    horizon: u32,
    spread: u32,
) -> usize
    requires { RowsPlaced table.now rows.now count × (i < count) × (is_receive (read_of table.now).table (row_passage rows.now i) ≡ true) }
    ensures { result ≡ length (only (λ o. is_send (read_of table.now).table horizon o && may_hear spread (read_of table.now).table (row_passage rows.now i) o) (rows_of rows.now i)) }
{
    let from = cut_off(rows::number(rows, i, rows::READY), spread);
    let mut sends: usize = 0;
    // A while of its own: the next row is read from the links, where from row i on rows are counted, and another tick ends the walk.
    let mut j = rows::open_before(rows, i, from);
    while 0 < j {
        let k = j - 1;
        if hears_send(table, rows, i, k, horizon, spread) {
            sends += 1;
        }
        j = rows::open_before(rows, k, from);
    }
    sends
}

// Whether the receive window of row i lies no more than the spread from two send windows of other components on its channels.
pub fn is_crowded(
    table: &[u8],
    rows: &[u32],
    count: usize,
    i: usize,
    horizon: u32,
    spread: u32,
) -> bool
    requires { RowsPlaced table.now rows.now count × (i < count) }
    ensures { result ≡ crowded spread (read_of table.now).table horizon (rows_of rows.now count) (row_passage rows.now i) }
{
    if !rows::row_receives(table, rows, i) {
        return false;
    }
    let until = put_off(rows, i, rows::END, spread);
    let mut sends = sends_before(table, rows, count, i, horizon, spread);
    if 2 <= sends {
        return true;
    }
    for j in i..count {
        if until < tick(rows, j, rows::ENTRY) {
            return false;
        }
        if hears_send(table, rows, i, j, horizon, spread) {
            sends += 1;
            if 2 <= sends {
                return true;
            }
        }
    }
    false
}
