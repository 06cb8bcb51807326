// Who listens to a send window: the components as eight bits, and each one's row.
ghost use Rattle.std.specs.Prelude.{◌≡◌, ℕ, ◌^◌, ◌<◌, set};
ghost use Rattle.std.specs.Int.Bits.{bit_or};
ghost use Rattle.model.specs.Lists.{only};
ghost use Rattle.model.specs.Window.{channel_of};
ghost use Rattle.model.specs.Places.{read_of};
ghost use Rattle.model.specs.Schedule.{passage_arc};
ghost use Rattle.model.specs.Checks.{may_hear};
ghost use Rattle.rows.specs.Rows.{option_of, row_passage, rows_of, RowsPlaced};
ghost use Rattle.checks.specs.Listening.{repeated_with, Noted};

use crate::may_hear;
use crate::ticks::{cut_off, put_off, tick};

// Who listens to a send: each component's row, the components as eight bits, and those of them that do so by more than one window. The rows
// stand first: behind the two masks they would be copied out of step, which takes longer.
#[derive(Clone, Copy)]
pub struct Listeners {
    pub row: [usize; 8],
    pub listening: u8,
    pub repeated: u8,
}

impl Listeners {
    // One more window, which is that row's, of the component. If its bit is set already, the component listens by more than one.
    fn note(&mut self, component: usize, row: usize)
        requires { component < 8 }
        ensures listening { self.new.listening ≡ bit_or self.old.listening (2 ^ component) }
        ensures repeated { self.new.repeated ≡ repeated_with self.old.listening self.old.repeated component }
        ensures row { self.new.row ≡ set self.old.row component row }
    {
        let listening = with_bit(self.listening, component);
        if listening == self.listening {
            self.repeated = with_bit(self.repeated, component);
        }
        self.listening = listening;
        self.row[component] = row;
    }
}

// The mask with the component's bit set.
fn with_bit(mask: u8, component: usize) -> u8
    requires { component < 8 }
    ensures { result ≡ bit_or mask (2 ^ component) }
{
    mask | (1 << component)
}

// Who listens to the send window of row i by a window before row i. Rows that ended before it by more than the spread are passed over by their links.
fn listeners_before(
    table: &[u8],
    rows: &[u32],
    count: usize,
    i: usize,
    channel: Option<u8>,
    spread: u32,
) -> Listeners
    requires { RowsPlaced table.now rows.now count × (i < count) × (option_of channel ≡ channel_of (passage_arc (read_of table.now).table (row_passage rows.now i))) }
    ensures { Noted rows.now count (only (λ v. may_hear spread (read_of table.now).table v (row_passage rows.now i)) (rows_of rows.now i)) result.listening result.repeated result.row }
{
    let mut listeners = Listeners {
        row: [0; 8],
        listening: 0,
        repeated: 0,
    };
    let from = cut_off(rows::number(rows, i, rows::READY), spread);
    // A while of its own: the next row is read from the links, where from row i on rows are counted, and another tick ends the walk.
    let mut j = rows::open_before(rows, i, from);
    while 0 < j {
        let k = j - 1;
        if may_hear(table, rows, k, i, channel, spread) {
            listeners.note(rows::index(rows, k, rows::COMPONENT), k);
        }
        j = rows::open_before(rows, k, from);
    }
    listeners
}

// Who listens to the send window of row i, after those that do so by a window before row i.
fn listeners_from(
    table: &[u8],
    rows: &[u32],
    count: usize,
    i: usize,
    channel: Option<u8>,
    spread: u32,
    before: Listeners,
) -> Listeners
    requires { RowsPlaced table.now rows.now count × (i < count) × (option_of channel ≡ channel_of (passage_arc (read_of table.now).table (row_passage rows.now i))) × Noted rows.now count (only (λ v. may_hear spread (read_of table.now).table v (row_passage rows.now i)) (rows_of rows.now i)) before.listening before.repeated before.row }
    ensures { Noted rows.now count (only (λ v. may_hear spread (read_of table.now).table v (row_passage rows.now i)) (rows_of rows.now count)) result.listening result.repeated result.row }
{
    let until = put_off(rows, i, rows::END, spread);
    let mut listeners = before;
    for j in i..count {
        if until < tick(rows, j, rows::ENTRY) {
            break;
        }
        if may_hear(table, rows, j, i, channel, spread) {
            listeners.note(rows::index(rows, j, rows::COMPONENT), j);
        }
    }
    listeners
}

// Who listens to a send window.
pub fn listeners_of(table: &[u8], rows: &[u32], count: usize, send: usize, spread: u32) -> Listeners
    requires { RowsPlaced table.now rows.now count × (send < count) }
    ensures { Noted rows.now count (only (λ v. may_hear spread (read_of table.now).table v (row_passage rows.now send)) (rows_of rows.now count)) result.listening result.repeated result.row }
{
    let channel = rows::row_sent(table, rows, send);
    let before = listeners_before(table, rows, count, send, channel, spread);
    listeners_from(table, rows, count, send, channel, spread, before)
}
