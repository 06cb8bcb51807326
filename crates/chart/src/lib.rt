// The rows of a schedule drawn as a chart, one row of 69 bytes a component, over the front of the lent bytes: first the chart of no
// passage at all, then one window after the other.
#![tactic(auto)]

ghost use Rattle.std.specs.Prelude.{◌≡◌, ◌⊎◌, List, [], ◌++◌, ℕ, suc, ◌+◌, ◌*◌, ◌≤◌, ◌<◌, length, drop};
ghost use Rattle.model.specs.Lists.{snoc};
ghost use Rattle.model.specs.Table.{Table, size};
ghost use Rattle.model.specs.Places.{read_of};
ghost use Rattle.model.specs.Schedule.{Passage, passage_arc};
ghost use Rattle.model.specs.Chart.{letter_of, chart, Covers};
ghost use Rattle.rows.specs.Rows.{row_passage, rows_of, RowsPlaced, RowKnown};
ghost use Rattle.chart.specs.Drawn.{empty_cell, raised_of, Tells, Painted, EmptyCells, EmptyRow, Drawn};

// What a cell may show: a send, a receive or an internal window, none, or no tick.
pub const SEND: u8 = 83;

pub const RECEIVE: u8 = 82;

pub const INTERNAL: u8 = 87;

pub const DOT: u8 = 46;

pub const SPACE: u8 = 32;

// The bytes of a row, and where in it they stand: `C` in front, then these.
pub const ROW_WIDTH: usize = 69;

pub const ROW_DIGIT: usize = 1;

pub const ROW_COLON: usize = 2;

pub const ROW_SPACE: usize = 3;

pub const ROW_CELLS: usize = 4;

pub const ROW_LINE_FEED: usize = 68;

// What a chart shows of a passage.
#[derive(Clone, Copy)]
pub struct Window {
    pub component: usize,
    pub letter: u8,
    pub ready: u32,
    pub end: u32,
}

// The letter of row i's window.
fn letter_at(table: &[u8], rows: &[u32], i: usize) -> u8
    requires { RowKnown table.now rows.now i }
    ensures { result ≡ letter_of (passage_arc (read_of table.now).table (row_passage rows.now i)).edge.action }
{
    if rows::row_receives(table, rows, i) {
        return RECEIVE;
    }
    if rows::row_sent(table, rows, i).is_none() {
        return INTERNAL;
    }
    SEND
}

// The window of row i.
fn window_at(table: &[u8], rows: &[u32], i: usize) -> Window
    requires { RowKnown table.now rows.now i }
    ensures { Tells (read_of table.now).table (row_passage rows.now i) result }
{
    Window {
        component: rows::index(rows, i, rows::COMPONENT),
        letter: letter_at(table, rows, i),
        ready: rows::number(rows, i, rows::READY),
        end: rows::number(rows, i, rows::END),
    }
}

// The cell that covers a tick below the horizon.
fn cell_of(tick: u32, horizon: u32) -> usize
    requires { (tick < horizon) × (horizon ≤ 60000) }
    ensures { Covers horizon result tick × (result < 64) }
{
    let cell = (64 * tick + 63) / horizon;
    cell as usize
}

// The cell with one window more: a cell without ticks stays a space.
fn raised(shown: u8, letter: u8) -> u8
    ensures { result ≡ raised_of shown letter }
{
    if shown == SPACE {
        return shown;
    }
    if shown == SEND {
        return shown;
    }
    if letter == SEND {
        return letter;
    }
    if shown == RECEIVE {
        return shown;
    }
    letter
}

// A cell without windows: a dot, or a space where it has no ticks.
fn empty_cell(cell: u32, horizon: u32) -> u8
    requires { (cell < 64) × (horizon ≤ 60000) }
    ensures { result ≡ empty_cell horizon cell }
{
    if cell * horizon / 64 < (cell + 1) * horizon / 64 {
        DOT
    } else {
        SPACE
    }
}

// 64 cells without windows, from a place on.
fn put_cells(chart: &mut [u8], at: usize, horizon: u32)
    requires { (at + 64 ≤ length chart.old) × (at ≤ 1000) × (horizon ≤ 60000) }
    ensures { EmptyCells horizon at 64 chart.old chart.new }
{
    for i in 0..64 {
        chart[at + i] = empty_cell(i as u32, horizon);
    }
}

// The row of a component without windows.
fn put_row(chart: &mut [u8], component: usize, horizon: u32)
    requires { (component * 69 + 69 ≤ length chart.old) × (component < 8) × (horizon ≤ 60000) }
    ensures { EmptyRow horizon component chart.old chart.new }
{
    let at = component * ROW_WIDTH;
    put_cells(chart, at + ROW_CELLS, horizon);
    chart[at] = b'C';
    chart[at + ROW_DIGIT] = b'0' + (component as u8);
    chart[at + ROW_COLON] = b':';
    chart[at + ROW_SPACE] = b' ';
    chart[at + ROW_LINE_FEED] = b'\n';
}

// The chart of no passage.
fn put_rows(chart: &mut [u8], components: usize, horizon: u32)
    requires { (components * 69 ≤ length chart.old) × (components ≤ 8) × (horizon ≤ 60000) }
    ensures { (T : Table) → Drawn T horizon [] components chart.old chart.new }
{
    for c in 0..components {
        put_row(chart, c, horizon);
    }
}

// Raises the cells from a place on and before another.
fn paint(chart: &mut [u8], from: usize, until: usize, letter: u8)
    requires { (from ≤ until) × (until ≤ length chart.old) × (until ≤ 1000) }
    ensures { Painted from until letter chart.old chart.new }
{
    for k in from..until {
        chart[k] = raised(chart[k], letter);
    }
}

// The last tick below the horizon of a window that ends there.
fn last_tick(end: u32, horizon: u32) -> u32
    requires { 1 ≤ horizon }
    ensures { (result ≤ end) × (result < horizon) × ((result ≡ end) ⊎ (suc result ≡ horizon)) }
{
    if end < horizon { end } else { horizon - 1 }
}

// Draws one window more: the cells that cover its ticks below the horizon.
fn draw(chart: &mut [u8], window: Window, horizon: u32)
    requires { (window.component * 69 + 69 ≤ length chart.old) × (window.component < 8) × (window.ready ≤ window.end) × (horizon ≤ 60000) }
    ensures { (T : Table) (S : List Passage) (v : Passage) (n : ℕ) (old : List ℕ) → Tells T v window → window.component < n → Drawn T horizon S n old chart.old → Drawn T horizon (snoc S v) n old chart.new }
{
    let ready = window.ready;
    if horizon <= ready {
        return;
    }
    let end = window.end;
    let first = cell_of(ready, horizon);
    let last = cell_of(last_tick(end, horizon), horizon);
    let at = window.component * ROW_WIDTH + ROW_CELLS;
    paint(chart, at + first, at + last + 1, window.letter);
}

// Draws the windows of so many rows.
fn draw_rows(
    table: &[u8],
    rows: &[u32],
    count: usize,
    components: usize,
    horizon: u32,
    chart: &mut [u8],
)
    requires { RowsPlaced table.now rows.now count × (components ≡ size (read_of table.now).table) × (components ≤ 8) × (horizon ≤ 60000) × (components * 69 ≤ length chart.old) }
    ensures { (old : List ℕ) → Drawn (read_of table.now).table horizon [] components old chart.old → Drawn (read_of table.now).table horizon (rows_of rows.now count) components old chart.new }
{
    for i in 0..count {
        let window = window_at(table, rows, i);
        draw(chart, window, horizon);
    }
}

// Draws the chart of so many rows over the front of the lent bytes; what lies past it stays.
pub fn put_chart(
    table: &[u8],
    rows: &[u32],
    count: usize,
    components: usize,
    horizon: u32,
    lent: &mut [u8],
)
    requires { RowsPlaced table.now rows.now count × (components ≡ size (read_of table.now).table) × (components ≤ 8) × (horizon ≤ 60000) × (components * 69 ≤ length lent.old) }
    ensures { lent.new ≡ chart (read_of table.now).table horizon (rows_of rows.now count) ++ drop (components * 69) lent.old }
{
    put_rows(lent, components, horizon);
    draw_rows(table, rows, count, components, horizon, lent);
}
