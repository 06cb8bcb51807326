// Check 11: how a send window is heard, and the number of its fault (document 02, wish 3).
ghost use Rattle.std.specs.Prelude.{◌≡◌, [], ◌∷◌, ℕ, ◌+◌, ◌*◌, ◌≤◌, ◌<◌, length};
ghost use Rattle.model.specs.Places.{read_of};
ghost use Rattle.model.specs.Checks.{hearing_of, hearing_number, unheard_number};
ghost use Rattle.rows.specs.Rows.{row_passage, rows_of, RowsPlaced};
ghost use Rattle.checks.specs.Listening.{HeardAlone, HeardIs, HeardAs};

use crate::is_send;
use crate::listeners::listeners_of;
use crate::ticks::{put_off, tick};
use model::Hearing;

// How the sends are heard where each is heard well: each by a row of its own, or two of them by one row.
#[derive(Clone, Copy)]
pub enum SendsHeard {
    Apart,
    Shared,
}

// The first send that is not heard well, and how it is heard.
#[derive(Clone, Copy)]
pub struct Unheard {
    pub send: usize,
    pub hearing: Hearing,
}

// Whether a send window is heard well by the one receive window that lies no more than the spread from it, or how else. The start is asked first.
fn heard_by(rows: &[u32], receive: usize, send: usize, spread: u32) -> Result<(), Hearing>
    requires { (receive * 9 + 9 ≤ length rows.now) × (send * 9 + 9 ≤ length rows.now) }
    ensures { HeardAlone result (hearing_of spread (row_passage rows.now send) (row_passage rows.now receive ∷ [])) }
{
    if tick(rows, send, rows::READY) <= put_off(rows, receive, rows::READY, spread) {
        return Err(Hearing::LateStart);
    }
    if tick(rows, receive, rows::END) <= put_off(rows, send, rows::END, spread) {
        return Err(Hearing::EarlyEnd);
    }
    Ok(())
}

// The row that hears a send window well, or how else it is heard. The components listening are noted as eight bits: the count of ones decides, the trailing
// zeros give the number, and the number the row. Two windows of one component are one bit, and several all the same.
fn hearing(
    table: &[u8],
    rows: &[u32],
    count: usize,
    send: usize,
    spread: u32,
) -> Result<usize, Hearing>
    requires { RowsPlaced table.now rows.now count × (send < count) }
    ensures { HeardIs spread (read_of table.now).table rows.now count send result }
{
    let listeners = listeners_of(table, rows, count, send, spread);
    let components = u8::count_ones(listeners.listening);
    if components == 0 {
        return Err(Hearing::Nobody);
    }
    if components != 1 {
        return Err(Hearing::Several);
    }
    if listeners.repeated != 0 {
        return Err(Hearing::Several);
    }
    let component = u8::trailing_zeros(listeners.listening) as usize;
    let row = listeners.row[component];
    heard_by(rows, row, send, spread)?;
    Ok(row)
}

// The number of the fault; 0 for none, as `hearing_number` has it.
pub fn number_of(hearing: Hearing) -> u8
    ensures { result ≡ hearing_number hearing }
{
    match hearing {
        Hearing::Well => 0,
        Hearing::Nobody => 11,
        Hearing::Several => 15,
        Hearing::LateStart => 16,
        Hearing::EarlyEnd => 17,
    }
}

// The number of the fault in how a send window is heard; 0 where it has none, as `unheard_number` has it.
pub fn number(table: &[u8], rows: &[u32], count: usize, send: usize, spread: u32) -> u8
    requires { RowsPlaced table.now rows.now count × (send < count) }
    ensures { result ≡ unheard_number spread (read_of table.now).table (rows_of rows.now count) (row_passage rows.now send) }
{
    match hearing(table, rows, count, send, spread) {
        Ok(_) => 0,
        Err(fault) => number_of(fault),
    }
}

// 11 for every send, and what this tells of 12: each send's listener is noted, and whether a row is that of two sends.
pub fn hear_sends(
    table: &[u8],
    rows: &[u32],
    count: usize,
    horizon: u32,
    spread: u32,
) -> Result<SendsHeard, Unheard>
    requires { RowsPlaced table.now rows.now count }
    ensures { HeardAs spread (read_of table.now).table horizon rows.now count result }
{
    let mut listens = [0u8; 1024];
    let mut apart = true;
    for send in 0..count {
        if is_send(table, rows, send, horizon) {
            let row = match hearing(table, rows, count, send, spread) {
                Ok(row) => row,
                Err(hearing) => return Err(Unheard { send, hearing }),
            };
            apart = parts::both(apart, listens[row] == 0);
            listens[row] = 1;
        }
    }
    if apart {
        return Ok(SendsHeard::Apart);
    }
    Ok(SendsHeard::Shared)
}
