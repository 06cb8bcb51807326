// Which windows met: for a table that checks 10 to 12 refuse (15 to 17 stand in the place of 11), the passage at fault and the passages that it
// meets; at a spread, windows meet that are as close as it or closer.
// The definition is model's specs/Meetings.antt.
#![tactic(auto)]

ghost use Rattle.std.specs.Prelude.{◌≡◌, ◌++◌, ◌+◌, ◌*◌, ◌≤◌, ◌<◌, length, drop};
ghost use Rattle.model.specs.declared.Verdict.TheVariants.{Accepted, Refused};
ghost use Rattle.model.specs.Lists.{only, each};
ghost use Rattle.model.specs.Reader.{byte};
ghost use Rattle.model.specs.Places.{Valid, read_of};
ghost use Rattle.model.specs.Schedule.{seven_of};
ghost use Rattle.model.specs.Checks.{checked};
ghost use Rattle.model.specs.Calls.{verdict_of};
ghost use Rattle.model.specs.Meetings.{concerned, meetings_call_at, meetings_call};
ghost use Rattle.table.specs.Directory.{starts_of};
ghost use Rattle.rows.specs.Rows.{num, row_passage, rows_of, RowKnown, RowsPlaced};
ghost use Rattle.meetings.specs.Asked.{number_asked, met_by, found_by, listing, Says};

use model::{Verdict, layout};

// Which of the questions 10 to 12 a passage fails.
#[derive(Clone, Copy)]
pub enum Question {
    Collision,
    Unheard,
    Crowded,
}

// The verdict of checks 1 to 12 on the table; the call's own answer, 13 where the list is too short; and how many passages are listed. Two verdicts
// and no `Result`: the list is there after 10 to 12 too.
#[derive(Clone, Copy)]
pub struct Listed {
    pub table: Verdict,
    pub verdict: Verdict,
    pub size: usize,
}

// There is nothing to list.
fn nothing(table: Verdict) -> Listed
    ensures { (result.table ≡ table) × (result.verdict ≡ Accepted) × (result.size ≡ 0) }
{
    Listed {
        table,
        verdict: Verdict::Accepted,
        size: 0,
    }
}

// The number of the refusal of row i, at fault by that question.
fn number_of(
    table: &[u8],
    rows: &[u32],
    count: usize,
    i: usize,
    question: Question,
    spread: u32,
) -> u8
    requires { RowsPlaced table.now rows.now count × (i < count) }
    ensures { result ≡ number_asked spread question (read_of table.now).table (rows_of rows.now count) (row_passage rows.now i) }
{
    match question {
        Question::Collision => 10,
        Question::Unheard => checks::unheard::number(table, rows, count, i, spread),
        Question::Crowded => 12,
    }
}

// The horizon of a valid table.
fn horizon(table: &[u8]) -> u32
    requires { Valid table.now }
    ensures { result ≡ (read_of table.now).horizon }
{
    parts::word_at(table, layout::TABLE_HORIZON) as u32
}

// Whether row j is one that row i, at fault by that question, meets.
fn is_met(
    table: &[u8],
    rows: &[u32],
    i: usize,
    j: usize,
    horizon: u32,
    question: Question,
    spread: u32,
) -> bool
    requires { RowKnown table.now rows.now i × RowKnown table.now rows.now j }
    ensures { result ≡ met_by spread question (read_of table.now).table horizon (row_passage rows.now i) (row_passage rows.now j) }
{
    match question {
        Question::Collision => checks::is_met(table, rows, i, j, horizon, spread),
        Question::Unheard => checks::may_hear(
            table,
            rows,
            j,
            i,
            rows::row_sent(table, rows, i),
            spread,
        ),
        Question::Crowded => {
            let heard = checks::may_hear(table, rows, i, j, rows::row_sent(table, rows, j), spread);
            parts::both(checks::is_send(table, rows, j, horizon), heard)
        }
    }
}

// How many of the first `count` rows row i meets.
fn count_met(
    table: &[u8],
    rows: &[u32],
    count: usize,
    i: usize,
    horizon: u32,
    question: Question,
    spread: u32,
) -> usize
    requires { RowsPlaced table.now rows.now count × (i < count) }
    ensures { (result ≡ length (only (met_by spread question (read_of table.now).table horizon (row_passage rows.now i)) (rows_of rows.now count))) × (result ≤ count) }
{
    let mut met: usize = 0;
    for j in 0..count {
        if is_met(table, rows, i, j, horizon, question, spread) {
            met += 1;
        }
    }
    met
}

// Writes row i and those of the first `count` rows that it meets; what lies past them stays.
fn put_met(
    table: &[u8],
    rows: &[u32],
    count: usize,
    i: usize,
    horizon: u32,
    question: Question,
    list: &mut [u32],
    spread: u32,
)
    requires { RowsPlaced table.now rows.now count × (i < count) × (length (found_by spread question (read_of table.now).table horizon (rows_of rows.now count) (row_passage rows.now i)) * 7 ≤ length list.old) }
    ensures { list.new ≡ each seven_of (found_by spread question (read_of table.now).table horizon (rows_of rows.now count) (row_passage rows.now i)) ++ drop (length (found_by spread question (read_of table.now).table horizon (rows_of rows.now count) (row_passage rows.now i)) * 7) list.old }
{
    schedule::put_seven(rows, i, list, 0);
    let mut k: usize = 1;
    for j in 0..count {
        if is_met(table, rows, i, j, horizon, question, spread) {
            schedule::put_seven(rows, j, list, k);
            k += 1;
        }
    }
}

// Row i is at fault by that question.
fn list_fault(
    table: &[u8],
    rows: &[u32],
    count: usize,
    i: usize,
    horizon: u32,
    question: Question,
    list: &mut [u32],
    spread: u32,
) -> Listed
    requires { RowsPlaced table.now rows.now count × (i < count) }
    ensures { Says (listing (Refused (number_asked spread question (read_of table.now).table (rows_of rows.now count) (row_passage rows.now i)) (num rows.now i 0)) (found_by spread question (read_of table.now).table horizon (rows_of rows.now count) (row_passage rows.now i)) list.old) result list.new }
{
    let size = count_met(table, rows, count, i, horizon, question, spread) + 1;
    let number = number_of(table, rows, count, i, question, spread);
    let refusal = checks::refused(rows, number, i);
    if list.len() < size * layout::PASSAGE_WIDTH {
        return Listed {
            table: refusal,
            verdict: Verdict::Refused(13, 255),
            size: 0,
        };
    }
    put_met(table, rows, count, i, horizon, question, list, spread);
    Listed {
        table: refusal,
        verdict: Verdict::Accepted,
        size,
    }
}

// Questions 10, 11, 12, each over the whole schedule before the next.
fn list_concerned(
    table: &[u8],
    rows: &[u32],
    count: usize,
    horizon: u32,
    list: &mut [u32],
    spread: u32,
) -> Listed
    requires { RowsPlaced table.now rows.now count }
    ensures { Says (listing (verdict_of (checked spread (read_of table.now).table horizon (rows_of rows.now count))) (concerned spread (read_of table.now).table horizon (rows_of rows.now count)) list.old) result list.new }
{
    if let Some(i) = checks::first_collision(table, rows, count, horizon, spread) {
        let question = Question::Collision;
        return list_fault(table, rows, count, i, horizon, question, list, spread);
    }
    if let Some(i) = checks::first_unheard(table, rows, count, horizon, spread) {
        let question = Question::Unheard;
        return list_fault(table, rows, count, i, horizon, question, list, spread);
    }
    if let Some(i) = checks::first_crowded(table, rows, count, horizon, spread) {
        let question = Question::Crowded;
        return list_fault(table, rows, count, i, horizon, question, list, spread);
    }
    nothing(Verdict::Accepted)
}

// The meetings of a table that was read.
fn list_meetings(table: &[u8], starts: [u16; 8], list: &mut [u32], spread: u32) -> Listed
    requires { Valid table.now × (starts ≡ starts_of table.now (byte table.now 3)) × (spread ≤ 1000) }
    ensures { Says (meetings_call_at spread table.now list.old) result list.new }
{
    let mut rows = [0u32; 9216];
    let scheduled = schedule::schedule_rows(table, starts, &mut rows);
    let verdict = scheduled.verdict;
    match verdict {
        Verdict::Refused(number, component) => nothing(Verdict::Refused(number, component)),
        Verdict::Accepted => {
            let horizon = horizon(table);
            list_concerned(table, &rows, scheduled.count, horizon, list, spread)
        }
    }
}

// The verdict of checks 1 to 12 and 19 on the table at a spread; after checks 10 to 12 the passage at fault and those that it meets, seven
// numbers a passage, laid over the front of the list. The call itself is accepted, or refused by 13 where the list is too short.
pub fn meetings_spread(table: &[u8], spread: u32, list: &mut [u32]) -> Listed
    ensures { (result.table ≡ (meetings_call_at spread table.now list.old).table) × (result.verdict ≡ (meetings_call_at spread table.now list.old).verdict) × (result.size ≡ (meetings_call_at spread table.now list.old).size) × (list.new ≡ (meetings_call_at spread table.now list.old).lent) }
{
    let read = table::read_at(table, spread);
    let verdict = read.verdict;
    match verdict {
        Verdict::Refused(number, component) => nothing(Verdict::Refused(number, component)),
        Verdict::Accepted => {
            let starts = read.starts;
            list_meetings(table, starts, list, spread)
        }
    }
}

// The same without a spread: the verdict is that of checks 1 to 12.
pub fn meetings(table: &[u8], list: &mut [u32]) -> Listed
    ensures { (result.table ≡ (meetings_call table.now list.old).table) × (result.verdict ≡ (meetings_call table.now list.old).verdict) × (result.size ≡ (meetings_call table.now list.old).size) × (list.new ≡ (meetings_call table.now list.old).lent) }
{
    meetings_spread(table, 0, list)
}
