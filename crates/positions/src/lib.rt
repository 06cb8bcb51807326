// A batch of where-was-it (document 02, wish 11): the passage of each component at each tick asked, in one walk through the schedule. The definitions
// are specs/Positions.antt of `model`.
#![tactic(auto)]

ghost use Rattle.std.specs.Prelude.{◌≡◌, [], ◌∷◌, ◌++◌, ◌+◌, ◌*◌, ◌≤◌, ◌<◌, length, drop};
ghost use Rattle.std.proofs.lemmas.List.Edits.{sets};
ghost use Rattle.model.specs.declared.Verdict.TheVariants.{Refused};
ghost use Rattle.model.specs.Lists.{be16, each};
ghost use Rattle.model.specs.Reader.{byte};
ghost use Rattle.model.specs.Places.{Valid, read_of};
ghost use Rattle.model.specs.Positions.{asked, bad_pair, window_byte, position_bytes, passages_read, positions_call, PositionsTrue};
ghost use Rattle.table.specs.Directory.{starts_of};
ghost use Rattle.rows.specs.Rows.{num, rows_of};
ghost use Rattle.schedule.specs.Filled.{AcceptedRows};
ghost use Rattle.positions.specs.Pairs.{number_of, number_tried};
ghost use Rattle.positions.specs.Walks.{ReadUpTo, Walkable, Gives};

use model::{Verdict, layout};

// The verdict, and how many passages were read; 0 after a refusal.
#[derive(Clone, Copy)]
pub struct Positioned {
    pub verdict: Verdict,
    pub read: usize,
}

// Why a pair is bad: its component is not there or its tick not below the horizon, or its tick is below that of the pair before it.
#[derive(Clone, Copy, PartialEq, Eq)]
enum BadPair {
    NotThere,
    Earlier,
}

impl BadPair {
    // The number of the refusal (docs/REFUSALS.md).
    fn number(self) -> u8
        ensures { result ≡ number_of self }
    {
        match self {
            BadPair::NotThere => 21,
            BadPair::Earlier => 24,
        }
    }
}

// Reads on, past so many rows read, to the last row entered by the tick, and keeps of each component the last row; then how many rows were read.
fn read_on(rows: &[u32], count: usize, latest: &mut [u16], read: usize, tick: u32) -> usize
    requires { ReadUpTo rows.now count latest.old read tick × (length latest.old ≡ 8) }
    ensures whole { ReadUpTo rows.now count latest.new result tick }
    ensures all { result < count → tick < num rows.now result 3 }
{
    // A while: where it stops is what is answered, and the next pair goes on from there. By a `for` a pair takes three instructions of 32 more.
    let mut i = read;
    while i < count {
        if tick < rows::number(rows, i, rows::ENTRY) {
            return i;
        }
        latest[rows::index(rows, i, rows::COMPONENT)] = i as u16;
        i += 1;
    }
    i
}

// Says of the first bad pair why it is bad, if one is.
fn try_pairs(table: &[u8], pairs: &[u32]) -> Result<(), BadPair>
    requires { Valid table.now }
    ensures { number_tried result ≡ bad_pair (read_of table.now) 0 (asked pairs.now) }
{
    let components = parts::wide32(table[layout::TABLE_COMPONENTS]);
    let horizon = parts::word32(parts::word_at(table, layout::TABLE_HORIZON));
    let mut last: u32 = 0;
    for pair in 0..pairs.len() / 2 {
        let component = pairs[pair * 2];
        let tick = pairs[pair * 2 + 1];
        if components <= component {
            return Err(BadPair::NotThere);
        }
        if horizon <= tick {
            return Err(BadPair::NotThere);
        }
        if tick < last {
            return Err(BadPair::Earlier);
        }
        last = tick;
    }
    Ok(())
}

// Whether a tick before the end lies in the window, as a byte.
fn window_byte(tick: u32, ready: u32) -> u8
    ensures { result ≡ window_byte tick ready }
{
    if tick < ready { 0 } else { 1 }
}

// Writes the answer to pair k: the number of the row, highest byte first, and the window's byte.
fn put_answer(answers: &mut [u8], k: usize, row: u16, window: u8)
    requires { k * 3 + 3 ≤ length answers.old }
    ensures { answers.new ≡ sets answers.old (k * 3) (be16 row ++ (window ∷ [])) }
{
    let at = k * 3;
    answers[at] = (row / 256) as u8;
    answers[at + 1] = (row % 256) as u8;
    answers[at + 2] = window;
}

// Answers all pairs in one walk through the rows; then how many rows were read.
fn put_answers(
    rows: &[u32],
    count: usize,
    pairs: &[u32],
    latest: &mut [u16],
    answers: &mut [u8],
) -> usize
    requires { Walkable rows.now count (asked pairs.now) × (length latest.old ≡ 8) × (length (asked pairs.now) * 3 ≤ length answers.old) }
    ensures reads { result ≡ passages_read (rows_of rows.now count) (asked pairs.now) }
    ensures puts { answers.new ≡ each (position_bytes (rows_of rows.now count)) (asked pairs.now) ++ drop (length (asked pairs.now) * 3) answers.old }
{
    let mut read: usize = 0;
    for k in 0..pairs.len() / 2 {
        let c = pairs[k * 2] as usize;
        let tick = pairs[k * 2 + 1];
        read = read_on(rows, count, latest, read, tick);
        let row = latest[c];
        let ready = rows::number(rows, parts::word_place(row), rows::READY);
        put_answer(answers, k, row, window_byte(tick, ready));
    }
    read
}

fn refused(number: u8, component: u8) -> Positioned
    ensures { (result.verdict ≡ Refused number component) × (result.read ≡ 0) }
{
    Positioned {
        verdict: Verdict::Refused(number, component),
        read: 0,
    }
}

// The pairs asked of a table that is accepted, whose passages are the rows. Nothing is written before the last pair was tried.
fn answer(table: &[u8], rows: &[u32], count: usize, pairs: &[u32], answers: &mut [u8]) -> Positioned
    requires { AcceptedRows table.now rows.now count }
    ensures { Gives (positions_call table.now pairs.now answers.old) result answers.new × (result.read ≤ 1024) }
{
    if let Err(bad) = try_pairs(table, pairs) {
        return refused(bad.number(), 255);
    }
    if answers.len() / 3 < pairs.len() / 2 {
        return refused(13, 255);
    }
    let mut latest = [0u16; 8];
    let read = put_answers(rows, count, pairs, &mut latest, answers);
    Positioned {
        verdict: Verdict::Accepted,
        read,
    }
}

// The pairs asked of a table that was read.
fn positions_read(table: &[u8], starts: [u16; 8], pairs: &[u32], answers: &mut [u8]) -> Positioned
    requires { Valid table.now × (starts ≡ starts_of table.now (byte table.now 3)) }
    ensures { Gives (positions_call table.now pairs.now answers.old) result answers.new × (result.read ≤ 1024) }
{
    let mut rows = [0u32; 9216];
    let planned = schedule::plan_rows(table, starts, &mut rows, 0);
    let verdict = planned.verdict;
    match verdict {
        Verdict::Refused(number, concerned) => refused(number, concerned),
        Verdict::Accepted => answer(table, &rows, planned.count, pairs, answers),
    }
}

// Where components were at ticks: pairs of numbers, component before tick, by rising ticks. Three bytes a pair are laid over the front of those lent.
pub fn positions(table: &[u8], pairs: &[u32], answers: &mut [u8]) -> Positioned
    ensures gives { Gives (positions_call table.now pairs.now answers.old) result answers.new }
    ensures positions_true { PositionsTrue table.now pairs.now answers.old × (result.read ≤ 1024) }
{
    let r = table::read(table);
    let v = r.verdict;
    match v {
        Verdict::Refused(number, concerned) => refused(number, concerned),
        Verdict::Accepted => {
            let starts = r.starts;
            positions_read(table, starts, pairs, answers)
        }
    }
}
