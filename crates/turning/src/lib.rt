// Between two parts of a run to a horizon beyond the table's own: the rows are a period later, and the nodes stand a period's sleeps back.
#![tactic(auto)]

ghost use Rattle.std.specs.Prelude.{◌≡◌, List, map, ℕ, ◌+◌, ◌-◌, ◌*◌, ◌≤◌, ◌<◌, ℤ, length, get_or, set};
ghost use Rattle.recurrence.proofs.Turned.{capped};
ghost use Rattle.later_runs.proofs.Front.{delayed};
ghost use Rattle.rows.specs.Rows.{rows_of};
ghost use Rattle.registers.specs.Words.{word_in};
ghost use Rattle.machine.specs.Running.{RowsStand};
ghost use Rattle.turning.specs.Turned.{is_of, between, MayTurn, Turned};

// The last tick that a row holds.
const LAST_TICK: u32 = 4294967295;

// A ready so much later, as far as a row holds it.
fn later(ready: u32, period: u32) -> u32
    ensures { result ≡ capped (ready + period) }
{
    if LAST_TICK - period < ready {
        LAST_TICK
    } else {
        ready + period
    }
}

// The readies of so many rows, each so much later.
fn move_rows(rows: &mut [u32], passages: usize, period: u32)
    requires { RowsStand rows.old passages }
    ensures { (rows_of rows.new passages ≡ map (delayed period) (rows_of rows.old passages)) × (length rows.new ≡ length rows.old) }
{
    for i in 0..passages {
        let ready = rows::number(rows, i, rows::READY);
        rows[i * rows::WIDTH + rows::READY] = later(ready, period);
    }
}

// One more where row i is of component c.
fn counted(rows: &[u32], i: usize, c: usize, number: u64) -> u64
    requires { (i * 9 + 9 ≤ length rows.now) × (i ≤ 1024) × (number ≤ i) }
    ensures { result ≡ number + is_of rows.now i c }
{
    if rows::index(rows, i, rows::COMPONENT) == c {
        return number + 1;
    }
    number
}

// How many of the rows from the first up to the second are of component c.
fn rows_between(rows: &[u32], first: usize, second: usize, c: usize) -> u64
    requires { (second * 9 ≤ length rows.now) × (second ≤ 1024) × (first ≤ second) }
    ensures { (n : ℕ) → second ≤ n → result ≡ between (rows_of rows.now n) first second c }
{
    let mut number: u64 = 0;
    for i in first..second {
        number = counted(rows, i, c, number);
    }
    number
}

// How many of the rows from the first up to the second are of each component.
pub fn rows_of_each(rows: &[u32], count: usize, first: usize, second: usize) -> [u64; 8]
    requires { (second * 9 ≤ length rows.now) × (second ≤ 1024) × (first ≤ second) × (count ≤ 8) }
    ensures { (n c : ℕ) → second ≤ n → c < count → get_or result c 0 ≡ between (rows_of rows.now n) first second c }
{
    let mut numbers: [u64; 8] = [0; 8];
    for c in 0..count {
        numbers[c] = rows_between(rows, first, second, c);
    }
    numbers
}

// Node c stands at that row, with so many sleeps fewer.
fn turn_node(words: &mut [u64], c: usize, row: usize, fewer: u64)
    requires { (256 ≤ length words.old) × (c < 8) × (fewer ≤ word_in words.old c 20) }
    ensures { words.new ≡ set (set words.old (c * 32 + 25) row) (c * 32 + 20) (word_in words.old c 20 - fewer) }
{
    let sleeps = registers::word(words, c, registers::SLEEPS);
    registers::put_word(words, c, registers::ROW, row as u64);
    registers::put_word(words, c, registers::SLEEPS, sleeps - fewer);
}

// The rows a period later, and each node back to its first row of the period, its sleeps fewer by those of the period. When it is due and when it is late
// stays noted: the row that it leaves was ready when the other is now.
pub fn turn(
    rows: &mut [u32],
    passages: usize,
    count: usize,
    first: usize,
    period: u32,
    fewer: [u64; 8],
    words: &mut [u64],
)
    requires { RowsStand rows.old passages × (256 ≤ length words.old) × (count ≤ 8) × (first ≤ passages) × ((c : ℕ) → c < count → get_or fewer c 0 ≤ word_in words.old c 20) }
    ensures { (program : List ℕ) (values : List ℤ) (second : ℕ) → MayTurn program rows.old passages words.old values count first second period fewer → Turned program rows.old passages words.old values count first second period rows.new words.new values }
{
    move_rows(rows, passages, period);
    for c in 0..count {
        turn_node(words, c, first + c, fewer[c]);
    }
}
