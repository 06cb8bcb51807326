// The ticks of rows, and whether two windows lie no more than the spread apart (document 02, wish 6).
ghost use Rattle.std.specs.Prelude.{◌≡◌, ◌&&◌, ℕ, ◌+◌, ◌-◌, ◌*◌, ◌≤◌, ◌<◌, length};
ghost use Rattle.model.specs.Schedule.{others};
ghost use Rattle.model.specs.Checks.{near};
ghost use Rattle.rows.specs.Rows.{num, row_passage};

// A tick of a row, in a number wide enough for the sum of two.
pub fn tick(rows: &[u32], i: usize, field: usize) -> u64
    requires { i * 9 + field < length rows.now }
    ensures { result ≡ num rows.now i field }
{
    u64::from(rows::number(rows, i, field))
}

// The same and so many ticks more.
pub fn put_off(rows: &[u32], i: usize, field: usize, ticks: u32) -> u64
    requires { i * 9 + field < length rows.now }
    ensures { result ≡ num rows.now i field + ticks }
{
    u64::from(rows::number(rows, i, field)) + u64::from(ticks)
}

// A tick less so many, cut off at 0.
pub fn cut_off(tick: u32, ticks: u32) -> u32
    ensures { result ≡ tick - ticks }
{
    tick.saturating_sub(ticks)
}

// Whether rows i and j are of different components and lie no more than the spread apart.
pub fn overlap(rows: &[u32], i: usize, j: usize, spread: u32) -> bool
    requires { (i * 9 + 9 ≤ length rows.now) × (j * 9 + 9 ≤ length rows.now) }
    ensures { result ≡ others (row_passage rows.now i) (row_passage rows.now j) && near spread (row_passage rows.now i) (row_passage rows.now j) }
{
    if put_off(rows, j, rows::END, spread) < tick(rows, i, rows::READY) {
        return false;
    }
    parts::both(
        rows::number(rows, i, rows::COMPONENT) != rows::number(rows, j, rows::COMPONENT),
        tick(rows, j, rows::READY) <= put_off(rows, i, rows::END, spread),
    )
}
