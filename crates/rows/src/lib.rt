// The passages of a schedule as rows of numbers in a lent slice: writing one, and seeking messages.
#![tactic(auto)]

ghost use Rattle.std.specs.Prelude.{◌⊎◌, ◌≡◌, [], ◌∷◌, ℕ, ◌+◌, ◌*◌, ◌≤◌, ◌<◌, length, set, IfSome};
ghost use Rattle.std.proofs.Math.Option.{none};
ghost use Rattle.std.proofs.lemmas.List.Edits.{sets};
ghost use Rattle.model.specs.Window.{channel_of, listens};
ghost use Rattle.model.specs.Places.{arc_at, budgeted, read_of};
ghost use Rattle.model.specs.Schedule.{passage_arc, names, heard_by, ends_sooner, earliest, message_in};
ghost use Rattle.rows.specs.Rows.{num, message_of, row_passage, rows_of, RowsPlaced, Told, MessagesPut, EdgeStands, RowKnown, Linked, in_time, option_of, found_passage, sooner_of};

use model::Action;

// The numbers of a row: a passage's seven fields, the place of its edge in the table, and the row that a walk backward goes on with.
pub const COMPONENT: usize = 0;

pub const EDGE: usize = 1;

pub const LOCATION: usize = 2;

pub const ENTRY: usize = 3;

pub const READY: usize = 4;

pub const END: usize = 5;

pub const MESSAGE: usize = 6;

pub const PLACE: usize = 7;

pub const LINK: usize = 8;

// How many numbers a row has.
pub const WIDTH: usize = 9;

// Number k of row i.
pub fn number(rows: &[u32], i: usize, field: usize) -> u32
    requires { i * 9 + field < length rows.now }
    ensures { result ≡ num rows.now i field }
{
    rows[i * WIDTH + field]
}

// The same, where the number is a place or a row.
pub fn index(rows: &[u32], i: usize, field: usize) -> usize
    requires { i * 9 + field < length rows.now }
    ensures { result ≡ num rows.now i field }
{
    rows[i * WIDTH + field] as usize
}

// Writes row i; message none (255), as a row of numbers holds it.
pub fn put_row(
    rows: &mut [u32],
    i: usize,
    component: u8,
    edge: u8,
    location: u8,
    entry: u32,
    ready: u32,
    end: u32,
    place: usize,
    back: usize,
)
    requires { (i * 9 + 9 ≤ length rows.old) × (place < 65536) × (back < 65536) × (i ≤ 1024) }
    ensures { rows.new ≡ sets rows.old (i * 9) (component ∷ edge ∷ location ∷ entry ∷ ready ∷ end ∷ 255 ∷ place ∷ back ∷ []) }
{
    let at = i * WIDTH;
    rows[at] = component as u32;
    rows[at + EDGE] = edge as u32;
    rows[at + LOCATION] = location as u32;
    rows[at + ENTRY] = entry;
    rows[at + READY] = ready;
    rows[at + END] = end;
    rows[at + MESSAGE] = 255;
    rows[at + PLACE] = place as u32;
    rows[at + LINK] = back as u32;
}

// The rows before row j, walked backward: one past the last that ends at the tick or later (0 where there is none). A row that ended
// before the tick leads to its link: the rows between ended no later.
pub fn open_before(rows: &[u32], j: usize, tick: u32) -> usize
    requires { Linked rows.now j }
    ensures { (result ≤ j) × ((i : ℕ) → result ≤ i → i < j → num rows.now i 5 < tick) }
{
    let mut k = j;
    // A while: the next row is read from the link. What is returned is a link too: `schedule` writes it into a row.
    while 0 < k {
        if tick <= number(rows, k - 1, END) {
            return k;
        }
        k = index(rows, k - 1, LINK);
    }
    k
}

// The channel that the edge at the front sends on.
pub fn sent(edge: &[u8], budgets: bool) -> Option<u8>
    requires { EdgeStands budgets edge.now }
    ensures { option_of result ≡ channel_of (arc_at budgets edge.now) }
{
    match decoder::action_at(edge, budgets) {
        Action::Send(channel) => Some(channel),
        Action::Internal | Action::Receive => None,
    }
}

// Whether the edge at the front lists the channel; it lists no missing one.
pub fn lists(edge: &[u8], channel: Option<u8>, budgets: bool) -> bool
    requires { EdgeStands budgets edge.now }
    ensures { result ≡ names (arc_at budgets edge.now) (option_of channel) }
{
    let Some(channel) = channel else {
        return false;
    };
    let Action::Receive = decoder::action_at(edge, budgets) else {
        return false;
    };
    let items = decoder::items_place(edge, budgets);
    for k in 0..usize::from(edge[6]) {
        if edge[items + 2 * k] == channel {
            return true;
        }
    }
    false
}

// The bytes of the table from row i's edge on.
pub fn row_edge<'table>(table: &'table [u8], rows: &[u32], i: usize) -> &'table [u8]
    requires { RowKnown table.now rows.now i }
    ensures stands { EdgeStands (budgeted table.now) result.now }
    ensures arc { arc_at (budgeted table.now) result.now ≡ passage_arc (read_of table.now).table (row_passage rows.now i) }
{
    &table[index(rows, i, PLACE)..]
}

// Whether row i's edge receives.
pub fn row_receives(table: &[u8], rows: &[u32], i: usize) -> bool
    requires { RowKnown table.now rows.now i }
    ensures { result ≡ listens (passage_arc (read_of table.now).table (row_passage rows.now i)) }
{
    let edge = row_edge(table, rows, i);
    matches!(
        decoder::action_at(edge, decoder::budgeted(table)),
        Action::Receive
    )
}

// The channel that row i's edge sends on.
pub fn row_sent(table: &[u8], rows: &[u32], i: usize) -> Option<u8>
    requires { RowKnown table.now rows.now i }
    ensures { option_of result ≡ channel_of (passage_arc (read_of table.now).table (row_passage rows.now i)) }
{
    sent(row_edge(table, rows, i), decoder::budgeted(table))
}

// Whether row i's edge lists the channel.
pub fn row_lists(table: &[u8], rows: &[u32], i: usize, channel: Option<u8>) -> bool
    requires { RowKnown table.now rows.now i }
    ensures { result ≡ names (passage_arc (read_of table.now).table (row_passage rows.now i)) (option_of channel) }
{
    lists(row_edge(table, rows, i), channel, decoder::budgeted(table))
}

// Whether row j is of another component than row i, starts after its ready and before the tick h, and ends before its end.
fn in_time(rows: &[u32], i: usize, j: usize, horizon: u32) -> bool
    requires { (i * 9 + 9 ≤ length rows.now) × (j * 9 + 9 ≤ length rows.now) }
    ensures { result ≡ in_time horizon (row_passage rows.now i) (row_passage rows.now j) }
{
    if number(rows, i, END) <= number(rows, j, END) {
        return false;
    }
    let ready = number(rows, j, READY);
    let after = parts::both(number(rows, i, READY) < ready, ready < horizon);
    parts::both(
        number(rows, i, COMPONENT) != number(rows, j, COMPONENT),
        after,
    )
}

// Whether row i hears row j.
pub fn hears(table: &[u8], rows: &[u32], i: usize, j: usize, horizon: u32, budgets: bool) -> bool
    requires { RowKnown table.now rows.now i × RowKnown table.now rows.now j × (budgets ≡ budgeted table.now) }
    ensures { result ≡ heard_by (read_of table.now).table horizon (row_passage rows.now i) (row_passage rows.now j) }
{
    if !in_time(rows, i, j, horizon) {
        return false;
    }
    let channel = sent(row_edge(table, rows, j), budgets);
    lists(row_edge(table, rows, i), channel, budgets)
}

fn ends_sooner(rows: &[u32], j: usize, best: usize) -> bool
    requires { (j * 9 + 9 ≤ length rows.now) × (best * 9 + 9 ≤ length rows.now) }
    ensures { result ≡ ends_sooner (row_passage rows.now j) (row_passage rows.now best) }
{
    let end = number(rows, j, END);
    let other = number(rows, best, END);
    let lower = number(rows, j, COMPONENT) < number(rows, best, COMPONENT);
    parts::either(end < other, parts::both(end == other, lower))
}

// Of two rows the one that ends sooner, on a tie the earlier; where one is missing, the other.
fn sooner(rows: &[u32], earlier: Option<usize>, later: Option<usize>) -> Option<usize>
    requires { IfSome earlier (λ i. i * 9 + 9 ≤ length rows.now) × IfSome later (λ i. i * 9 + 9 ≤ length rows.now) }
    ensures found { found_passage rows.now result ≡ sooner_of (found_passage rows.now earlier) (found_passage rows.now later) }
    ensures one { (result ≡ earlier) ⊎ (result ≡ later) }
{
    match (earlier, later) {
        (Some(first), Some(second)) if ends_sooner(rows, second, first) => later,
        (Some(_), _) => earlier,
        (None, _) => later,
    }
}

// The row before row i whose message it hears. Rows that ended before its ready are passed over by their links.
fn seek_before(
    table: &[u8],
    rows: &[u32],
    count: usize,
    i: usize,
    horizon: u32,
    budgets: bool,
) -> Option<usize>
    requires { RowsPlaced table.now rows.now count × (i < count) × (budgets ≡ budgeted table.now) }
    ensures found { found_passage rows.now result ≡ earliest (heard_by (read_of table.now).table horizon (row_passage rows.now i)) (rows_of rows.now i) none }
    ensures there { IfSome result (λ row. row < count) }
{
    let ready = number(rows, i, READY);
    let mut best = None;
    // A while of its own: the next row is read from the links, where from row i on rows are counted, and another tick ends the walk.
    let mut j = open_before(rows, i, ready);
    while 0 < j {
        let k = j - 1;
        if hears(table, rows, i, k, horizon, budgets) {
            best = sooner(rows, Some(k), best);
        }
        j = open_before(rows, k, ready);
    }
    best
}

// The row whose message row i hears. Rows that open at its end or later end too late.
fn seek(
    table: &[u8],
    rows: &[u32],
    count: usize,
    i: usize,
    horizon: u32,
    budgets: bool,
) -> Option<usize>
    requires { RowsPlaced table.now rows.now count × (i < count) × (budgets ≡ budgeted table.now) }
    ensures found { found_passage rows.now result ≡ earliest (heard_by (read_of table.now).table horizon (row_passage rows.now i)) (rows_of rows.now count) none }
    ensures there { IfSome result (λ row. row < count) }
{
    let until = number(rows, i, END);
    let mut best = seek_before(table, rows, count, i, horizon, budgets);
    for j in i..count {
        if until <= number(rows, j, ENTRY) {
            return best;
        }
        if hears(table, rows, i, j, horizon, budgets) {
            best = sooner(rows, best, Some(j));
        }
    }
    best
}

// The channel of the message of the passage of row i among n rows.
fn message_channel(table: &[u8], rows: &[u32], count: usize, i: usize, horizon: u32) -> Option<u8>
    requires { RowsPlaced table.now rows.now count × (i < count) }
    ensures found { option_of result ≡ message_in (read_of table.now).table horizon (rows_of rows.now count) (row_passage rows.now i) }
    ensures small { IfSome result (λ channel. channel < 255) }
{
    if !row_receives(table, rows, i) {
        return row_sent(table, rows, i);
    }
    let budgets = decoder::budgeted(table);
    let sender = seek(table, rows, count, i, horizon, budgets)?;
    row_sent(table, rows, sender)
}

// The same as a row holds it (255: none).
pub fn message(table: &[u8], rows: &[u32], count: usize, i: usize, horizon: u32) -> u8
    requires { RowsPlaced table.now rows.now count × (i < count) }
    ensures { message_of result ≡ message_in (read_of table.now).table horizon (rows_of rows.now count) (row_passage rows.now i) }
{
    message_channel(table, rows, count, i, horizon).unwrap_or(255)
}

// Gives row i that message (255: none, as a row of numbers holds it).
pub fn put_message(rows: &mut [u32], i: usize, message: u8)
    requires { (i * 9 + 9 ≤ length rows.old) × (i ≤ 1024) }
    ensures { rows.new ≡ set rows.old (i * 9 + 6) message }
{
    rows[i * WIDTH + MESSAGE] = parts::wide32(message);
}

// The message of the passage of row i among n rows (255: none, as the row holds it), which the row has if it ends before the tick h.
fn message_then(table: &[u8], rows: &[u32], count: usize, i: usize, horizon: u32) -> u32
    requires { RowsPlaced table.now rows.now count × (i < count) × (num rows.now i 5 < horizon → Told table.now horizon rows.now count i) }
    ensures { message_of result ≡ message_in (read_of table.now).table horizon (rows_of rows.now count) (row_passage rows.now i) }
{
    if number(rows, i, END) < horizon {
        return number(rows, i, MESSAGE);
    }
    parts::wide32(message(table, rows, count, i, horizon))
}

// Gives each of n rows its message; those that end before the tick h have theirs. (The other numbers stay.)
pub fn put_messages(table: &[u8], rows: &mut [u32], count: usize, horizon: u32)
    requires { RowsPlaced table.now rows.old count × ((i : ℕ) → i < count → num rows.old i 5 < horizon → Told table.now horizon rows.old count i) }
    ensures { MessagesPut table.now horizon count rows.old rows.new }
{
    for i in 0..count {
        rows[i * WIDTH + MESSAGE] = message_then(table, rows, count, i, horizon);
    }
}
