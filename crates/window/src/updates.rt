// The updates of an edge, in order (document 01, 'Passage and schedule').
ghost use Rattle.std.specs.Prelude.{◌≡◌, cond, ◌*◌, ◌≤◌, ◌<◌, ◌+ℤ◌, length};
ghost use Rattle.model.specs.Lists.{All};
ghost use Rattle.model.specs.Reader.{update_at};
ghost use Rattle.model.specs.Places.{list_at, arc_at};
ghost use Rattle.model.specs.Window.{updated};
ghost use Rattle.window.specs.Views.{option_of, ArcReady, new_of};

use model::{Action, Update, layout};

// A sum, tested in 32 bits.
fn add(value: i16, number: i16) -> Option<i16>
    ensures { result ≡ new_of (value +ℤ number) }
{
    let sum = (value as i32) + (number as i32);
    if parts::both(-32768 <= sum, sum <= 32767) {
        Some(sum as i16)
    } else {
        None
    }
}

// What an update makes of a value.
fn new_value(update: Update, value: i16) -> Option<i16>
    ensures { result ≡ new_of (cond update.adds (value +ℤ update.number) update.number) }
{
    if update.adds {
        add(value, update.number)
    } else {
        Some(update.number)
    }
}

// `count` updates in order, sums tested in 32 bits before they are stored; `updates` begins at the first update.
pub fn update(updates: &[u8], count: u8, values: [i16; 4]) -> Option<[i16; 4]>
    requires { (count * 4 ≤ length updates.now) × All (λ u. u.variable < 4) (list_at update_at 4 count updates.now) }
    ensures { option_of result ≡ updated (list_at update_at 4 count updates.now) values }
{
    let mut changed = values;
    let mut at: usize = 0;
    for _ in 0..count {
        let update = decoder::update_at(&updates[at..]);
        let i = usize::from(update.variable);
        changed[i] = new_value(update, changed[i])?;
        at += layout::UPDATE_WIDTH;
    }
    Some(changed)
}

// The updates of the edge at the front of the bytes (only an internal edge has some).
pub fn edge_update(bytes: &[u8], values: [i16; 4], budgets: bool) -> Option<[i16; 4]>
    requires { ArcReady budgets bytes.now }
    ensures { option_of result ≡ updated (arc_at budgets bytes.now).updates values }
{
    let action = decoder::action_at(bytes, budgets);
    match action {
        Action::Internal => {
            let items = decoder::items_place(bytes, budgets);
            update(&bytes[items..], bytes[layout::EDGE_ITEMS], values)
        }
        Action::Send(_) => Some(values),
        Action::Receive => Some(values),
    }
}
