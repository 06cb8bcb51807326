// Names, channels and waiting locations for UPPAAL.
ghost use Rattle.std.specs.Prelude.{◌≡◌, ◌++◌, ℕ, ◌+◌, ◌*◌, ◌≤◌};
ghost use Rattle.model.specs.Places.{arc_at};
ghost use Rattle.blocks.specs.Put.{Put};
ghost use Rattle.words.specs.Words.{ascii};
ghost use Rattle.uppaal.specs.Xta.{waiting};
ghost use Rattle.uppaal.specs.XtaText.{name_text, sync_text, location_text};
ghost use Rattle.uppaal.specs.Export.{uppers_from};
ghost use Rattle.window.specs.Views.{message_of};
ghost use Rattle.uppaal_steps.specs.Steps.{Writable, uppers_text, arrow_in, arrow_out, sync_made};

use crate::conditions::put_uppers;
use model::Location;

// The name of a waiting location.
fn put_waiting_name(out: &mut [u8], at: usize, edge: u8, message: u8) -> usize
    requires { at + 25 ≤ 2305843009213693952 }
    ensures { Put out.old at (name_text (waiting edge (message_of message))) result out.new × (result ≤ at + 25) }
{
    let next = words::put_field(out, at, b"W", edge as u32);
    if message == 255 {
        return next;
    }
    words::put_field(out, next, b"_c", message as u32)
}

// From a location to a waiting location.
pub fn put_arrow_in(out: &mut [u8], at: usize, location: u8, edge: u8, message: u8) -> usize
    requires { at + 50 ≤ 2305843009213693952 }
    ensures { Put out.old at (arrow_in location edge (message_of message)) result out.new × (result ≤ at + 50) }
{
    let first = words::put_field(out, at, b"L", location as u32);
    let second = words::put_words(out, first, b" -> ");
    let third = put_waiting_name(out, second, edge, message);
    words::put_words(out, third, b" {")
}

// And back.
pub fn put_arrow_out(out: &mut [u8], at: usize, edge: u8, message: u8, location: u8) -> usize
    requires { at + 50 ≤ 2305843009213693952 }
    ensures { Put out.old at (arrow_out edge (message_of message) location) result out.new × (result ≤ at + 50) }
{
    let first = put_waiting_name(out, at, edge, message);
    let second = words::put_field(out, first, b" -> L", location as u32);
    words::put_words(out, second, b" {")
}

// The synchronisation of a step in, of an edge of this kind. The kind is the byte of the table: no step in needs the edge's items.
pub fn put_sync(out: &mut [u8], at: usize, kind: u8, message: u8) -> usize
    requires { at + 25 ≤ 2305843009213693952 }
    ensures { Put out.old at (sync_text (sync_made kind message)) result out.new × (result ≤ at + 25) }
{
    if kind == 0 {
        return at;
    }
    if message == 255 {
        return at;
    }
    let next = words::put_field(out, at, b" sync c", message as u32);
    if kind == 1 {
        return words::put_words(out, next, b"!;");
    }
    words::put_words(out, next, b"?;")
}

// The invariant of a waiting location of the edge at the front.
fn put_waiting_invariant(
    edge: &[u8],
    budgets: bool,
    location: Location,
    out: &mut [u8],
    at: usize,
) -> usize
    requires { Writable budgets edge.now × (at + 210 ≤ 2305843009213693952) }
    ensures { Put out.old at (ascii " { " ++ (uppers_text 0 location (arc_at budgets edge.now) ++ ascii " }")) result out.new × (result ≤ at + 210) }
{
    let first = words::put_words(out, at, b" { ");
    let second = put_uppers(edge, budgets, location, 0, out, first);
    words::put_words(out, second, b" }")
}

// A waiting location of the edge at the front, with this number.
pub fn put_waiting(
    edge: &[u8],
    budgets: bool,
    number: u8,
    location: Location,
    message: u8,
    out: &mut [u8],
    at: usize,
) -> usize
    requires { Writable budgets edge.now × (at + 240 ≤ 2305843009213693952) }
    ensures { Put out.old at (location_text (record { name = waiting number (message_of message); invariant = uppers_from location (arc_at budgets edge.now) })) result out.new × (result ≤ at + 240) }
{
    let first = put_waiting_name(out, at, number, message);
    put_waiting_invariant(edge, budgets, location, out, first)
}
