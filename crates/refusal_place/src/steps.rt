// One test of the walk: a number of the table against its range (specs/Walk.antt, 'Stops' and 'Parts').
ghost use Rattle.std.specs.Prelude.{◌≡◌, ◌≤◌};
ghost use Rattle.model.specs.Reader.{byte};
ghost use Rattle.refusal_place.specs.Ranges.{bytes_field, allowed, number_at};
ghost use Rattle.parts.specs.Place.{fault_number};
ghost use Rattle.refusal_place.specs.Walk.{going, place_at, stops_if, judged, fits, ends, ranged, passed};

use crate::{Field, Place, Subject, Walk};
use parts::PartFault;

// ## Numbers and ranges

// The byte at a place, 0 behind the last.
pub fn byte_at(table: &[u8], at: usize) -> u8
    ensures { result ≡ byte table.now at }
{
    if at < table.len() { table[at] } else { 0 }
}

// The number of one or two bytes at a place.
pub fn number_at(table: &[u8], at: usize, width: usize) -> usize
    requires { at ≤ 16384 }
    ensures { result ≡ number_at table.now at width }
{
    if width == 2 {
        usize::from(byte_at(table, at)) * 256 + usize::from(byte_at(table, at + 1))
    } else {
        usize::from(byte_at(table, at))
    }
}

pub fn bytes_field(least: usize, limit: usize) -> Field
    ensures { result ≡ bytes_field least limit }
{
    Field {
        offset: 0,
        width: 0,
        least,
        limit,
        unbounded: false,
    }
}

pub fn allowed(field: Field, value: usize) -> bool
    ensures { result ≡ allowed field value }
{
    parts::either(
        parts::both(field.unbounded, value == 65535),
        parts::both(field.least <= value, value < field.limit),
    )
}

// ## Steps

pub fn place_at(
    question: PartFault,
    who: Subject,
    start: usize,
    field: Field,
    value: usize,
) -> Place
    ensures { result ≡ place_at (fault_number question) who start field value }
{
    Place {
        number: u8::from(question),
        component: who.component,
        part: u8::from(who.part),
        edge: who.edge,
        index: who.index,
        start,
        offset: field.offset,
        width: field.width,
        value,
        least: field.least,
        limit: field.limit,
        unbounded: field.unbounded,
    }
}

// Whether the walk has not stopped.
pub fn going(w: Walk) -> bool
    ensures { result ≡ going w }
{
    w.place.number == 0
}

// The walk stops where a test finds a fault, unless it has stopped before.
pub fn stops_if(
    fault: bool,
    question: PartFault,
    who: Subject,
    field: Field,
    value: usize,
    w: Walk,
) -> Walk
    ensures { (result ≡ stops_if fault (fault_number question) who field value w) × (result.at ≡ w.at) }
{
    if parts::both(going(w), fault) {
        let place = place_at(question, who, w.at, field, value);
        return Walk { place, ..w };
    }
    w
}

pub fn judged(question: PartFault, who: Subject, field: Field, value: usize, w: Walk) -> Walk
    ensures { (result ≡ judged (fault_number question) who field value w) × (result.at ≡ w.at) }
{
    stops_if(!allowed(field, value), question, who, field, value, w)
}

// A part of so many bytes must fit.
pub fn fits(end: usize, who: Subject, width: usize, w: Walk) -> Walk
    requires { w.at ≤ end }
    ensures { (result ≡ fits end who width w) × (result.at ≡ w.at) }
{
    judged(
        PartFault::NoFit,
        who,
        bytes_field(width, 8193),
        end - w.at,
        w,
    )
}

// No byte may be left.
pub fn ends(end: usize, who: Subject, w: Walk) -> Walk
    requires { w.at ≤ end }
    ensures { (result ≡ ends end who w) × (result.at ≡ w.at) }
{
    judged(PartFault::NoFit, who, bytes_field(0, 1), end - w.at, w)
}

// A number of the part must be in its range.
pub fn ranged(table: &[u8], who: Subject, field: Field, w: Walk) -> Walk
    requires { (w.at ≤ 8192) × (field.offset ≤ 8) }
    ensures { (result ≡ ranged table.now who field w) × (result.at ≡ w.at) }
{
    let value = number_at(table, w.at + field.offset, field.width);
    judged(PartFault::OutOfRange, who, field, value, w)
}

// The next part.
pub fn passed(width: usize, w: Walk) -> Walk
    requires { (w.at ≤ 8192) × (width ≤ 8) }
    ensures { result ≡ passed width w }
{
    if going(w) {
        return Walk {
            at: w.at + width,
            ..w
        };
    }
    w
}
