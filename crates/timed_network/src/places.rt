// Where a refused table is at fault, as numbers: the place of a refusal with 4 to 6, and the opening that is refused with 7 to 9.
ghost use Rattle.refusal_place.specs.Walk.{place_of};
ghost use Rattle.refusal_place.specs.Told.{Told, Bounded};
ghost use Rattle.opening_place.specs.Opening.{no_opening, opening_of};
ghost use Rattle.refused_opening.specs.Promised.{OpeningTold};
ghost use Rattle.timed_network.specs.Numbers.{PlaceNumbersOf, OpeningNumbersOf};

use crate::EntryNumbers;

// The place of a refusal as numbers, each as in `refusal_place::Place`; the number 0 where none of 4 to 6 refuses the table. C has it as it stands.
#[repr(C)]
#[derive(Clone, Copy)]
pub struct PlaceNumbers {
    pub number: u8,
    pub component: u8,
    pub part: u8,
    pub edge: u8,
    pub index: u8,
    pub unbounded: bool,
    pub start: u32,
    pub offset: u32,
    pub width: u32,
    pub value: u32,
    pub least: u32,
    pub limit: u32,
}

// Where checks 4 to 6 stop: the part of the table, the number at fault with its value, and what is allowed there. The place is told exactly if the
// verdict on the table is a refusal with 4 to 6, and is of its component.
#[unsafe(no_mangle)]
pub extern "C" fn timed_network_refusal_place(table: &[u8]) -> PlaceNumbers
    ensures { PlaceNumbersOf (place_of table.now) result × Told table.now × Bounded (place_of table.now) }
{
    let place = refusal_place::locate(table);
    PlaceNumbers {
        number: place.number,
        component: place.component,
        part: place.part,
        edge: place.edge,
        index: place.index,
        unbounded: place.unbounded,
        start: place.start as u32,
        offset: place.offset as u32,
        width: place.width as u32,
        value: place.value as u32,
        least: place.least as u32,
        limit: place.limit as u32,
    }
}

// The opening that is refused as numbers, each as in `opening_place::RefusedOpening`, with the entry in the form that the edge choice takes; the number 0
// where none of 7 to 9 refuses the table. C has it as it stands.
#[repr(C)]
#[derive(Clone, Copy)]
pub struct OpeningNumbers {
    pub number: u8,
    pub component: u8,
    pub leaving: u8,
    pub blocked: u8,
    pub windowless: u8,
    pub edge: u8,
    pub update: u8,
    pub passage: u32,
    pub tick: u32,
    pub entry: EntryNumbers,
}

// No opening is refused.
fn no_opening() -> OpeningNumbers
    ensures { OpeningNumbersOf no_opening result }
{
    let clocks = [0u32; 4];
    let values = [0i16; 4];
    let entry = EntryNumbers {
        component: 255,
        location: 0,
        clocks,
        values,
    };
    OpeningNumbers {
        number: 0,
        component: 255,
        leaving: 0,
        blocked: 0,
        windowless: 0,
        edge: 255,
        update: 255,
        passage: 0,
        tick: 0,
        entry,
    }
}

// Where the schedule stops: the opening that is refused with 7 to 9, and why. It is told exactly if the verdict on the table is a refusal with 7 to 9, and
// is of its component.
#[unsafe(no_mangle)]
pub extern "C" fn timed_network_refused_opening(table: &[u8]) -> OpeningNumbers
    ensures { OpeningNumbersOf (opening_of table.now) result × OpeningTold table.now }
{
    if table::header(table).is_err() {
        return no_opening();
    }
    let opening = refused_opening::locate(&table[0..]);
    let clocks = opening.clocks;
    let values = opening.values;
    let entry = EntryNumbers {
        component: opening.component,
        location: opening.location,
        clocks,
        values,
    };
    OpeningNumbers {
        number: opening.number,
        component: opening.component,
        leaving: opening.leaving,
        blocked: opening.blocked,
        windowless: opening.windowless,
        edge: opening.edge,
        update: opening.update,
        passage: opening.passage,
        tick: opening.tick,
        entry,
    }
}
