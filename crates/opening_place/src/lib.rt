// Where the schedule stops (document 01, 'Checks, in this order', 7 to 9): the opening that is refused, and why. The definitions are
// specs/Opening.antt.
#![tactic(auto)]

// An opening that is refused: the number of the refusal (0: none is refused) and the component, how many passages were opened before it, and how the
// component enters its location, with 0 for the clocks and variables that it lacks. For 8 how many edges leave the location, of how many of them a
// data bound fails, and how many of the others have no window; 0 else. For 9 the edge taken and its first update that leaves the range; 255 else.
#[derive(Clone, Copy)]
pub struct RefusedOpening {
    pub number: u8,
    pub component: u8,
    pub passage: u32,
    pub location: u8,
    pub tick: u32,
    pub clocks: [u32; 4],
    pub values: [i16; 4],
    pub leaving: u8,
    pub blocked: u8,
    pub windowless: u8,
    pub edge: u8,
    pub update: u8,
}
