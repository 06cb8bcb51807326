// Where the numbers of a table and of a program stand, and how wide their parts are (document 01, 'The table' and 'The program'). Places are counted
// from the start of the part that the name begins with; two bytes where the comment says so.

// "Header, 7 bytes: version 1; total length (2 bytes); components (nodes) 1 to 8; channels 0 to 16; horizon H (2 bytes)."
pub const TABLE_VERSION: usize = 0;

pub const TABLE_LENGTH: usize = 1;

pub const TABLE_COMPONENTS: usize = 3;

pub const TABLE_CHANNELS: usize = 4;

pub const TABLE_HORIZON: usize = 5;

pub const TABLE_HEADER: usize = 7;

// "Then each component: its length (2 bytes); locations 1 to 16; initial location; clocks 1 to 4; variables 0 to 4; edges 1 to 32; then locations,
// then edges."
pub const COMPONENT_LENGTH: usize = 0;

pub const COMPONENT_LOCATIONS: usize = 2;

pub const COMPONENT_INITIAL: usize = 3;

pub const COMPONENT_CLOCKS: usize = 4;

pub const COMPONENT_VARIABLES: usize = 5;

pub const COMPONENT_EDGES: usize = 6;

pub const COMPONENT_HEADER: usize = 7;

// "Location, 3 bytes: clock, and bound q."
pub const LOCATION_CLOCK: usize = 0;

pub const LOCATION_BOUND: usize = 1;

pub const LOCATION_WIDTH: usize = 3;

// "7 bytes: kind, source, destination, reset mask, counts of clock bounds, data bounds and items."
pub const EDGE_KIND: usize = 0;

pub const EDGE_SOURCE: usize = 1;

pub const EDGE_DESTINATION: usize = 2;

pub const EDGE_MASK: usize = 3;

pub const EDGE_CLOCK_GUARDS: usize = 4;

pub const EDGE_DATA_GUARDS: usize = 5;

pub const EDGE_ITEMS: usize = 6;

pub const EDGE_HEADER: usize = 7;

// Document 02, wish 8: "a 2-byte budget (0 to 60,000), a part of its own, after each edge's 7 bytes", in version 3.
pub const BUDGET_VERSION: u8 = 3;

pub const EDGE_BUDGET: usize = 7;

pub const BUDGET_WIDTH: usize = 2;

pub const MOST_BUDGET: u16 = 60000;

// "Clock bound, 5 bytes: clock, low, high. Data bound, 5 bytes: variable, low, high."
pub const GUARD_SUBJECT: usize = 0;

pub const GUARD_LOW: usize = 1;

pub const GUARD_HIGH: usize = 3;

pub const GUARD_WIDTH: usize = 5;

// "Updates of 4 bytes: variable, 0 set or 1 add, signed number."
pub const UPDATE_VARIABLE: usize = 0;

pub const UPDATE_ADDS: usize = 1;

pub const UPDATE_NUMBER: usize = 2;

pub const UPDATE_WIDTH: usize = 4;

// "Pairs of channel and location."
pub const PAIR_CHANNEL: usize = 0;

pub const PAIR_LOCATION: usize = 1;

pub const PAIR_WIDTH: usize = 2;

// The program: "Version 1; total length (2 bytes); component count; H (2 bytes)."
pub const PROGRAM_VERSION: usize = 0;

pub const PROGRAM_LENGTH: usize = 1;

pub const PROGRAM_COMPONENTS: usize = 3;

pub const PROGRAM_HORIZON: usize = 4;

pub const PROGRAM_HEADER: usize = 6;

// A node's part of it: "length, these two bytes included (2 bytes); locations; edges; initial location; a zero byte; a 2-byte start for each
// location's block, then each edge's block".
pub const PART_LENGTH: usize = 0;

pub const PART_LOCATIONS: usize = 2;

pub const PART_EDGES: usize = 3;

pub const PART_INITIAL: usize = 4;

pub const PART_HEADER: usize = 6;

pub const START_WIDTH: usize = 2;

// "A statement is op (hexadecimal), a, k (2 bytes)."
pub const STATEMENT_OP: usize = 0;

pub const STATEMENT_A: usize = 1;

pub const STATEMENT_K: usize = 2;

pub const STATEMENT_WIDTH: usize = 4;

// The schedule, as a list of numbers: "passages, each with seven fields: component, edge, location, entry, ready, end, message."
pub const PASSAGE_COMPONENT: usize = 0;

pub const PASSAGE_EDGE: usize = 1;

pub const PASSAGE_LOCATION: usize = 2;

pub const PASSAGE_ENTRY: usize = 3;

pub const PASSAGE_READY: usize = 4;

pub const PASSAGE_END: usize = 5;

pub const PASSAGE_MESSAGE: usize = 6;

pub const PASSAGE_WIDTH: usize = 7;

// "Each observation becomes 36 bytes: after the old 32 comes the tick at which the node's previous work finished" (four bytes).
pub const OBSERVATION_PREVIOUS: usize = 32;

pub const OBSERVATION_WIDTH: usize = 36;
