// The plain types of documents 01 and 02, the ops of its statements and the places of its numbers. No functions: specs/ uses these types as its own records.
#![tactic(auto)]

pub mod layout;
pub mod op;

// "An edge is one of three: internal (0), send (1) or receive (2)." A send holds its channel; the
// items of the two others stand beside the edge.
#[derive(Clone, Copy)]
pub enum Action {
    Internal,
    Send(u8),
    Receive,
}

// Bit i of the mask (the reset mask) stands for clock i.
#[derive(Clone, Copy)]
pub struct Edge {
    pub source: u8,
    pub destination: u8,
    pub mask: u8,
    pub action: Action,
}

// The location invariant: clock <= bound.
#[derive(Clone, Copy)]
pub struct Location {
    pub clock: u8,
    pub bound: u16,
}

// A clock bound of document 01: low <= clock <= high; a high of 65,535 is none.
#[derive(Clone, Copy)]
pub struct ClockGuard {
    pub clock: u8,
    pub low: u16,
    pub high: u16,
}

// A data bound of document 01: low <= variable <= high, signed.
#[derive(Clone, Copy)]
pub struct DataGuard {
    pub variable: u8,
    pub low: i16,
    pub high: i16,
}

// Sets the variable to the number, or adds the number to it.
#[derive(Clone, Copy)]
pub struct Update {
    pub variable: u8,
    pub adds: bool,
    pub number: i16,
}

// A message on the channel leads a receive edge to the location.
#[derive(Clone, Copy)]
pub struct Pair {
    pub channel: u8,
    pub location: u8,
}

// What a table's header tells of its components: the channels, and whether edges have a budget.
#[derive(Clone, Copy)]
pub struct TableHeader {
    pub channels: u8,
    pub budgets: bool,
}

// What the ranges of a component's numbers depend on.
#[derive(Clone, Copy)]
pub struct Sizes {
    pub channels: u8,
    pub locations: u8,
    pub clocks: u8,
    pub variables: u8,
    pub budgets: bool,
}

// The answer of a check: accepted, or refused with a number and the component concerned.
#[derive(Clone, Copy)]
pub enum Verdict {
    Accepted,
    Refused(u8, u8),
}

// Document 02, wish 3: how a send window is heard: well, or which of the four faults it has.
#[derive(Clone, Copy)]
pub enum Hearing {
    Well,
    Nobody,
    Several,
    LateStart,
    EarlyEnd,
}

// How a run ends: at the horizon, with the choices used up, with a node that is late (the lowest), or with
// a choice that is not allowed.
#[derive(Clone, Copy)]
pub enum End {
    Horizon,
    UsedUp,
    Late(u8),
    NotAllowed,
}

// Why an edge from a passage's location was taken or not; a data bound that fails has its number within the edge.
#[derive(Clone, Copy)]
pub enum Reason {
    Taken,
    DataBound(u8),
    NoWindow,
    ReadyLater,
    HigherNumber,
}
