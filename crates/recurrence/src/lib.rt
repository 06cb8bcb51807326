// A state of all components that comes again (document 02, wish 14): the definitions are specs/Recurrence.antt, proofs/ has the laws. No functions.
#![tactic(auto)]

// Two ticks at which all components enter alike.
#[derive(Clone, Copy)]
pub struct Pair {
    pub from: u32,
    pub to: u32,
}
