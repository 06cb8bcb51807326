// What a slot plan is made from. No functions: specs/ uses this type as its own record, and proofs/ has the laws.
#![tactic(auto)]

// "one hub and n probes (1 to 7) .. slot s and guard g (1 to 1,000 ticks each) and period p (at most 30,000)"
#[derive(Clone, Copy)]
pub struct Slots {
    pub probes: u32,
    pub slot: u32,
    pub guard: u32,
    pub period: u32,
}
