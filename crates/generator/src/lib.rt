// Marsaglia's 32-bit xorshift generator with shifts 13, 17, 5 (document 02, wish 10).
#![tactic(auto)]

ghost use Rattle.std.specs.Prelude.{◌≡◌};
ghost use Rattle.generator.specs.Xorshift.{next_of};

// The state, which is also the number drawn last.
#[derive(Clone, Copy)]
pub struct Generator {
    pub state: u32,
}

impl Generator {
    // "its fixed seed 2463534242"
    pub const SEED: u32 = 2463534242;

    // From the fixed seed.
    pub fn new() -> Self
        ensures { result.state ≡ 2463534242 }
    {
        Self { state: Self::SEED }
    }

    // From a seed that is given.
    pub fn seeded(seed: u32) -> Self
        ensures { result.state ≡ seed }
    {
        Self { state: seed }
    }

    // After one draw.
    pub fn next(self) -> Self
        ensures { result.state ≡ next_of self.state }
    {
        let first = self.state;
        let second = first ^ (first << 13);
        let third = second ^ (second >> 17);
        let fourth = third ^ (third << 5);
        Self { state: fourth }
    }
}
