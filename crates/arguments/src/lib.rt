// Numbers among a program's arguments, in decimal, and how many arguments there are.
//
// Arguments are read into fixed memory and not by `std::env::args`, which needs a heap.
#![tactic(auto)]

use std::env::{Env, FillError};

// How many arguments there are, the program's own name among them.
pub fn count(env: &impl Env) -> usize {
    let mut word = [0u8; 1];
    (0..usize::MAX)
        .find(|i| matches!(env.arg(*i, &mut word), Err(FillError::NotPresent)))
        .unwrap_or(usize::MAX)
}

// The number that argument i is; none if it is missing, too long or no number.
pub fn argument(env: &impl Env, i: usize) -> Option<u32> {
    let mut word = [0u8; 4096];
    let n = env.arg(i, &mut word).ok()?;
    text::number_of(&word[..n])
}
