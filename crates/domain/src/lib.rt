// What every layer above shares: Rust's methods of an f32 that compare (`floats`), the ranges of stability and days (`limits`)
// and of the difficulty, and the 21 weights with their box and defaults.
#![tactic(auto)]

pub mod defaults;
pub mod difficulty;
pub mod floats;
pub mod limits;
pub mod refusal;
pub mod weights;
