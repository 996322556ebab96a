// training_v7.rs, of which one function is ported, for 21 weights: the pull toward the old weights.
#![tactic(auto)]

pub mod penalty;
mod refusals;
