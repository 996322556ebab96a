// analytic_v6.rs, forward: a review moves a memory state, and a record says by which branch.
#![tactic(auto)]

pub mod curve;
pub mod parameters;
mod stability;
pub mod state;
pub mod step;
