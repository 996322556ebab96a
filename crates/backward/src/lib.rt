// analytic_v6.rs, backward: a gradient goes back through exactly the branch that a step took, and into the 21 slots. Each
// function adds to the slots that it may move, in the text's order, zero tests and early returns included: these decide
// which slots keep their bits.
#![tactic(auto)]

pub mod curve;
mod difficulty;
mod failure;
mod grads;
mod short;
pub mod slots;
pub mod step;
mod success;
