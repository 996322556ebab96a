// model_v6.rs and inference_v6.rs: what a study screen calls. The public functions have the names and the order of operations
// of the Rust, and `first_state_scalar`, `next_state_on_scalar` and `check_row` stand beside them. Each takes the weights as a lent
// slice and checks for itself.
#![tactic(auto)]

pub mod answers;
pub mod curve;
pub mod difficulty;
pub mod filling;
// The Rust's formulas on 21 weights, total but for `first_state`, with an equation each; the modules beside this one put the
// checks in front.
mod formulas;
pub mod rows;
pub mod seen;
pub mod sm2;
pub mod stability;
pub mod state;
