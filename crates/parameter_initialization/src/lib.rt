// parameter_initialization.rs, of which two functions are ported: the derivatives of the loss of first recalls, and the search
// for a starting stability.
#![tactic(auto)]

mod curve;
pub mod derivatives;
mod ends;
mod recalls;
mod search;
pub mod stability;
