//! Why a card moved: the rule that gave a training step its answer, and what its last clamp held. Why a loss call is refused, and
//! for which cell, is told by `checks::places`.
#![tactic(auto)]

pub mod reasons;
pub mod step;
