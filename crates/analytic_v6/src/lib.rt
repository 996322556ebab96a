//! analytic_v6.rs: what a trainer calls. Each entry takes its weights as a lent slice, checks for itself before it writes, and
//! answers a refusal where it does not accept the call.
// Stays: prefixes and cards have an entry each, alone and with the gradient, as in the Rust; a trait over the decks would be longer.
#![tactic(auto)]

/// Each column is a card, and every review after its first is scored.
pub mod cards;
/// Each column is a history, and only the review after it is scored.
pub mod prefixes;
/// One training step, for a caller with a loss of its own.
pub mod step;
