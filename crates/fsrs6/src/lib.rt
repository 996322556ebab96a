//! What C calls by way of `fsrs6_c`: the functions of include/fsrs6.h, in its order. Each is one call of the entry that proves it; its
//! answers are written where the call was accepted, and the refusal's number is returned. Those that say why (`why`) return their
//! whole answer.
// Stays: the C interface. No crate can stand on a static library, so each function is one of this library and an export of `fsrs6_c`.
#![tactic(auto)]

pub mod arithmetic;
pub mod cards;
pub mod file;
pub mod initialization;
pub mod penalty;
mod places;
pub mod prefixes;
pub mod step;
pub mod study;
pub mod why;
