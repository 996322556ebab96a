//! The C functions of include/fsrs6.h: each is a call of `fsrs6`'s function of its name, with the same clauses. No crate can stand on a
//! static library, so what is stated of them in `outcomes` is stated of `fsrs6`'s; `tools/entries` sees that the two say the same.
#![tactic(auto)]

pub mod arithmetic;
pub mod cards;
pub mod file;
pub mod initialization;
pub mod penalty;
pub mod prefixes;
pub mod step;
pub mod study;
pub mod why;
