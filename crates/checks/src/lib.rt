// What a loss call is refused for, before anything of it is worked: which cells it reads, the first of these that is bad, and
// the sizes.
#![tactic(auto)]

pub mod align;
pub mod deck;
pub mod fault;
mod faults;
// Why a loss call is refused, and where: the twin of each loss entry.
pub mod places;
pub mod reads;
mod sizes;
pub mod tables;
pub mod view;
