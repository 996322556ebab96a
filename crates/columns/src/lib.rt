//! One column of a batch: its rows forward, its last review, its records, and its rows backward.
#![tactic(auto)]

pub mod backward_pass;
pub mod forward_pass;
pub mod last_review;
pub mod layout;
pub mod records;
pub mod scores;
pub mod step_records;
pub mod untraced;
