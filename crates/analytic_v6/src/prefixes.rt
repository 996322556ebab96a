//! The prefix loss: alone, and with its gradient.

pub mod grad;
pub mod loss;
