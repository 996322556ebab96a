pub mod curve;
pub mod difficulty;
pub mod sm2;
pub mod stability;
pub mod state;
