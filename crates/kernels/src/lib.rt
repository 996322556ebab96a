// exp, ln and pow for f32 and f64, and exp less 1 for f32, each equal to its definition (specs/Kernels.antt). No public function asks anything of its caller.
#![tactic(auto)]

mod binary;
mod double;
pub mod exp;
pub mod expm1;
mod high;
mod kernel;
pub mod ln;
mod log;
mod log_double;
mod log_single;
mod parts;
pub mod pow;
mod pow_double;
pub mod pow_ln;
mod pow_single;
mod power;
mod single;
mod whole;
