// IEEE 754 by whole numbers: the product of two words and its shifts (`wide`, `shifts`), a float taken apart (`units`), the fused
// multiply-add, a double made a single, and rounding to a whole number. No public function asks anything of its caller.
#![tactic(auto)]

pub mod fma;
pub mod half_away;
pub mod narrow;
pub mod shifts;
pub mod units;
pub mod wide;
