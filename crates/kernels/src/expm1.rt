// exp less 1 for f32, equal to its definition (specs/Kernels.antt).
ghost use Rattle.std.specs.Prelude.{◌≡◌};
ghost use Rattle.kernels.specs.Kernels.{tiny, expm1_def};

use crate::exp::exp;
use soft::narrow::narrow;

// 2^-24
const TINY: f32 = 0.000000059604644775390625;

fn is_tiny(x: f32) -> bool
    ensures { result ≡ tiny x }
{
    -TINY < x && x < TINY
}

/// `exp(x) - 1`. Next to 0 the difference would lose the argument's digits, and below 2^-54 all of them.
pub fn expm1_f32(x: f32) -> f32
    ensures { result ≡ expm1_def x }
{
    if is_tiny(x) {
        return x;
    }
    let y = exp(f64::from(x));
    narrow(y - 1.0)
}
