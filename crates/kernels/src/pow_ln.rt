// A power and the natural logarithm of its base, on one logarithm.
ghost use Rattle.std.specs.Prelude.{◌≡◌};
ghost use Rattle.std.specs.Float.{binary64};
ghost use Rattle.kernels.specs.Kernels.{ln_def, pow_def};

use crate::binary::{Exponent, Positive};
use crate::ln::ln;
use crate::log_double::{log, nearest};
use crate::pow::pow;
use crate::pow_double::raised;

/// A power and the logarithm of its base.
#[derive(Clone, Copy, Debug, PartialEq)]
pub struct PowLn {
    pub pow: f64,
    pub ln: f64,
}

// Each by its own function: what has no logarithm, no power, or is 1.
fn apart(x: f64, y: f64) -> PowLn
    ensures { result ≡ record { pow = pow_def binary64 x y; ln = ln_def binary64 x } }
{
    let pow = pow(x, y);
    let ln = ln(x);
    PowLn { pow, ln }
}

/// `pow(x, y)` and `ln(x)`, for less than the two of them.
pub fn pow_ln_f64(x: f64, y: f64) -> PowLn
    ensures { result ≡ record { pow = pow_def binary64 x y; ln = ln_def binary64 x } }
{
    let Some(base) = Positive::new(x) else {
        return apart(x, y);
    };
    let Some(exponent) = Exponent::new(y) else {
        return apart(x, y);
    };
    if x.to_bits() == 0x3ff0_0000_0000_0000 {
        return apart(x, y);
    }
    let g = log(base);
    let ln = nearest(g);
    let pow = raised(g, exponent);
    PowLn { pow, ln }
}
