// exp for f32 and f64, equal to its definition (specs/Kernels.antt).
ghost use Rattle.std.specs.Prelude.{◌≡◌, ◌&&◌, nat_le};
ghost use Rattle.kernels.specs.Kernels.{exp_def};
ghost use Rattle.kernels.specs.inner.Fields.{least, most};

use crate::kernel::{Kernel, PowerOfTwo};
use crate::power::power;
use crate::whole::signed;

// The exponents from 2^-53 on, to 2^6 or 2^9: one test.
fn has_turns<F: PowerOfTwo>(exponent: u64) -> bool
    ensures { result ≡ (nat_le (least F.format) exponent && nat_le exponent (most F.format)) }
{
    F::FIRST <= exponent && exponent <= F::LAST
}

/// `exp` of a single or of a double: a NaN outside its domain.
pub fn exp<F: Kernel>(x: F) -> F
    ensures { result ≡ F.of (exp_def F.format (F.float x)) }
{
    if x.is_no_number() {
        return F::exact(f32::NAN);
    }
    let b = x.fields();
    if has_turns::<F>(b.exponent) {
        let a = F::turns(b.digits, b.exponent);
        return power(signed(b.negative, a));
    }
    if b.exponent < F::FIRST {
        return F::exact(1.0);
    }
    if b.exponent == F::ONES {
        return F::exact(f32::NAN);
    }
    if b.negative {
        return F::exact(0.0);
    }
    F::exact(f32::INFINITY)
}
