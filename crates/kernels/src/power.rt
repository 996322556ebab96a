// The power of two behind exp and pow: a significand by the table and a short chain, then one rounding.
ghost use Rattle.std.specs.Prelude.{◌≡◌};
ghost use Rattle.kernels.specs.Power as Power;

use crate::kernel::PowerOfTwo;
use crate::whole::split;

// The ends are tested before the significand, so that the compiler branches instead of working both.
pub(crate) fn power<F: PowerOfTwo>(z: i64) -> F
    ensures { result ≡ F.of (Power.power F.format z) }
{
    let parts = split(z);
    if parts.k < F::LEAST {
        return F::exact(0.0);
    }
    if parts.k > F::MOST {
        return F::exact(f32::INFINITY);
    }
    F::assemble(parts.k, F::significand(parts))
}
