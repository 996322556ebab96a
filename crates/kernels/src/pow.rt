// x to the power y, for a positive x and a y from -16 to 16: 2 ^ (y Λ), Λ the logarithm of x in steps.
ghost use Rattle.std.specs.Prelude.{◌≡◌};
ghost use Rattle.kernels.specs.Kernels.{pow_def};

use crate::kernel::Kernel;

/// `pow` of a single or of a double: a NaN outside its domain.
pub fn pow<F: Kernel>(x: F, y: F) -> F
    ensures { result ≡ F.of (pow_def F.format (F.float x) (F.float y)) }
{
    if !x.is_positive() {
        return F::exact(f32::NAN);
    }
    if !y.is_powered() {
        return F::exact(f32::NAN);
    }
    F::pow(x, y)
}
