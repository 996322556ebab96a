// The natural logarithm.
ghost use Rattle.std.specs.Prelude.{◌≡◌};
ghost use Rattle.kernels.specs.Kernels.{ln_def};

use crate::kernel::Kernel;

/// `ln` of a single or of a double: a NaN outside its domain.
pub fn ln<F: Kernel>(x: F) -> F
    ensures { result ≡ F.of (ln_def F.format (F.float x)) }
{
    if !x.is_positive() {
        return F::exact(f32::NAN);
    }
    F::ln(x)
}
