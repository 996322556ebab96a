// The fused multiply-add, x * y + z rounded once, for f32 and f64: std's `mul_add`, each equal to its definition
// (specs/Fma.antt).
ghost use Rattle.std.specs.Prelude.{◌≡◌};
ghost use Rattle.std.specs.Float.{binary32, binary64};
ghost use Rattle.soft.specs.Fma.{fma_def};

// Stays: one line each, and a C function stands on each; a trait over the two is no plainer.

/// `x * y + z`, rounded once.
#[tactic(auto, using(crate::proofs::Tied::fused))]
pub fn fma_f64(x: f64, y: f64, z: f64) -> f64
    ensures { result ≡ fma_def binary64 x y z }
{
    f64::mul_add(x, y, z)
}

/// `x * y + z`, rounded once.
#[tactic(auto, using(crate::proofs::Tied::fused))]
pub fn fma_f32(x: f32, y: f32, z: f32) -> f32
    ensures { result ≡ fma_def binary32 x y z }
{
    f32::mul_add(x, y, z)
}
