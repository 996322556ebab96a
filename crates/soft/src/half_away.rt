// To the nearest whole number, half-way cases away from zero: std's `round`, for f32 and f64, each equal to its definition
// (specs/HalfAway.antt).
ghost use Rattle.std.specs.Prelude.{◌≡◌};
ghost use Rattle.std.specs.Float.{binary32, binary64};
ghost use Rattle.soft.specs.HalfAway.{round_def};

// Stays: one line each, and a C function stands on each; a trait over the two is no plainer.

/// The nearest whole number, half-way cases away from zero.
#[tactic(auto, using(crate::proofs::Tied::rounded))]
pub fn round_f64(x: f64) -> f64
    ensures { result ≡ round_def binary64 x }
{
    f64::round(x)
}

/// The nearest whole number, half-way cases away from zero.
#[tactic(auto, using(crate::proofs::Tied::rounded))]
pub fn round_f32(x: f32) -> f32
    ensures { result ≡ round_def binary32 x }
{
    f32::round(x)
}
