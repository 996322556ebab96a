// An f64 to the nearest f32, as Rust's `as` does it.
ghost use Rattle.std.specs.Prelude.{◌≡◌};
ghost use Rattle.std.specs.Float.{binary32};
ghost use Rattle.soft.specs.Narrow.{narrow_def};

// Stays: `narrow_def`, which contracts above cite, speaks of it; Rattle has no `x as f32` that rounds.

/// `x as f32`.
#[tactic(auto, using(crate::proofs::Tied::narrowed))]
pub fn narrow(x: f64) -> f32
    ensures { result ≡ narrow_def binary32 x }
{
    std::num::nearest_f64_to_f32_with_nan(x)
}
