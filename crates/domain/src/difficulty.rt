// The difficulty's range, by `simulation.rs`'s ends, and what a rating counts in a difficulty.
ghost use Rattle.std.specs.Prelude.{◌≡◌};
ghost use Rattle.domain.specs.Floats.{clamp_def};
ghost use Rattle.domain.specs.Limits.{d_min, d_max, rating_offset_def, difficulty_good_def};

use crate::floats::{clamp, is_within};

/// The least difficulty (`simulation.rs`).
pub const D_MIN: f32 = 1.0;

/// The greatest difficulty (`simulation.rs`).
pub const D_MAX: f32 = 10.0;

/// What a rating counts in a difficulty: `rating.saturating_sub(1) as f32`.
pub fn rating_offset(rating: u32) -> f32
    ensures { result ≡ rating_offset_def rating }
{
    std::num::nearest_u32_to_f32(rating.saturating_sub(1))
}

/// `d.clamp(D_MIN, D_MAX)`; a NaN passes.
pub fn clamp_difficulty(d: f32) -> f32
    ensures { result ≡ clamp_def d d_min d_max }
{
    clamp(d, D_MIN, D_MAX)
}

/// Whether a difficulty is in its range: both ends belong, and a NaN does not.
pub fn is_difficulty(d: f32) -> bool
    ensures { result ≡ difficulty_good_def d }
{
    is_within(d, D_MIN, D_MAX)
}
