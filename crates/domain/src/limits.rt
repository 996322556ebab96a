// The ranges of stability, by `simulation.rs`'s ends, and of days.
ghost use Rattle.std.specs.Prelude.{◌≡◌};
ghost use Rattle.domain.specs.Floats.{clamp_def, max_def};
ghost use Rattle.domain.specs.Limits.{zero32, s_min_def, s_max_def, day_good_def, stability_good};

use crate::floats::{clamp, is_within, max};

/// The least stability, in days (`simulation.rs`).
pub const S_MIN: f32 = 0.0001;

/// The greatest stability, in days (`simulation.rs`).
pub const S_MAX: f32 = 36500.0;

/// The farthest day before or after a card's first.
pub const DAY_MAX: f32 = 100000.0;

/// `s.max(S_MIN)`
#[tactic(auto, using(crate::proofs::Literals::s_min))]
pub fn floor_stability(s: f32) -> f32
    ensures { result ≡ max_def s s_min_def }
{
    max(s, S_MIN)
}

/// `s.clamp(S_MIN, S_MAX)`; a NaN passes.
#[tactic(auto, using(crate::proofs::Literals::s_min, crate::proofs::Literals::s_max))]
pub fn clamp_stability(s: f32) -> f32
    ensures { result ≡ clamp_def s s_min_def s_max_def }
{
    clamp(s, S_MIN, S_MAX)
}

/// `s.clamp(0.0, S_MAX)`, a number of days; a NaN passes.
#[tactic(auto, using(crate::proofs::Literals::s_max))]
pub fn clamp_interval(s: f32) -> f32
    ensures { result ≡ clamp_def s zero32 s_max_def }
{
    clamp(s, 0.0, S_MAX)
}

/// Whether a stability is in its range: both ends belong, and a NaN does not.
#[tactic(auto, using(crate::proofs::Literals::s_min, crate::proofs::Literals::s_max))]
pub fn is_stability(s: f32) -> bool
    ensures { result ≡ stability_good s }
{
    is_within(s, S_MIN, S_MAX)
}

/// Whether a day is in its range: both ends belong, and a NaN does not.
#[tactic(auto, using(crate::proofs::Literals::day_max))]
pub fn is_day(t: f32) -> bool
    ensures { result ≡ day_good_def t }
{
    is_within(t, -DAY_MAX, DAY_MAX)
}
