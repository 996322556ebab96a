// The first difficulty, and the difficulty after a review.
ghost use Rattle.std.specs.Prelude.{◌≡◌};
ghost use Rattle.model_v6.specs.Difficulty.{init_difficulty_def, mean_reversion_def, next_difficulty_def};

use domain::difficulty::{clamp_difficulty, rating_offset};
use kernels::exp::exp;

#[tactic(auto, unfolding(crate::specs::Difficulty::init_difficulty_def))]
pub fn init_difficulty(w: &[f32; 21], rating: u32) -> f32
    ensures { result ≡ init_difficulty_def w.now rating }
{
    w[4] - exp(w[5] * rating_offset(rating)) + 1.0
}

#[tactic(auto, unfolding(crate::specs::Difficulty::mean_reversion_def))]
pub fn mean_reversion(w: &[f32; 21], init: f32, current: f32) -> f32
    ensures { result ≡ mean_reversion_def w.now init current }
{
    w[7] * init + (1.0 - w[7]) * current
}

#[tactic(auto, unfolding(crate::specs::Difficulty::next_difficulty_def))]
pub fn next_difficulty(w: &[f32; 21], d: f32, rating: u32) -> f32
    ensures { result ≡ next_difficulty_def w.now d rating }
{
    let delta_d = -w[6] * (std::num::nearest_u32_to_f32(rating) - 3.0);
    let new_d = d + ((10.0 - d) / 9.0) * delta_d;
    clamp_difficulty(mean_reversion(w, init_difficulty(w, 4), new_d))
}
