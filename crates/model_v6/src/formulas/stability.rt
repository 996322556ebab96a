// The stability after a review: a success, a lapse, or a review on the same day.
ghost use Rattle.std.specs.Prelude.{◌≡◌};
ghost use Rattle.model_v6.specs.Stability.{
  stability_after_success_def,
  failure_floor_def,
  failure_raw_def,
  stability_after_failure_def,
  increase_def,
  stability_short_term_def,
};

use domain::floats::{max, min};
use domain::limits::clamp_stability;
use kernels::exp::exp;
use kernels::pow::pow;

#[tactic(auto, unfolding(crate::specs::Stability::stability_after_success_def))]
pub fn stability_after_success(w: &[f32; 21], s: f32, r: f32, d: f32, rating: u32) -> f32
    ensures { result ≡ stability_after_success_def w.now s r d rating }
{
    let hard_penalty = if rating == 2 { w[15] } else { 1.0 };
    let easy_bonus = if rating == 4 { w[16] } else { 1.0 };
    let raw = s
        * (exp(w[8])
            * (11.0 - d)
            * pow(s, -w[9])
            * (exp((1.0 - r) * w[10]) - 1.0)
            * hard_penalty
            * easy_bonus
            + 1.0);
    clamp_stability(raw)
}

/// A lapse leaves no more than this.
#[tactic(auto, unfolding(crate::specs::Stability::failure_floor_def))]
fn failure_floor(w: &[f32; 21], s: f32) -> f32
    ensures { result ≡ failure_floor_def w.now s }
{
    s / exp(w[17] * w[18])
}

#[tactic(auto, unfolding(crate::specs::Stability::failure_raw_def))]
fn failure_raw(w: &[f32; 21], s: f32, r: f32, d: f32) -> f32
    ensures { result ≡ failure_raw_def w.now s r d }
{
    w[11] * pow(d, -w[12]) * (pow(s + 1.0, w[13]) - 1.0) * exp((1.0 - r) * w[14])
}

#[tactic(auto, unfolding(crate::specs::Stability::stability_after_failure_def))]
pub fn stability_after_failure(w: &[f32; 21], s: f32, r: f32, d: f32) -> f32
    ensures { result ≡ stability_after_failure_def w.now s r d }
{
    let new_s_min = failure_floor(w, s);
    let new_s = failure_raw(w, s, r, d);
    clamp_stability(min(new_s, new_s_min))
}

/// The raw multiplier, or 1 where a recalled card would lose by it.
#[tactic(auto, unfolding(crate::specs::Stability::increase_def))]
fn increase(rating: u32, sinc: f32) -> f32
    ensures { result ≡ increase_def rating sinc }
{
    if rating >= 2 { max(sinc, 1.0) } else { sinc }
}

#[tactic(auto, unfolding(crate::specs::Stability::stability_short_term_def))]
pub fn stability_short_term(w: &[f32; 21], s: f32, rating: u32) -> f32
    ensures { result ≡ stability_short_term_def w.now s rating }
{
    let grade = std::num::nearest_u32_to_f32(rating);
    let sinc = exp(w[17] * (grade - 3.0 + w[18])) * pow(s, -w[19]);
    let new_s = s * increase(rating, sinc);
    clamp_stability(new_s)
}
