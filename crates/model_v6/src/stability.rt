// The stability after a success, a lapse or a review on the same day, with its checks.
ghost use Rattle.std.specs.Prelude.{◌≡◌};
ghost use Rattle.model_v6.specs.Results.{answered};
ghost use Rattle.model_v6.specs.Answers.{
  in_ranges_def,
  stability_after_success_scalar_def,
  stability_after_failure_scalar_def,
  stability_short_term_scalar_def,
};

use crate::answers::{check_argument, is_rating};
use crate::formulas::stability::{
    stability_after_failure, stability_after_success, stability_short_term,
};
use domain::difficulty::is_difficulty;
use domain::floats::is_within;
use domain::limits::is_stability;
use domain::refusal::Refusal;
use domain::weights::Weights;

// Stays: no plainer: s, r and d come one by one here and below, as the Rust and the C functions take them.
/// Whether all three lie in their ranges.
fn in_ranges(s: f32, r: f32, d: f32) -> bool
    ensures { result ≡ in_ranges_def s r d }
{
    is_stability(s) & is_within(r, 0.0, 1.0) & is_difficulty(d)
}

/// The stability after a review, on a later day, at which a card of the stability s and the difficulty d was recalled, r being its
/// retrievability. Refused are the weights (1, 2) and an argument out of its range (13).
#[tactic(auto, using(crate::proofs::answers::Answering::entry), unfolding(crate::specs::Answers::stability_after_success_scalar_def))]
pub fn stability_after_success_scalar(
    w: &[f32],
    s: f32,
    r: f32,
    d: f32,
    rating: u32,
) -> Result<f32, Refusal>
    ensures { answered result ≡ stability_after_success_scalar_def w.now s r d rating }
{
    let w = Weights::try_from(w)?;
    check_argument(in_ranges(s, r, d) & is_rating(rating))?;
    Ok(stability_after_success(&w.values, s, r, d, rating))
}

/// The same where the card was forgotten.
#[tactic(auto, using(crate::proofs::answers::Answering::entry), unfolding(crate::specs::Answers::stability_after_failure_scalar_def))]
pub fn stability_after_failure_scalar(w: &[f32], s: f32, r: f32, d: f32) -> Result<f32, Refusal>
    ensures { answered result ≡ stability_after_failure_scalar_def w.now s r d }
{
    let w = Weights::try_from(w)?;
    check_argument(in_ranges(s, r, d))?;
    Ok(stability_after_failure(&w.values, s, r, d))
}

/// The stability after another review on the same day. Refused are the weights (1, 2), and an s or rating out of its range (13).
#[tactic(auto, using(crate::proofs::answers::Answering::entry), unfolding(crate::specs::Answers::stability_short_term_scalar_def))]
pub fn stability_short_term_scalar(w: &[f32], s: f32, rating: u32) -> Result<f32, Refusal>
    ensures { answered result ≡ stability_short_term_scalar_def w.now s rating }
{
    let w = Weights::try_from(w)?;
    check_argument(is_stability(s) & is_rating(rating))?;
    Ok(stability_short_term(&w.values, s, rating))
}
