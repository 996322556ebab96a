// The forgetting curve and its inverse, with their checks.
ghost use Rattle.std.specs.Prelude.{◌≡◌};
ghost use Rattle.model_v6.specs.Results.{answered};
ghost use Rattle.model_v6.specs.Answers.{curve_scalar, interval_scalar};

use crate::answers::check_argument;
use crate::formulas::curve::{next_interval, power_forgetting_curve};
use domain::floats::is_finite;
use domain::limits::is_day;
use domain::refusal::Refusal;
use domain::weights::Weights;

/// What is remembered t days after a review that left the stability s. Refused are the weights (1, 2), a t
/// that is no day, and an s that is not finite (13).
#[tactic(auto, using(crate::proofs::answers::Answering::entry), unfolding(crate::specs::Answers::curve_scalar))]
pub fn power_forgetting_curve_scalar(w: &[f32], t: f32, s: f32) -> Result<f32, Refusal>
    ensures { answered result ≡ curve_scalar w.now t s }
{
    let w = Weights::try_from(w)?;
    check_argument(is_day(t) & is_finite(s))?;
    Ok(power_forgetting_curve(&w.values, t, s))
}

/// The days after which the desired retention is reached. Refused are the weights (1, 2) and an argument that is not
/// finite (13).
#[tactic(auto, using(crate::proofs::answers::Answering::entry), unfolding(crate::specs::Answers::interval_scalar))]
pub fn next_interval_scalar(
    w: &[f32],
    stability: f32,
    desired_retention: f32,
) -> Result<f32, Refusal>
    ensures { answered result ≡ interval_scalar w.now stability desired_retention }
{
    let w = Weights::try_from(w)?;
    check_argument(is_finite(stability) & is_finite(desired_retention))?;
    Ok(next_interval(&w.values, stability, desired_retention))
}
