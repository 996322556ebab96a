//! The loss of one scored review: weighted binary cross entropy, and its derivative by the retrievability.
ghost use Rattle.std.specs.Prelude.{◌≡◌, ◌&&◌};
ghost use Rattle.columns.specs.Scores.{probability, bce_loss_def, bce_grad_def, is_inside_def, score_def};
ghost use Rattle.domain.specs.Limits.{zero32, one};
ghost use Rattle.domain.specs.Floats.{◌+ᶠ◌, ◌-ᶠ◌, ◌*ᶠ◌};
ghost use Rattle.kernels.specs.Calls.{ln32};
ghost use Rattle.std.specs.Float.Ieee.{lt};

use domain::floats::clamp;
use kernels::ln::ln;

const MIN_PROB: f32 = 1e-7;

const MAX_PROB: f32 = 1.0 - 1e-7;

/// A review's loss, and its gradient by the retrievability.
#[derive(Clone, Copy, Debug, PartialEq)]
pub struct Score {
    pub loss: f64,
    pub g_r: f64,
}

#[tactic(auto, using(crate::proofs::scores::Literals::min_prob, crate::proofs::scores::Literals::max_prob), unfolding(crate::specs::Scores::probability))]
fn probability(r_raw: f32) -> f32
    ensures { result ≡ probability r_raw }
{
    clamp(r_raw, MIN_PROB, MAX_PROB)
}

// 0 < r < 1: then both logarithms are numbers, and neither is -0.
fn has_logs(r: f32) -> bool
    ensures { result ≡ lt zero32 r && lt r one }
{
    0.0 < r && r < 1.0
}

fn both_logs(r: f32, label: f32) -> f32
    ensures { result ≡ label *ᶠ ln32 r +ᶠ (one -ᶠ label) *ᶠ ln32 (one -ᶠ r) }
{
    (label * ln(r)) + ((1.0 - label) * ln(1.0 - r))
}

// A label of 1 or 0 takes one logarithm: the other's product is a zero, and adding it changes nothing.
fn log_likelihood(r: f32, label: f32) -> f32
    ensures { result ≡ label *ᶠ ln32 r +ᶠ (one -ᶠ label) *ᶠ ln32 (one -ᶠ r) }
{
    if !has_logs(r) {
        return both_logs(r, label);
    }
    if label == 1.0 {
        return ln(r);
    }
    if label == 0.0 {
        return ln(1.0 - r);
    }
    both_logs(r, label)
}

#[tactic(auto, unfolding(crate::specs::Scores::bce_loss_def))]
fn bce_loss(r: f32, label: f32, weight: f32) -> f32
    ensures { result ≡ bce_loss_def r label weight }
{
    -log_likelihood(r, label) * weight
}

#[tactic(auto, unfolding(crate::specs::Scores::bce_grad_def))]
fn bce_grad(r: f32, label: f32, weight: f32) -> f32
    ensures { result ≡ bce_grad_def r label weight }
{
    -weight * (label / r - (1.0 - label) / (1.0 - r))
}

// The clamp stops the gradient at its ends too.
#[tactic(auto, using(crate::proofs::scores::Literals::min_prob, crate::proofs::scores::Literals::max_prob), unfolding(crate::specs::Scores::is_inside_def))]
fn is_inside(r_raw: f32) -> bool
    ensures { result ≡ is_inside_def r_raw }
{
    MIN_PROB < r_raw && r_raw < MAX_PROB
}

// A weight of 0, of either sign, ends its item.
#[tactic(auto, unfolding(crate::specs::Scores::score_def, crate::specs::Scores::no_score_def))]
pub(crate) fn bce_loss_and_grad_r(r_raw: f32, label: f32, weight: f32) -> Score
    ensures { result ≡ score_def r_raw label weight }
{
    if weight == 0.0 {
        return Score {
            loss: 0.0,
            g_r: 0.0,
        };
    }
    let r = probability(r_raw);
    Score {
        loss: f64::from(bce_loss(r, label, weight)),
        g_r: if is_inside(r_raw) {
            f64::from(bce_grad(r, label, weight))
        } else {
            0.0
        },
    }
}
