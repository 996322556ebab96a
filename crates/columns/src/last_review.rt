//! A column's last scored review: its loss, and the gradient by the stability before it.
ghost use Rattle.std.specs.Prelude.{◌≡◌};
ghost use Rattle.columns.specs.LastReview.{target_loss_def, target_grad, target_slots, last_loss_def, last_grad, last_slots};

use crate::scores::bce_loss_and_grad_r;
use backward::curve::curve_backward;
use backward::slots::stability_grad;
use checks::deck::Target;
use domain::limits::clamp_stability;
use forward::curve::curve_forward;
use forward::parameters::RuntimeParams;

/// A loss, and the gradient by the stability before the review.
#[derive(Clone, Copy, Debug, PartialEq)]
pub struct Ending {
    pub loss: f64,
    pub g_s: f64,
}

// Stays: a loss alone works no gradient and is lent no slots, so that one function with a flag for it would be no plainer.
/// The loss of a target after its prefix. A weight of 0 ends it: no curve is worked.
#[tactic(auto, unfolding(crate::specs::LastReview::target_loss_def))]
pub fn target_loss(p: &RuntimeParams, s: f32, target: Target) -> f64
    ensures { result ≡ target_loss_def p.now s target.day target.label target.weight }
{
    if target.weight == 0.0 {
        return 0.0;
    }
    let curve = curve_forward(p, target.day, s);
    bce_loss_and_grad_r(curve.retrievability, target.label, target.weight).loss
}

/// As `target_loss`, with the gradient by the stability; that by the weights is added into the 21 slots of `gw`.
#[tactic(auto, unfolding(crate::specs::LastReview::target_loss_def, crate::specs::LastReview::target_grad, crate::specs::LastReview::target_slots))]
pub fn target_end(p: &RuntimeParams, s: f32, target: Target, gw: &mut [f64]) -> Ending
    ensures end { result ≡ record { loss = target_loss_def p.now s target.day target.label target.weight; g_s = target_grad p.now s target.day target.label target.weight } }
    ensures slots { gw.new ≡ target_slots p.now s target.day target.label target.weight gw.old }
{
    if target.weight == 0.0 {
        return Ending {
            loss: 0.0,
            g_s: 0.0,
        };
    }
    let curve = curve_forward(p, target.day, s);
    let score = bce_loss_and_grad_r(curve.retrievability, target.label, target.weight);
    Ending {
        loss: score.loss,
        g_s: curve_backward(p, curve, score.g_r, gw),
    }
}

/// A card's last row, after the loss of the rows before it; `row` is its number from the first review. Row 0 has nothing to
/// score.
#[tactic(auto, unfolding(crate::specs::LastReview::last_loss_def, checks::specs::Reads::card_label, checks::specs::Reads::later, checks::specs::Reads::non_zero))]
pub fn last_loss(p: &RuntimeParams, row: u32, s: f32, target: Target, loss: f64) -> f64
    ensures { result ≡ last_loss_def p.now row s target.day target.label target.weight loss }
{
    if row == 0 || target.weight == 0.0 {
        return loss;
    }
    loss + target_loss(p, clamp_stability(s), target)
}

/// As `last_loss`, with the gradient by the stability; that by the weights is added into the 21 slots of `gw`.
#[tactic(auto, unfolding(crate::specs::LastReview::last_loss_def, crate::specs::LastReview::last_grad, crate::specs::LastReview::last_slots, checks::specs::Reads::card_label, checks::specs::Reads::later, checks::specs::Reads::non_zero))]
pub fn last_end(
    p: &RuntimeParams,
    row: u32,
    s: f32,
    target: Target,
    loss: f64,
    gw: &mut [f64],
) -> Ending
    ensures end { result ≡ record { loss = last_loss_def p.now row s target.day target.label target.weight loss; g_s = last_grad p.now row s target.day target.label target.weight } }
    ensures slots { gw.new ≡ last_slots p.now row s target.day target.label target.weight gw.old }
{
    if row == 0 || target.weight == 0.0 {
        return Ending { loss, g_s: 0.0 };
    }
    let end = target_end(p, clamp_stability(s), target, gw);
    Ending {
        loss: loss + end.loss,
        g_s: end.g_s * stability_grad(s),
    }
}
