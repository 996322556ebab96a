// The pull toward the old weights, and its gradient: training_v7.rs, l2_penalty_value_and_grad.
ghost use Rattle.std.specs.Prelude.{◌≡◌, ◌<◌, length};
ghost use Rattle.checks.specs.Columns.{through};
ghost use Rattle.domain.specs.Weights.{◌!◌};
ghost use Rattle.training_v7.specs.Penalty.{scale_def, term_def, slope_def, sum_def, counts_def, slot_def, store_slot_def, answered, PenaltyLeaves, penalty_answer};

use crate::refusals::check_penalty;
use domain::floats::is_finite;
use domain::refusal::Refusal;
use domain::weights::copy_weights;
use soft::narrow::narrow;
use std::num::nearest_u64_to_f64;

/// `l2_weight * batch_size as f64 / total_size as f64`
#[tactic(auto, unfolding(crate::specs::Penalty::scale_def))]
fn scale_of(l2_weight: f64, batch_size: u64, total_size: u64) -> f64
    ensures { result ≡ scale_def l2_weight batch_size total_size }
{
    l2_weight * nearest_u64_to_f64(batch_size) / nearest_u64_to_f64(total_size)
}

/// What one weight adds to the sum.
#[tactic(auto, unfolding(crate::specs::Penalty::term_def))]
fn term(x: f32, y: f32, spread: f32) -> f64
    ensures { result ≡ term_def x y spread }
{
    let sigma = f64::from(spread);
    let denom = sigma * sigma;
    let diff = f64::from(x) - f64::from(y);
    diff * diff / denom
}

/// Its derivative.
#[tactic(auto, unfolding(crate::specs::Penalty::slope_def))]
fn slope(x: f32, y: f32, spread: f32, scale: f64) -> f64
    ensures { result ≡ slope_def x y spread scale }
{
    let sigma = f64::from(spread);
    let denom = sigma * sigma;
    let diff = f64::from(x) - f64::from(y);
    2.0 * diff / denom * scale
}

/// Whether the penalty counts: with a total of 0, or where it is not finite, nothing does.
#[tactic(auto, unfolding(crate::specs::Penalty::counts_def))]
fn counts(total_size: u64, penalty: f64) -> bool
    ensures { result ≡ counts_def total_size penalty }
{
    (total_size != 0) & soft::units::is_finite(penalty)
}

// Stays: three sets beside each other, since `sum_def` and `slot_def` of specs/Penalty.antt take three.
/// 21 weights, those of old, and how far each may go from the old one.
#[derive(Clone, Copy, Debug, PartialEq)]
struct Pull {
    weights: [f32; 21],
    old: [f32; 21],
    spreads: [f32; 21],
}

impl Pull {
    #[tactic(auto, using(checks::proofs::tables::Columns::no_total, checks::proofs::tables::Columns::next_total), unfolding(crate::specs::Penalty::sum_def))]
    fn sum(&self) -> f64
        ensures { result ≡ sum_def self.now.weights self.now.old self.now.spreads }
    {
        let mut sum = 0.0;
        for i in 0..21 {
            sum += term(self.weights[i], self.old[i], self.spreads[i]);
        }
        sum
    }

    // Stays: `slot_def` takes the scale and whether it counts as two, and so do this and `store`.
    /// The derivative by weight i. It is narrowed once, and its finiteness is asked of the single.
    #[tactic(auto, unfolding(crate::specs::Penalty::slot_def))]
    fn slot(&self, i: usize, scale: f64, counted: bool) -> f32
        requires { i < 21 }
        ensures { result ≡ slot_def self.now.weights self.now.old self.now.spreads scale counted i }
    {
        let d = slope(self.weights[i], self.old[i], self.spreads[i], scale);
        let g = narrow(d);
        if counted & is_finite(g) { g } else { 0.0 }
    }

    /// The slots are written and not added to.
    #[tactic(auto, using(checks::proofs::tables::Columns::none_through))]
    fn store(&self, scale: f64, counted: bool, slots: &mut [f32])
        requires { length slots.old ≡ 21 }
        ensures { slots.new ≡ through (store_slot_def self.now.weights self.now.old self.now.spreads scale counted) 21
            slots.old }
    {
        for i in 0..21 {
            slots[i] = self.slot(i, scale, counted);
        }
    }
}

/// How far the weights w have gone from init_w, each measured by its spread, and the gradient of that in the 21 slots, which are
/// written and not added to. Refused are sets or slots of another length than 21 (1, 5), a weight outside its range (2), and a
/// spread or a size that is out of range (13); the slots are then left as they were.
pub fn l2_penalty_value_and_grad(
    w: &[f32],
    init_w: &[f32],
    batch_size: u64,
    total_size: u64,
    l2_weight: f64,
    params_stddev: &[f32],
    slots: &mut [f32],
) -> Result<f64, Refusal>
    ensures { (answered result ≡ penalty_answer w.now init_w.now batch_size total_size l2_weight params_stddev.now
        (length slots.old)) ×
        PenaltyLeaves w.now init_w.now batch_size total_size l2_weight params_stddev.now
        slots.old slots.new }
{
    check_penalty(
        w,
        init_w,
        batch_size,
        total_size,
        params_stddev,
        slots.len(),
    )?;
    // Stays: `penalty_refusal_def` asks how many all three sets have before it asks of a box, so that no `Weights` is made in between.
    let pull = Pull {
        weights: copy_weights(w),
        old: copy_weights(init_w),
        spreads: copy_weights(params_stddev),
    };
    let scale = scale_of(l2_weight, batch_size, total_size);
    let raw = pull.sum() * scale;
    let counted = counts(total_size, raw);
    pull.store(scale, counted, slots);
    Ok(if counted { raw } else { 0.0 })
}
