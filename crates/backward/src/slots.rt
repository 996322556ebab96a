// A slot is added to, never cleared.
ghost use Rattle.std.specs.Prelude.{◌≡◌};
ghost use Rattle.domain.specs.Limits.{s_min_def, s_max_def, d_min, d_max};
ghost use Rattle.backward.specs.Slots.{bump, clamp_grad};

use domain::difficulty::is_difficulty;
use domain::limits::is_stability;

// gw[i] += value, where there is such a slot.
#[tactic(auto, using(std::proofs::lemmas::List::set_past), unfolding(crate::specs::Slots::bump))]
pub(crate) fn add(gw: &mut [f64], i: usize, value: f64)
    ensures { gw.new ≡ bump gw.old i value }
{
    if i < gw.len() {
        gw[i] += value;
    }
}

/// What the clamp of a stability lets through: 1 within its range, the ends included, and 0 outside or at a NaN.
#[tactic(auto, unfolding(crate::specs::Slots::clamp_grad))]
pub fn stability_grad(s: f32) -> f64
    ensures { result ≡ clamp_grad s s_min_def s_max_def }
{
    if is_stability(s) { 1.0 } else { 0.0 }
}

// The same of a difficulty.
#[tactic(auto, unfolding(crate::specs::Slots::clamp_grad))]
pub(crate) fn difficulty_grad(d: f32) -> f64
    ensures { result ≡ clamp_grad d d_min d_max }
{
    if is_difficulty(d) { 1.0 } else { 0.0 }
}
