// A memory state from what SM-2 knows of a card, before the difficulty's clamp.
ghost use Rattle.std.specs.Prelude.{◌≡◌};
ghost use Rattle.model_v6.specs.Sm2.{sm2_stability_def, sm2_difficulty_def, sm2_raw};

use crate::formulas::curve::factor;
use crate::state::MemoryState;
use domain::limits::floor_stability;
use kernels::exp::exp;
use kernels::expm1::expm1_f32;
use kernels::pow::pow;

#[tactic(auto, unfolding(crate::specs::Sm2::sm2_stability_def))]
fn sm2_stability(w: &[f32; 21], interval: f32, sm2_retention: f32) -> f32
    ensures { result ≡ sm2_stability_def w.now interval sm2_retention }
{
    let decay = -w[20];
    let raised = floor_stability(interval) * factor(decay);
    raised / (pow(sm2_retention, 1.0 / decay) - 1.0)
}

#[tactic(auto, unfolding(crate::specs::Sm2::sm2_difficulty_def))]
fn sm2_difficulty(w: &[f32; 21], ease_factor: f32, stability: f32, sm2_retention: f32) -> f32
    ensures { result ≡ sm2_difficulty_def w.now ease_factor stability sm2_retention }
{
    11.0 - (ease_factor - 1.0)
        / (exp(w[8]) * pow(stability, -w[9]) * expm1_f32((1.0 - sm2_retention) * w[10]))
}

/// The stability is not clamped, here or later.
#[tactic(auto, unfolding(crate::specs::Sm2::sm2_raw))]
pub fn memory_state_from_sm2(
    w: &[f32; 21],
    ease_factor: f32,
    interval: f32,
    sm2_retention: f32,
) -> MemoryState
    ensures { result ≡ sm2_raw w.now ease_factor interval sm2_retention }
{
    let stability = sm2_stability(w, interval, sm2_retention);
    let difficulty = sm2_difficulty(w, ease_factor, stability, sm2_retention);
    MemoryState {
        stability,
        difficulty,
    }
}
