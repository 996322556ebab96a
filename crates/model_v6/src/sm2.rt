// A deck from SM-2: the memory state of a card by its ease factor and interval, with its checks.
ghost use Rattle.std.specs.Prelude.{◌≡◌};
ghost use Rattle.model_v6.specs.Answers.{sm2_held, sm2_scalar};
ghost use Rattle.model_v6.specs.Results.{state_answered};

use crate::answers::check_argument;
use crate::formulas::sm2::memory_state_from_sm2;
use crate::state::{MemoryState, is_finite_state};
use domain::difficulty::clamp_difficulty;
use domain::floats::is_finite;
use domain::refusal::Refusal;
use domain::weights::Weights;

/// The stability as it is, the difficulty in its range.
fn held(m: MemoryState) -> MemoryState
    ensures { result ≡ sm2_held m }
{
    MemoryState {
        difficulty: clamp_difficulty(m.difficulty),
        ..m
    }
}

/// 14 where the formula leaves no finite stability or no finite difficulty: both are asked before the clamp, since an infinite
/// difficulty would clamp to 1 or 10. A retention of 0 or below is among these, for it has no power, and one of 1 or above,
/// since no stability above 0 comes of it. Before it the weights are refused (1, 2) and an argument that is not finite (13).
#[tactic(auto, using(crate::proofs::sm2::Answering::sm2))]
pub fn memory_state_from_sm2_scalar(
    w: &[f32],
    ease_factor: f32,
    interval: f32,
    sm2_retention: f32,
) -> Result<MemoryState, Refusal>
    ensures { state_answered result ≡ sm2_scalar w.now ease_factor interval sm2_retention }
{
    let good = is_finite(ease_factor) & is_finite(interval) & is_finite(sm2_retention);
    let w = Weights::try_from(w)?;
    check_argument(good)?;
    let raw = memory_state_from_sm2(&w.values, ease_factor, interval, sm2_retention);
    if !is_finite_state(raw) {
        return Err(Refusal::Import);
    }
    Ok(held(raw))
}
