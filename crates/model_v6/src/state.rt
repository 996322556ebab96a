// The state after a review and after a first one, with their checks.
ghost use Rattle.std.specs.Prelude.{◌≡◌};
ghost use Rattle.model_v6.specs.Answers.{finite_memory, next_state_scalar_def, first_state_scalar_def};
ghost use Rattle.model_v6.specs.Results.{state_answered, step_answered};

use crate::answers::{check_argument, is_rating};
use crate::formulas::state::{first_state, next_state};
use domain::floats::is_finite;
use domain::limits::is_day;
use domain::refusal::{Refusal, Refused};
use domain::weights::Weights;

/// A card's stability and difficulty.
#[derive(Clone, Copy, Debug, PartialEq)]
pub struct MemoryState {
    pub stability: f32,
    pub difficulty: f32,
}

/// Whether both are finite.
pub(crate) fn is_finite_state(state: MemoryState) -> bool
    ensures { result ≡ finite_memory state }
{
    is_finite(state.stability) & is_finite(state.difficulty)
}

/// The state after a review `delta_t` days after the last one. Any rating is taken, and clamped to 1-4. A refused step hands back
/// the state that it was given: for its weights (1, 2), a state that is not finite or a `delta_t` that is no day (13).
#[tactic(auto, using(crate::proofs::Next::step), unfolding(crate::specs::Answers::next_state_scalar_def))]
pub fn next_state_scalar(
    w: &[f32],
    state: MemoryState,
    delta_t: f32,
    rating: u32,
) -> Result<MemoryState, Refused<MemoryState>>
    ensures { step_answered result ≡ next_state_scalar_def w.now state delta_t rating }
{
    let refused = |refusal| Refused {
        refusal,
        given: state,
    };
    let w = Weights::try_from(w).map_err(refused)?;
    check_argument(is_finite_state(state) & is_day(delta_t)).map_err(refused)?;
    Ok(next_state(&w.values, state, delta_t, rating))
}

/// The state after a card's first review. Refused are the weights (1, 2) and a rating other than 1 to 4 (13).
#[tactic(auto, using(crate::proofs::Next::step), unfolding(crate::specs::Answers::first_state_scalar_def))]
pub fn first_state_scalar(w: &[f32], rating: u32) -> Result<MemoryState, Refusal>
    ensures { state_answered result ≡ first_state_scalar_def w.now rating }
{
    let w = Weights::try_from(w)?;
    check_argument(is_rating(rating))?;
    Ok(first_state(&w.values, rating))
}
