// What a review makes of a card's memory state, and a first review of none.
ghost use Rattle.std.specs.Prelude.{◌≡◌, ◌<◌};
ghost use Rattle.model_v6.specs.NextState.{stability_after_def, next_state_def, first_state_def};

use crate::formulas::curve::{power_forgetting_curve, whole_days};
use crate::formulas::difficulty::{init_difficulty, next_difficulty};
use crate::formulas::stability::{
    stability_after_failure, stability_after_success, stability_short_term,
};
use crate::state::MemoryState;
use domain::difficulty::clamp_difficulty;
use domain::limits::clamp_stability;

/// The stability after a review of the clamped state (s, d), at the retrievability r.
#[tactic(auto, unfolding(crate::specs::NextState::stability_after_def))]
fn stability_after(w: &[f32; 21], s: f32, d: f32, delta_t: f32, rating: u32, r: f32) -> f32
    ensures { result ≡ stability_after_def w.now s d delta_t rating r }
{
    if delta_t == 0.0 {
        return stability_short_term(w, s, rating);
    }
    if rating == 1 {
        return stability_after_failure(w, s, r, d);
    }
    stability_after_success(w, s, r, d, rating)
}

#[tactic(auto, using(crate::proofs::Next::clamped), unfolding(crate::specs::NextState::next_state_def))]
pub fn next_state(w: &[f32; 21], state: MemoryState, delta_t: f32, rating: u32) -> MemoryState
    ensures { result ≡ next_state_def w.now state delta_t rating }
{
    let rating = rating.clamp(1, 4);
    let delta_t = whole_days(delta_t);
    let s = clamp_stability(state.stability);
    let d = clamp_difficulty(state.difficulty);
    let r = power_forgetting_curve(w, delta_t, s);
    let stability = stability_after(w, s, d, delta_t, rating, r);
    let difficulty = next_difficulty(w, d, rating);
    MemoryState {
        stability,
        difficulty,
    }
}

/// Weight 0, 1, 2 or 3 by a rating of 1 to 4, and the first difficulty, clamped.
pub fn first_state(w: &[f32; 21], rating: u32) -> MemoryState
    requires { (0 < rating) × (rating < 5) }
    ensures { result ≡ first_state_def w.now rating }
{
    let i = (rating - 1) as usize;
    let stability = w[i];
    let difficulty = clamp_difficulty(init_difficulty(w, rating));
    MemoryState {
        stability,
        difficulty,
    }
}
