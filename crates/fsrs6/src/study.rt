//! The study screen's formulas, and a weight set made whole.
#![tactic(auto, using(crate::proofs::Given::given), unfolding(crate::specs::Places::written))]

ghost use Rattle.fsrs6.specs.Study.{GivesSeen, GivesSingle, GivesState, GivesVerdict, GivesWeights, claimed_of, seen_of, state_of};
ghost use Rattle.model_v6.specs.Answers.{
  curve_scalar,
  interval_scalar,
  stability_after_success_scalar_def,
  stability_after_failure_scalar_def,
  stability_short_term_scalar_def,
  init_difficulty_scalar_def,
  mean_reversion_scalar_def,
  next_difficulty_scalar_def,
  next_state_scalar_def,
  first_state_scalar_def,
  sm2_scalar,
};
ghost use Rattle.model_v6.specs.Filling.{fill_answer};
ghost use Rattle.model_v6.specs.Rows.{row_check};
ghost use Rattle.model_v6.specs.Seen.{on_day_scalar};

use crate::places::answer;
use model_v6::curve::{next_interval_scalar, power_forgetting_curve_scalar};
use model_v6::difficulty::{init_difficulty_scalar, mean_reversion_scalar, next_difficulty_scalar};
use model_v6::filling::check_and_fill_parameters_fsrs6;
use model_v6::rows::{Claimed, check_row};
use model_v6::seen::{Seen, next_state_on_scalar};
use model_v6::sm2::memory_state_from_sm2_scalar;
use model_v6::stability::{
    stability_after_failure_scalar, stability_after_success_scalar, stability_short_term_scalar,
};
use model_v6::state::{MemoryState, first_state_scalar, next_state_scalar};

// Stays: the C interface fixes the names and the parameters of these functions, of which many take eight and more.

pub fn fsrs_check_and_fill_parameters(parameters: &[f32], weights: &mut [f32; 21]) -> u32
    ensures { GivesWeights (fill_answer parameters.now) result weights.old weights.new }
{
    answer(check_and_fill_parameters_fsrs6(parameters), weights)
}

pub fn fsrs_power_forgetting_curve(w: &[f32], t: f32, s: f32, retrievability: &mut f32) -> u32
    ensures { GivesSingle (curve_scalar w.now t s) result retrievability.old retrievability.new }
{
    answer(power_forgetting_curve_scalar(w, t, s), retrievability)
}

pub fn fsrs_next_interval(w: &[f32], stability: f32, desired_retention: f32, days: &mut f32) -> u32
    ensures { GivesSingle (interval_scalar w.now stability desired_retention) result days.old days.new }
{
    answer(next_interval_scalar(w, stability, desired_retention), days)
}

pub fn fsrs_stability_after_success(
    w: &[f32],
    s: f32,
    r: f32,
    d: f32,
    rating: u32,
    stability: &mut f32,
) -> u32
    ensures { GivesSingle (stability_after_success_scalar_def w.now s r d rating) result stability.old stability.new }
{
    answer(
        stability_after_success_scalar(w, s, r, d, rating),
        stability,
    )
}

pub fn fsrs_stability_after_failure(w: &[f32], s: f32, r: f32, d: f32, stability: &mut f32) -> u32
    ensures { GivesSingle (stability_after_failure_scalar_def w.now s r d) result stability.old stability.new }
{
    answer(stability_after_failure_scalar(w, s, r, d), stability)
}

pub fn fsrs_stability_short_term(w: &[f32], s: f32, rating: u32, stability: &mut f32) -> u32
    ensures { GivesSingle (stability_short_term_scalar_def w.now s rating) result stability.old stability.new }
{
    answer(stability_short_term_scalar(w, s, rating), stability)
}

pub fn fsrs_init_difficulty(w: &[f32], rating: u32, difficulty: &mut f32) -> u32
    ensures { GivesSingle (init_difficulty_scalar_def w.now rating) result difficulty.old difficulty.new }
{
    answer(init_difficulty_scalar(w, rating), difficulty)
}

pub fn fsrs_mean_reversion(w: &[f32], init: f32, current: f32, difficulty: &mut f32) -> u32
    ensures { GivesSingle (mean_reversion_scalar_def w.now init current) result difficulty.old difficulty.new }
{
    answer(mean_reversion_scalar(w, init, current), difficulty)
}

pub fn fsrs_next_difficulty(w: &[f32], d: f32, rating: u32, difficulty: &mut f32) -> u32
    ensures { GivesSingle (next_difficulty_scalar_def w.now d rating) result difficulty.old difficulty.new }
{
    answer(next_difficulty_scalar(w, d, rating), difficulty)
}

pub fn fsrs_next_state(
    w: &[f32],
    stability: f32,
    difficulty: f32,
    delta_t: f32,
    rating: u32,
    next_stability: &mut f32,
    next_difficulty: &mut f32,
) -> u32
    ensures { GivesState (next_state_scalar_def w.now (state_of stability difficulty) delta_t rating) result
        next_stability.old next_stability.new next_difficulty.old next_difficulty.new }
{
    let state = MemoryState {
        stability,
        difficulty,
    };
    match next_state_scalar(w, state, delta_t, rating) {
        Ok(next) => {
            *next_stability = next.stability;
            *next_difficulty = next.difficulty;
            0
        }
        Err(refused) => refused.refusal.number(),
    }
}

// The places may be the variables that the three numbers came from: a refused call leaves the given state in them.
pub fn fsrs_next_state_on(
    w: &[f32],
    stability: f32,
    difficulty: f32,
    seen: u32,
    day: u32,
    rating: u32,
    next_stability: &mut f32,
    next_difficulty: &mut f32,
    next_seen: &mut u32,
) -> u32
    ensures { GivesSeen (on_day_scalar w.now (seen_of stability difficulty seen) day rating) result
        next_stability.old next_stability.new next_difficulty.old next_difficulty.new next_seen.old next_seen.new }
{
    let state = MemoryState {
        stability,
        difficulty,
    };
    let given = Seen { state, day: seen };
    match next_state_on_scalar(w, given, day, rating) {
        Ok(after) => {
            *next_stability = after.state.stability;
            *next_difficulty = after.state.difficulty;
            *next_seen = after.day;
            0
        }
        Err(refused) => refused.refusal.number(),
    }
}

// The three claimed numbers are the bits of singles, so that none is changed on its way in.
pub fn fsrs_check_row(
    w: &[f32],
    stability: f32,
    difficulty: f32,
    day: f32,
    rating: u32,
    retention: f32,
    stability_after: u32,
    difficulty_after: u32,
    interval: u32,
    verdict: &mut u32,
) -> u32
    ensures { GivesVerdict (row_check w.now (state_of stability difficulty) day rating retention
        (claimed_of stability_after difficulty_after interval)) result verdict.old verdict.new }
{
    let state = MemoryState {
        stability,
        difficulty,
    };
    let claimed = Claimed {
        stability: stability_after,
        difficulty: difficulty_after,
        interval,
    };
    match check_row(w, state, day, rating, retention, claimed) {
        Ok(found) => {
            *verdict = found.number();
            0
        }
        Err(refusal) => refusal.number(),
    }
}

pub fn fsrs_first_state(w: &[f32], rating: u32, stability: &mut f32, difficulty: &mut f32) -> u32
    ensures { GivesState (first_state_scalar_def w.now rating) result stability.old stability.new difficulty.old difficulty.new }
{
    match first_state_scalar(w, rating) {
        Ok(first) => {
            *stability = first.stability;
            *difficulty = first.difficulty;
            0
        }
        Err(refusal) => refusal.number(),
    }
}

pub fn fsrs_memory_state_from_sm2(
    w: &[f32],
    ease_factor: f32,
    interval: f32,
    sm2_retention: f32,
    stability: &mut f32,
    difficulty: &mut f32,
) -> u32
    ensures { GivesState (sm2_scalar w.now ease_factor interval sm2_retention) result stability.old stability.new difficulty.old difficulty.new }
{
    match memory_state_from_sm2_scalar(w, ease_factor, interval, sm2_retention) {
        Ok(imported) => {
            *stability = imported.stability;
            *difficulty = imported.difficulty;
            0
        }
        Err(refusal) => refusal.number(),
    }
}
