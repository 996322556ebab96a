//! The study screen's formulas, and a weight set made whole.
ghost use Rattle.fsrs6.specs.Study.{GivesSeen, GivesSingle, GivesState, GivesVerdict, GivesWeights, claimed_of, seen_of, state_of};
ghost use Rattle.model_v6.specs.Answers.{curve_scalar, interval_scalar, stability_after_success_scalar_def, stability_after_failure_scalar_def, stability_short_term_scalar_def, init_difficulty_scalar_def, mean_reversion_scalar_def, next_difficulty_scalar_def, next_state_scalar_def, first_state_scalar_def, sm2_scalar};
ghost use Rattle.model_v6.specs.Filling.{fill_answer};
ghost use Rattle.model_v6.specs.Rows.{row_check};
ghost use Rattle.model_v6.specs.Seen.{on_day_scalar};

use model_v6::rows::Claimed;
use model_v6::state::MemoryState;

#[unsafe(no_mangle)]
pub extern "C" fn fsrs_check_and_fill_parameters(parameters: &[f32], weights: &mut [f32; 21]) -> u32
    ensures { GivesWeights (fill_answer parameters.now) result weights.old weights.new }
{
    fsrs6::study::fsrs_check_and_fill_parameters(parameters, weights)
}

#[unsafe(no_mangle)]
pub extern "C" fn fsrs_power_forgetting_curve(
    w: &[f32],
    t: f32,
    s: f32,
    retrievability: &mut f32,
) -> u32
    ensures { GivesSingle (curve_scalar w.now t s) result retrievability.old retrievability.new }
{
    fsrs6::study::fsrs_power_forgetting_curve(w, t, s, retrievability)
}

#[unsafe(no_mangle)]
pub extern "C" fn fsrs_next_interval(
    w: &[f32],
    stability: f32,
    desired_retention: f32,
    days: &mut f32,
) -> u32
    ensures { GivesSingle (interval_scalar w.now stability desired_retention) result days.old days.new }
{
    fsrs6::study::fsrs_next_interval(w, stability, desired_retention, days)
}

#[unsafe(no_mangle)]
pub extern "C" fn fsrs_stability_after_success(
    w: &[f32],
    s: f32,
    r: f32,
    d: f32,
    rating: u32,
    stability: &mut f32,
) -> u32
    ensures { GivesSingle (stability_after_success_scalar_def w.now s r d rating) result stability.old stability.new }
{
    fsrs6::study::fsrs_stability_after_success(w, s, r, d, rating, stability)
}

#[unsafe(no_mangle)]
pub extern "C" fn fsrs_stability_after_failure(
    w: &[f32],
    s: f32,
    r: f32,
    d: f32,
    stability: &mut f32,
) -> u32
    ensures { GivesSingle (stability_after_failure_scalar_def w.now s r d) result stability.old stability.new }
{
    fsrs6::study::fsrs_stability_after_failure(w, s, r, d, stability)
}

#[unsafe(no_mangle)]
pub extern "C" fn fsrs_stability_short_term(
    w: &[f32],
    s: f32,
    rating: u32,
    stability: &mut f32,
) -> u32
    ensures { GivesSingle (stability_short_term_scalar_def w.now s rating) result stability.old stability.new }
{
    fsrs6::study::fsrs_stability_short_term(w, s, rating, stability)
}

#[unsafe(no_mangle)]
pub extern "C" fn fsrs_init_difficulty(w: &[f32], rating: u32, difficulty: &mut f32) -> u32
    ensures { GivesSingle (init_difficulty_scalar_def w.now rating) result difficulty.old difficulty.new }
{
    fsrs6::study::fsrs_init_difficulty(w, rating, difficulty)
}

#[unsafe(no_mangle)]
pub extern "C" fn fsrs_mean_reversion(
    w: &[f32],
    init: f32,
    current: f32,
    difficulty: &mut f32,
) -> u32
    ensures { GivesSingle (mean_reversion_scalar_def w.now init current) result difficulty.old difficulty.new }
{
    fsrs6::study::fsrs_mean_reversion(w, init, current, difficulty)
}

#[unsafe(no_mangle)]
pub extern "C" fn fsrs_next_difficulty(w: &[f32], d: f32, rating: u32, difficulty: &mut f32) -> u32
    ensures { GivesSingle (next_difficulty_scalar_def w.now d rating) result difficulty.old difficulty.new }
{
    fsrs6::study::fsrs_next_difficulty(w, d, rating, difficulty)
}

#[unsafe(no_mangle)]
pub extern "C" fn fsrs_next_state(
    w: &[f32],
    stability: f32,
    difficulty: f32,
    delta_t: f32,
    rating: u32,
    next_stability: &mut f32,
    next_difficulty: &mut f32,
) -> u32
    ensures { GivesState (next_state_scalar_def w.now (state_of stability difficulty) delta_t rating) result
        next_stability.old next_stability.new next_difficulty.old next_difficulty.new }
{
    fsrs6::study::fsrs_next_state(
        w,
        stability,
        difficulty,
        delta_t,
        rating,
        next_stability,
        next_difficulty,
    )
}

#[unsafe(no_mangle)]
pub extern "C" fn fsrs_next_state_on(
    w: &[f32],
    stability: f32,
    difficulty: f32,
    seen: u32,
    day: u32,
    rating: u32,
    next_stability: &mut f32,
    next_difficulty: &mut f32,
    next_seen: &mut u32,
) -> u32
    ensures { GivesSeen (on_day_scalar w.now (seen_of stability difficulty seen) day rating) result
        next_stability.old next_stability.new next_difficulty.old next_difficulty.new next_seen.old next_seen.new }
{
    fsrs6::study::fsrs_next_state_on(
        w,
        stability,
        difficulty,
        seen,
        day,
        rating,
        next_stability,
        next_difficulty,
        next_seen,
    )
}

#[unsafe(no_mangle)]
pub extern "C" fn fsrs_check_row(
    w: &[f32],
    stability: f32,
    difficulty: f32,
    day: f32,
    rating: u32,
    retention: f32,
    stability_after: u32,
    difficulty_after: u32,
    interval: u32,
    verdict: &mut u32,
) -> u32
    ensures { GivesVerdict (row_check w.now (state_of stability difficulty) day rating retention
        (claimed_of stability_after difficulty_after interval)) result verdict.old verdict.new }
{
    fsrs6::study::fsrs_check_row(
        w,
        stability,
        difficulty,
        day,
        rating,
        retention,
        stability_after,
        difficulty_after,
        interval,
        verdict,
    )
}

#[unsafe(no_mangle)]
pub extern "C" fn fsrs_first_state(
    w: &[f32],
    rating: u32,
    stability: &mut f32,
    difficulty: &mut f32,
) -> u32
    ensures { GivesState (first_state_scalar_def w.now rating) result stability.old stability.new difficulty.old difficulty.new }
{
    fsrs6::study::fsrs_first_state(w, rating, stability, difficulty)
}

#[unsafe(no_mangle)]
pub extern "C" fn fsrs_memory_state_from_sm2(
    w: &[f32],
    ease_factor: f32,
    interval: f32,
    sm2_retention: f32,
    stability: &mut f32,
    difficulty: &mut f32,
) -> u32
    ensures { GivesState (sm2_scalar w.now ease_factor interval sm2_retention) result stability.old stability.new difficulty.old difficulty.new }
{
    fsrs6::study::fsrs_memory_state_from_sm2(
        w,
        ease_factor,
        interval,
        sm2_retention,
        stability,
        difficulty,
    )
}
