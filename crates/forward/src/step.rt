// The training step: a review moves a memory state, and the record says by which branch.
ghost use Rattle.std.specs.Prelude.{◌≡◌, ◌<◌};
ghost use Rattle.domain.specs.Weights.{◌!◌};
ghost use Rattle.forward.specs.Step.{clamp_state_def, rating_number_def, is_first_def, difficulty_def};
ghost use Rattle.forward.specs.Step.{move_def, padding_def, first_def, review_def, step_def};

use crate::curve::curve_forward;
use crate::parameters::{RuntimeParams, init_difficulty};
use crate::stability::{lapse, same_day, success};
use crate::state::{Branch, Move, State, StepRecord, Stepped};
use domain::difficulty::clamp_difficulty;
use domain::limits::clamp_stability;

/// The state with its stability and its difficulty clamped into their ranges. A NaN stays one.
#[tactic(auto, unfolding(crate::specs::Step::clamp_state_def))]
pub fn clamp_state(q: State) -> State
    ensures { result ≡ clamp_state_def q }
{
    State {
        s: clamp_stability(q.s),
        d: clamp_difficulty(q.d),
    }
}

/// A rating of 1 to 4 as a whole number. Any other counts as 4.
// Stays: `rating_number_def` answers for every f32, a NaN too; no `From` or `as` of the language does.
#[tactic(auto, unfolding(crate::specs::Step::rating_number_def))]
pub fn rating_number(rating: f32) -> u32
    ensures { (result ≡ rating_number_def rating) × (0 < result) × (result < 5) }
{
    if rating == 1.0 {
        1
    } else if rating == 2.0 {
        2
    } else if rating == 3.0 {
        3
    } else {
        4
    }
}

/// Whether a review at this row, from this stability, is the first: only at row 0, and from a stability of 0.
#[tactic(auto, unfolding(crate::specs::Step::is_first_def))]
pub fn is_first(row: usize, s: f32) -> bool
    ensures { result ≡ is_first_def row s }
{
    row == 0 && s == 0.0
}

#[tactic(auto, unfolding(crate::specs::Step::difficulty_def))]
fn next_difficulty(p: &RuntimeParams, d: f32, rating: f32) -> f32
    ensures { result ≡ difficulty_def (p.now.w ! 6) (p.now.w ! 7) p.now.easy_d d rating }
{
    let delta_d = -p.w[6] * (rating - 3.0);
    let next_d = d + (10.0 - d) * delta_d / 9.0;
    p.w[7] * (p.easy_d - next_d) + next_d
}

// The stability's way, by the day and the rating. A day of -0.0 is the same day too; a negative one is not.
#[tactic(auto, unfolding(crate::specs::Step::move_def))]
fn moved(p: &RuntimeParams, last: State, day: f32, rating: f32, r: f32) -> Move
    ensures { result ≡ move_def p.now last day rating r }
{
    if day == 0.0 {
        same_day(p, last, rating)
    } else if rating == 1.0 {
        lapse(p, last, r)
    } else {
        success(p, last, rating, r)
    }
}

#[tactic(auto, unfolding(crate::specs::Step::padding_def))]
fn step_padding(q: State, rating: f32) -> Stepped
    ensures { result ≡ padding_def q rating }
{
    let last = clamp_state(q);
    let step = StepRecord {
        state: q,
        last,
        day: 0.0,
        rating,
        retrievability: 0.0,
        pre_s: last.s,
        pre_d: last.d,
        branch: Branch::Padding,
    };
    Stepped { state: last, step }
}

// s: the weight of the rating
#[tactic(auto, unfolding(crate::specs::Step::first_def))]
fn step_first(p: &RuntimeParams, s: f32, q: State, rating: f32) -> Stepped
    ensures { result ≡ first_def s (p.now.w ! 4) (p.now.w ! 5) q rating }
{
    let k = rating_number(rating);
    let d = init_difficulty(&p.w, k);
    let step = StepRecord {
        state: q,
        last: clamp_state(q),
        day: 0.0,
        rating,
        retrievability: 0.0,
        pre_s: s,
        pre_d: d,
        branch: Branch::First(k),
    };
    Stepped {
        state: clamp_state(State { s, d }),
        step,
    }
}

#[tactic(auto, unfolding(crate::specs::Step::review_def))]
fn step_review(p: &RuntimeParams, q: State, day: f32, rating: f32) -> Stepped
    ensures { result ≡ review_def p.now q day rating }
{
    let last = clamp_state(q);
    let r = curve_forward(p, day, last.s).retrievability;
    let by = moved(p, last, day, rating, r);
    let pre_d = next_difficulty(p, last.d, rating);
    let step = StepRecord {
        state: q,
        last,
        day,
        rating,
        retrievability: r,
        pre_s: by.s,
        pre_d,
        branch: by.branch,
    };
    Stepped {
        state: clamp_state(State { s: by.s, d: pre_d }),
        step,
    }
}

/// One review: `q` is clamped into its ranges first, and then moved by the branch that the day, the rating and the row decide.
///
/// A rating of 0 is padding, and leaves the clamped state. A review at row 0 from a stability of 0 is a first one, and takes its
/// stability from `w[rating - 1]`. Every other moves the stability as one on the same day, a lapse or a success.
#[tactic(auto, unfolding(crate::specs::Step::step_def))]
pub fn step_forward(p: &RuntimeParams, q: State, day: f32, rating: f32, row: usize) -> Stepped
    ensures { result ≡ step_def p.now q day rating row }
{
    if rating == 0.0 {
        step_padding(q, rating)
    } else if is_first(row, q.s) {
        let k = rating_number(rating);
        step_first(p, p.w[(k - 1) as usize], q, rating)
    } else {
        step_review(p, q, day, rating)
    }
}
