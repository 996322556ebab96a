//! One training step, and its reverse.
ghost use Rattle.std.specs.Prelude.{◌≡◌, true, length, IfOk};
ghost use Rattle.domain.specs.Refusals.{number_of};
ghost use Rattle.analytic_v6.specs.Results.{reverse_answered, step_answered};
ghost use Rattle.analytic_v6.specs.Step.{step_refusal_def, training_step_def, training_reverse, reverse_slots_def};

use backward::step::{StateGrad, step_backward};
use checks::reads::is_rating;
use domain::limits::is_day;
use domain::refusal::Refusal;
use domain::weights::Weights;
use forward::parameters::RuntimeParams;
use forward::state::{State, Stepped};
use forward::step::{is_first, step_forward};

/// The gradients by what a step gives: the state after it, and its retrievability where that is scored.
#[derive(Clone, Copy, Debug, PartialEq)]
pub struct OutputGrad {
    pub state: StateGrad,
    pub retrievability: f64,
}

// Stays: no plainer: state, day, rating and row are told one by one, as the Rust's `step_forward` and `fsrs_training_step` take them.
// The weights, the slots, the state, the rating, the day, which goes unread in padding and in a first step.
#[tactic(auto, using(crate::proofs::Entry::step_tests))]
fn check_step(
    w: &[f32],
    slots: bool,
    state: State,
    day: f32,
    rating: f32,
    row: usize,
) -> Result<Weights, Refusal>
    ensures refusal { number_of result ≡ step_refusal_def w.now slots state day rating row }
    ensures weights { IfOk result (λ v. v.values ≡ w.now) }
{
    let w = Weights::try_from(w)?;
    if !slots {
        return Err(Refusal::SlotCount);
    }
    if !(state.s.is_finite() & state.d.is_finite()) {
        return Err(Refusal::Argument);
    }
    if !is_rating(rating) {
        return Err(Refusal::Rating);
    }
    if !((rating == 0.0) | is_first(row, state.s) | is_day(day)) {
        return Err(Refusal::Day);
    }
    Ok(w)
}

/// `step_forward`: a review of `state` on `day` days after the last one, at the `row`-th row of its history. The state after it,
/// and the step's record. Refused, in this order, for its weights, a state that is not finite, its rating, and its day where
/// that is read.
#[tactic(auto, using(crate::proofs::Entry::step_entry))]
pub fn training_step(
    w: &[f32],
    state: State,
    day: f32,
    rating: f32,
    row: usize,
) -> Result<Stepped, Refusal>
    ensures { step_answered result ≡ training_step_def w.now state day rating row }
{
    let w = check_step(w, true, state, day, rating, row)?;
    let p = RuntimeParams::new(&w.values);
    Ok(step_forward(&p, state, day, rating, row))
}

/// `step_backward`, the reverse of that step: from the gradients `g` by what it gave to those by the state before it. The 21
/// slots are added to. Refused as the step is, after the weights for another number of slots, and a refused call leaves
/// them as they are.
#[tactic(auto, using(crate::proofs::Entry::reverse_entry))]
pub fn training_step_backward(
    w: &[f32],
    state: State,
    day: f32,
    rating: f32,
    row: usize,
    g: OutputGrad,
    gw: &mut [f64],
) -> Result<StateGrad, Refusal>
    ensures grad { reverse_answered result ≡ training_reverse w.now state day rating row g.state.s g.state.d g.retrievability (length gw.old) }
    ensures slots { gw.new ≡ reverse_slots_def w.now state day rating row g.state.s g.state.d g.retrievability gw.old }
{
    let w = check_step(w, gw.len() == 21, state, day, rating, row)?;
    let p = RuntimeParams::new(&w.values);
    let step = step_forward(&p, state, day, rating, row).step;
    Ok(step_backward(&p, &step, g.state.s, g.state.d, g.retrievability, gw))
}
