//! One training step and its reverse.
#![tactic(auto, using(crate::proofs::Given::given), unfolding(crate::specs::Places::written, crate::specs::Numbers::recorded))]

ghost use Rattle.fsrs6.specs.Step.{GivesReverse, GivesStep};

use analytic_v6::step::{OutputGrad, training_step, training_step_backward};
use backward::step::StateGrad;
use columns::layout::Layout;
use columns::records::Columns;
use forward::state::State;

// Stays: the C interface fixes the names and the parameters of these functions, of which many take eight and more.

// The record's ten numbers are one row of a table of records.
pub fn fsrs_training_step(
    w: &[f32],
    stability: f32,
    difficulty: f32,
    day: f32,
    rating: f32,
    row: usize,
    next_stability: &mut f32,
    next_difficulty: &mut f32,
    numbers: &mut [f32; 10],
) -> u32
    ensures { GivesStep w.now stability difficulty day rating row result
        next_stability.old next_stability.new next_difficulty.old next_difficulty.new numbers.old numbers.new }
{
    let given = State {
        s: stability,
        d: difficulty,
    };
    match training_step(w, given, day, rating, row) {
        Ok(next) => {
            *next_stability = next.state.s;
            *next_difficulty = next.state.d;
            Columns::store(numbers, 0, &next.step);
            0
        }
        Err(refusal) => refusal.number(),
    }
}

pub fn fsrs_training_step_backward(
    w: &[f32],
    stability: f32,
    difficulty: f32,
    day: f32,
    rating: f32,
    row: usize,
    g_s: f64,
    g_d: f64,
    g_r: f64,
    gw: &mut [f64],
    grad_s: &mut f64,
    grad_d: &mut f64,
) -> u32
    ensures { GivesReverse w.now stability difficulty day rating row g_s g_d g_r result
        gw.old gw.new grad_s.old grad_s.new grad_d.old grad_d.new }
{
    let given = State {
        s: stability,
        d: difficulty,
    };
    let by_state = StateGrad { s: g_s, d: g_d };
    let g = OutputGrad {
        state: by_state,
        retrievability: g_r,
    };
    match training_step_backward(w, given, day, rating, row, g, gw) {
        Ok(grad) => {
            *grad_s = grad.s;
            *grad_d = grad.d;
            0
        }
        Err(refusal) => refusal.number(),
    }
}
