//! Forward down one column of a batch, from the state (0, 0): the states alone, and for a gradient with each step's record in
//! its row. A card's rows are scored on the way, each by the state before its review. Rows are numbered from that of the first
//! review; padding in front of it leaves the state (0, 0).
ghost use Rattle.std.specs.Prelude.{◌≡◌, ◌-◌};
ghost use Rattle.checks.specs.Decks.{history_at, rows_of, weights_at};
ghost use Rattle.columns.specs.ForwardPass.{carried_def, row_score_def, step_at, state_at, run_at, grads_def};
ghost use Rattle.columns.specs.Layouts.{left_by};

use crate::layout::Layout;
use crate::scores::{Score, bce_loss_and_grad_r};
use crate::untraced::Untraced;
use checks::deck::{Card, History};
use checks::tables::put_cell;
use forward::parameters::RuntimeParams;
use forward::state::{State, Stepped};
use forward::step::step_forward;

/// The state after the rows so far, and their loss.
#[derive(Clone, Copy, Debug, PartialEq)]
pub struct Run {
    pub state: State,
    pub loss: f64,
}

// The state after a row: (0, 0) up to the first review.
#[tactic(auto, unfolding(crate::specs::ForwardPass::carried_def, forward::specs::Step::no_state_def))]
fn carried(row: u32, first: u32, next: State) -> State
    ensures { result ≡ carried_def row first next }
{
    if row < first {
        return State { s: 0.0, d: 0.0 };
    }
    next
}

#[tactic(auto, unfolding(crate::specs::ForwardPass::step_at))]
fn step_at(p: &RuntimeParams, history: &History<'_>, state: State, row: u32) -> Stepped
    ensures { result ≡ step_at p.now (history_at history.now) state row }
{
    let number = row.saturating_sub(history.first);
    step_forward(
        p,
        state,
        history.days.at(row),
        history.ratings.at(row),
        number as usize,
    )
}

// The first review has no state before it to score, and what does not count weighs 0, so that it has no score.
#[tactic(auto, unfolding(crate::specs::ForwardPass::row_score_def, crate::specs::Scores::no_score_def))]
fn score_at(card: &Card<'_>, row: u32, r: f32) -> Score
    ensures { result ≡ row_score_def (row - card.now.history.first) r (rows_of card.now.labels row) (weights_at card.now row) }
{
    if row.saturating_sub(card.history.first) == 0 {
        return Score {
            loss: 0.0,
            g_r: 0.0,
        };
    }
    bce_loss_and_grad_r(r, card.labels.at(row), card.weight(row))
}

/// The state after the first n rows, for a loss without its gradient.
pub fn prefix_forward(p: &RuntimeParams, history: &History<'_>, n: u32) -> State
    ensures { result ≡ state_at p.now (history_at history.now) n }
{
    prefix_forward_recorded::<Untraced>(p, history, n, &mut [])
}

// Stays: a prefix and a card have a pass each, as in the Rust: one for both would ask in every row whether it is scored.
/// The state after the first n rows, and in `records` each step's record: the forward loop of the Rust's
/// `prefix_loss_and_grad`. Past the room of `records` nothing is promised of reading it back.
#[tactic(auto, using(crate::proofs::Left::state_next, crate::proofs::Left::record_here, crate::proofs::Left::left_next), unfolding(crate::specs::ForwardPass::state_at, forward::specs::Step::no_state_def, crate::specs::Layouts::left_by))]
pub fn prefix_forward_recorded<L: Layout>(
    p: &RuntimeParams,
    history: &History<'_>,
    n: u32,
    records: &mut [L::Cell],
) -> State
    ensures state { result ≡ state_at p.now (history_at history.now) n }
    ensures records { records.new ≡ left_by L.store p.now (history_at history.now) n records.old }
{
    let mut state = State { s: 0.0, d: 0.0 };
    for row in 0..n {
        let next = step_at(p, history, state, row);
        L::store(records, row, &next.step);
        state = carried(row, history.first, next.state);
    }
    state
}

/// The run of a card's first n rows, for a loss without its gradient.
pub fn card_forward(p: &RuntimeParams, card: &Card<'_>, n: u32) -> Run
    ensures { result ≡ run_at p.now (history_at card.now.history) (rows_of card.now.labels) (weights_at card.now) n }
{
    card_forward_recorded::<Untraced>(p, card, n, &mut [], &mut [])
}

/// The run of a card's first n rows, in `records` each step's record and in `step_grads` its loss's gradient by the
/// retrievability: the forward loop of the Rust's `card_column_loss_and_grad`. Past the end of `step_grads` nothing is written.
#[tactic(auto, unfolding(crate::specs::ForwardPass::state_at, crate::specs::ForwardPass::loss_at, crate::specs::ForwardPass::run_at, crate::specs::ForwardPass::grads_def, forward::specs::Step::no_state_def, crate::specs::Layouts::left_by))]
pub fn card_forward_recorded<L: Layout>(
    p: &RuntimeParams,
    card: &Card<'_>,
    n: u32,
    records: &mut [L::Cell],
    step_grads: &mut [f64],
) -> Run
    ensures run { result ≡ run_at p.now (history_at card.now.history) (rows_of card.now.labels) (weights_at card.now) n }
    ensures records { records.new ≡ left_by L.store p.now (history_at card.now.history) n records.old }
    ensures step_grads { step_grads.new ≡ grads_def p.now (history_at card.now.history) (rows_of card.now.labels) (weights_at card.now) n step_grads.old }
{
    let mut run = Run {
        state: State { s: 0.0, d: 0.0 },
        loss: 0.0,
    };
    for row in 0..n {
        let next = step_at(p, &card.history, run.state, row);
        let score = score_at(card, row, next.step.retrievability);
        L::store(records, row, &next.step);
        put_cell(step_grads, row as usize, score.g_r);
        run.loss += score.loss;
        run.state = carried(row, card.history.first, next.state);
    }
    run
}
