//! The loss of a batch of prefixes: alone, and with its gradient. `end` says that histories stand at the end of
//! their tables, behind padding.
#![tactic(auto, using(crate::proofs::Given::given, analytic_v6::proofs::Left::in_columns), unfolding(crate::specs::Places::written))]

ghost use Rattle.checks.specs.Align.{align_of};
ghost use Rattle.checks.specs.Batch.{prefixes_of, prefixes_in_def};
ghost use Rattle.fsrs6.specs.Losses.{GivesBatchGrad, GivesBatchLoss};

use crate::places::answer;
use analytic_v6::prefixes::grad::batch_loss_and_grad;
use analytic_v6::prefixes::loss::batch_loss;
use checks::align::Align;
use checks::deck::{Prefixes, Table};
use columns::records::Columns;

// Stays: the C interface fixes the names and the parameters of these functions, of which many take eight and more.

#[tactic(auto, unfolding(checks::specs::Align::align_of))]
pub fn fsrs_batch_loss(
    w: &[f32],
    t_hist: &[f32],
    r_hist: &[f32],
    seq_len: u32,
    batch: u32,
    seq_lens: &[u32],
    delta_ts: &[f32],
    labels: &[f32],
    weights: &[f32],
    loss: &mut f64,
) -> u32
    ensures { GivesBatchLoss w.now (prefixes_of t_hist.now r_hist.now seq_len batch
        seq_lens.now delta_ts.now labels.now weights.now) result loss.old loss.new }
{
    fsrs_batch_loss_in(
        false, w, t_hist, r_hist, seq_len, batch, seq_lens, delta_ts, labels, weights, loss,
    )
}

#[tactic(auto, unfolding(checks::specs::Align::align_of))]
pub fn fsrs_batch_loss_and_grad(
    w: &[f32],
    t_hist: &[f32],
    r_hist: &[f32],
    seq_len: u32,
    batch: u32,
    seq_lens: &[u32],
    delta_ts: &[f32],
    labels: &[f32],
    weights: &[f32],
    gw: &mut [f64],
    records: &mut [f32],
    loss: &mut f64,
) -> u32
    ensures { GivesBatchGrad w.now (prefixes_of t_hist.now r_hist.now seq_len batch seq_lens.now
        delta_ts.now labels.now weights.now) result
        gw.old gw.new records.old records.new loss.old loss.new }
{
    fsrs_batch_loss_and_grad_in(
        false, w, t_hist, r_hist, seq_len, batch, seq_lens, delta_ts, labels, weights, gw, records,
        loss,
    )
}

pub fn fsrs_batch_loss_in(
    end: bool,
    w: &[f32],
    t_hist: &[f32],
    r_hist: &[f32],
    seq_len: u32,
    batch: u32,
    seq_lens: &[u32],
    delta_ts: &[f32],
    labels: &[f32],
    weights: &[f32],
    loss: &mut f64,
) -> u32
    ensures { GivesBatchLoss w.now (prefixes_in_def (align_of end) t_hist.now r_hist.now seq_len batch
        seq_lens.now delta_ts.now labels.now weights.now) result loss.old loss.new }
{
    let table = Table {
        days: t_hist,
        ratings: r_hist,
        rows: seq_len,
        columns: batch,
        lengths: seq_lens,
        align: Align::from(end),
    };
    let deck = Prefixes {
        table,
        days: delta_ts,
        labels,
        weights,
    };
    answer(batch_loss(w, &deck), loss)
}

pub fn fsrs_batch_loss_and_grad_in(
    end: bool,
    w: &[f32],
    t_hist: &[f32],
    r_hist: &[f32],
    seq_len: u32,
    batch: u32,
    seq_lens: &[u32],
    delta_ts: &[f32],
    labels: &[f32],
    weights: &[f32],
    gw: &mut [f64],
    records: &mut [f32],
    loss: &mut f64,
) -> u32
    ensures { GivesBatchGrad w.now (prefixes_in_def (align_of end) t_hist.now r_hist.now seq_len batch seq_lens.now
        delta_ts.now labels.now weights.now) result
        gw.old gw.new records.old records.new loss.old loss.new }
{
    let table = Table {
        days: t_hist,
        ratings: r_hist,
        rows: seq_len,
        columns: batch,
        lengths: seq_lens,
        align: Align::from(end),
    };
    let deck = Prefixes {
        table,
        days: delta_ts,
        labels,
        weights,
    };
    let graded = batch_loss_and_grad::<Columns>(w, &deck, gw, records);
    answer(graded, loss)
}
