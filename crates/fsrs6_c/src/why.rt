//! Why a card moved, and why a loss call is refused and for which cell. Each answer is returned, and nothing is lent to be written.
ghost use Rattle.std.specs.Prelude.{◌≡◌};
ghost use Rattle.checks.specs.Align.{align_of};
ghost use Rattle.checks.specs.Batch.{prefixes_in_def, cards_in_def};
ghost use Rattle.fsrs6.specs.Why.{batch_fault, batch_grad_fault, card_fault, card_grad_fault, explained_step};

use fsrs6::why::{FaultNumbers, ReasonNumbers};

#[unsafe(no_mangle)]
pub extern "C" fn fsrs_explain_step(
    w: &[f32],
    stability: f32,
    difficulty: f32,
    day: f32,
    rating: f32,
    row: usize,
) -> ReasonNumbers
    ensures { result ≡ explained_step w.now stability difficulty day rating row }
{
    fsrs6::why::fsrs_explain_step(w, stability, difficulty, day, rating, row)
}

#[unsafe(no_mangle)]
pub extern "C" fn fsrs_batch_loss_fault(
    end: bool,
    w: &[f32],
    t_hist: &[f32],
    r_hist: &[f32],
    seq_len: u32,
    batch: u32,
    seq_lens: &[u32],
    delta_ts: &[f32],
    labels: &[f32],
    weights: &[f32],
) -> FaultNumbers
    ensures { result ≡ batch_fault w.now (prefixes_in_def (align_of end) t_hist.now r_hist.now seq_len batch
        seq_lens.now delta_ts.now labels.now weights.now) }
{
    fsrs6::why::fsrs_batch_loss_fault(
        end, w, t_hist, r_hist, seq_len, batch, seq_lens, delta_ts, labels, weights,
    )
}

#[unsafe(no_mangle)]
pub extern "C" fn fsrs_batch_loss_and_grad_fault(
    end: bool,
    w: &[f32],
    t_hist: &[f32],
    r_hist: &[f32],
    seq_len: u32,
    batch: u32,
    seq_lens: &[u32],
    delta_ts: &[f32],
    labels: &[f32],
    weights: &[f32],
    gw_len: usize,
    records_len: usize,
) -> FaultNumbers
    ensures { result ≡ batch_grad_fault w.now (prefixes_in_def (align_of end) t_hist.now r_hist.now seq_len batch
        seq_lens.now delta_ts.now labels.now weights.now) gw_len records_len }
{
    fsrs6::why::fsrs_batch_loss_and_grad_fault(
        end,
        w,
        t_hist,
        r_hist,
        seq_len,
        batch,
        seq_lens,
        delta_ts,
        labels,
        weights,
        gw_len,
        records_len,
    )
}

#[unsafe(no_mangle)]
pub extern "C" fn fsrs_card_loss_fault(
    end: bool,
    w: &[f32],
    t_hist: &[f32],
    r_hist: &[f32],
    seq_len: u32,
    batch: u32,
    seq_lens: &[u32],
    labels: &[f32],
    weights: &[f32],
) -> FaultNumbers
    ensures { result ≡ card_fault w.now (cards_in_def (align_of end) t_hist.now r_hist.now seq_len batch
        seq_lens.now labels.now weights.now) }
{
    fsrs6::why::fsrs_card_loss_fault(
        end, w, t_hist, r_hist, seq_len, batch, seq_lens, labels, weights,
    )
}

#[unsafe(no_mangle)]
pub extern "C" fn fsrs_card_loss_and_grad_fault(
    end: bool,
    w: &[f32],
    t_hist: &[f32],
    r_hist: &[f32],
    seq_len: u32,
    batch: u32,
    seq_lens: &[u32],
    labels: &[f32],
    weights: &[f32],
    gw_len: usize,
    records_len: usize,
    step_grads_len: usize,
) -> FaultNumbers
    ensures { result ≡ card_grad_fault w.now (cards_in_def (align_of end) t_hist.now r_hist.now seq_len batch
        seq_lens.now labels.now weights.now) gw_len records_len step_grads_len }
{
    fsrs6::why::fsrs_card_loss_and_grad_fault(
        end,
        w,
        t_hist,
        r_hist,
        seq_len,
        batch,
        seq_lens,
        labels,
        weights,
        gw_len,
        records_len,
        step_grads_len,
    )
}
