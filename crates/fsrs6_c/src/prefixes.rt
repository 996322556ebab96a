//! The loss of a batch of prefixes: alone, and with its gradient. `end` says that histories stand at the end of
//! their tables, behind padding.
ghost use Rattle.checks.specs.Align.{align_of};
ghost use Rattle.checks.specs.Batch.{prefixes_of, prefixes_in_def};
ghost use Rattle.fsrs6.specs.Losses.{GivesBatchGrad, GivesBatchLoss};

#[unsafe(no_mangle)]
pub extern "C" fn fsrs_batch_loss(
    w: &[f32],
    t_hist: &[f32],
    r_hist: &[f32],
    seq_len: u32,
    batch: u32,
    seq_lens: &[u32],
    delta_ts: &[f32],
    labels: &[f32],
    weights: &[f32],
    loss: &mut f64,
) -> u32
    ensures { GivesBatchLoss w.now (prefixes_of t_hist.now r_hist.now seq_len batch
        seq_lens.now delta_ts.now labels.now weights.now) result loss.old loss.new }
{
    fsrs6::prefixes::fsrs_batch_loss(
        w, t_hist, r_hist, seq_len, batch, seq_lens, delta_ts, labels, weights, loss,
    )
}

#[unsafe(no_mangle)]
pub extern "C" fn fsrs_batch_loss_and_grad(
    w: &[f32],
    t_hist: &[f32],
    r_hist: &[f32],
    seq_len: u32,
    batch: u32,
    seq_lens: &[u32],
    delta_ts: &[f32],
    labels: &[f32],
    weights: &[f32],
    gw: &mut [f64],
    records: &mut [f32],
    loss: &mut f64,
) -> u32
    ensures { GivesBatchGrad w.now (prefixes_of t_hist.now r_hist.now seq_len batch seq_lens.now
        delta_ts.now labels.now weights.now) result
        gw.old gw.new records.old records.new loss.old loss.new }
{
    fsrs6::prefixes::fsrs_batch_loss_and_grad(
        w, t_hist, r_hist, seq_len, batch, seq_lens, delta_ts, labels, weights, gw, records, loss,
    )
}

#[unsafe(no_mangle)]
pub extern "C" fn fsrs_batch_loss_in(
    end: bool,
    w: &[f32],
    t_hist: &[f32],
    r_hist: &[f32],
    seq_len: u32,
    batch: u32,
    seq_lens: &[u32],
    delta_ts: &[f32],
    labels: &[f32],
    weights: &[f32],
    loss: &mut f64,
) -> u32
    ensures { GivesBatchLoss w.now (prefixes_in_def (align_of end) t_hist.now r_hist.now seq_len batch
        seq_lens.now delta_ts.now labels.now weights.now) result loss.old loss.new }
{
    fsrs6::prefixes::fsrs_batch_loss_in(
        end, w, t_hist, r_hist, seq_len, batch, seq_lens, delta_ts, labels, weights, loss,
    )
}

#[unsafe(no_mangle)]
pub extern "C" fn fsrs_batch_loss_and_grad_in(
    end: bool,
    w: &[f32],
    t_hist: &[f32],
    r_hist: &[f32],
    seq_len: u32,
    batch: u32,
    seq_lens: &[u32],
    delta_ts: &[f32],
    labels: &[f32],
    weights: &[f32],
    gw: &mut [f64],
    records: &mut [f32],
    loss: &mut f64,
) -> u32
    ensures { GivesBatchGrad w.now (prefixes_in_def (align_of end) t_hist.now r_hist.now seq_len batch seq_lens.now
        delta_ts.now labels.now weights.now) result
        gw.old gw.new records.old records.new loss.old loss.new }
{
    fsrs6::prefixes::fsrs_batch_loss_and_grad_in(
        end, w, t_hist, r_hist, seq_len, batch, seq_lens, delta_ts, labels, weights, gw, records,
        loss,
    )
}
