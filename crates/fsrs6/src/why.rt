//! Why a card moved, and why a loss call is refused and for which cell. Each answer is returned, and nothing is lent to be written.
ghost use Rattle.std.specs.Prelude.{◌≡◌};
ghost use Rattle.checks.specs.Align.{align_of};
ghost use Rattle.checks.specs.Batch.{prefixes_in_def, cards_in_def};
ghost use Rattle.checks.specs.Faults.{fault_of};
ghost use Rattle.explain.specs.Results.{explain_answered};
ghost use Rattle.fsrs6.specs.Why.{numbered, told, batch_fault, batch_grad_fault, card_fault, card_grad_fault, explained_step};

use checks::align::Align;
use checks::deck::{Cards, Prefixes, Table};
use checks::fault::{Fault, Place};
use checks::places::{
    batch_loss_and_grad_fault, batch_loss_fault, card_loss_and_grad_fault, card_loss_fault,
};
use columns::layout::Layout;
use columns::records::Columns;
use domain::refusal::Refusal;
use explain::step::{Explained, explain_step};
use forward::state::State;

// Stays: the C interface fixes the names and the parameters of these functions, of which many take eight and more.

// Stays: numbers and not enums, since they are `fsrs_reason` and `fsrs_fault` of include/fsrs6.h, the C interface.
/// The refusal and the numbers of the reason and of the two ends.
#[repr(C)]
#[derive(Clone, Copy, Debug, PartialEq, Eq, Hash)]
pub struct ReasonNumbers {
    pub refusal: u32,
    pub reason: u32,
    pub stability_held: u32,
    pub difficulty_held: u32,
}

impl From<Result<Explained, Refusal>> for ReasonNumbers {
    ghost from_gives = { λ answer numbers. numbers ≡ numbered (explain_answered answer) };

    #[tactic(auto, unfolding(crate::specs::Why::numbered, explain::specs::Reasons::reason_number_def, explain::specs::Reasons::held_number_def))]
    fn from(answer: Result<Explained, Refusal>) -> ReasonNumbers {
        match answer {
            Ok(why) => ReasonNumbers {
                refusal: 0,
                reason: u32::from(why.reason),
                stability_held: u32::from(why.stability),
                difficulty_held: u32::from(why.difficulty),
            },
            Err(refusal) => ReasonNumbers {
                refusal: refusal.number(),
                reason: 0,
                stability_held: 0,
                difficulty_held: 0,
            },
        }
    }
}

/// The refusal, 0 where there is none, and the cell that is bad. Column and row are 0 where no cell is the reason.
#[repr(C)]
#[derive(Clone, Copy, Debug, PartialEq, Eq, Hash)]
pub struct FaultNumbers {
    pub refusal: u32,
    pub column: u32,
    pub row: u32,
}

impl From<Result<(), Fault>> for FaultNumbers {
    ghost from_gives = { λ checked numbers. numbers ≡ told (fault_of checked) };

    fn from(checked: Result<(), Fault>) -> FaultNumbers {
        let (refusal, place) = match checked {
            Ok(()) => (0, None),
            Err(fault) => (fault.refusal.number(), fault.place),
        };
        match place {
            None => FaultNumbers {
                refusal,
                column: 0,
                row: 0,
            },
            Some(Place { column, row }) => FaultNumbers {
                refusal,
                column,
                row,
            },
        }
    }
}

pub fn fsrs_explain_step(
    w: &[f32],
    stability: f32,
    difficulty: f32,
    day: f32,
    rating: f32,
    row: usize,
) -> ReasonNumbers
    ensures { result ≡ explained_step w.now stability difficulty day rating row }
{
    let given = State {
        s: stability,
        d: difficulty,
    };
    ReasonNumbers::from(explain_step(w, given, day, rating, row))
}

pub fn fsrs_batch_loss_fault(
    end: bool,
    w: &[f32],
    t_hist: &[f32],
    r_hist: &[f32],
    seq_len: u32,
    batch: u32,
    seq_lens: &[u32],
    delta_ts: &[f32],
    labels: &[f32],
    weights: &[f32],
) -> FaultNumbers
    ensures { result ≡ batch_fault w.now (prefixes_in_def (align_of end) t_hist.now r_hist.now seq_len batch
        seq_lens.now delta_ts.now labels.now weights.now) }
{
    let table = Table {
        days: t_hist,
        ratings: r_hist,
        rows: seq_len,
        columns: batch,
        lengths: seq_lens,
        align: Align::from(end),
    };
    let deck = Prefixes {
        table,
        days: delta_ts,
        labels,
        weights,
    };
    FaultNumbers::from(batch_loss_fault(w, &deck))
}

// The records are counted in singles, ten for each.
pub fn fsrs_batch_loss_and_grad_fault(
    end: bool,
    w: &[f32],
    t_hist: &[f32],
    r_hist: &[f32],
    seq_len: u32,
    batch: u32,
    seq_lens: &[u32],
    delta_ts: &[f32],
    labels: &[f32],
    weights: &[f32],
    gw_len: usize,
    records_len: usize,
) -> FaultNumbers
    ensures { result ≡ batch_grad_fault w.now (prefixes_in_def (align_of end) t_hist.now r_hist.now seq_len batch
        seq_lens.now delta_ts.now labels.now weights.now) gw_len records_len }
{
    let table = Table {
        days: t_hist,
        ratings: r_hist,
        rows: seq_len,
        columns: batch,
        lengths: seq_lens,
        align: Align::from(end),
    };
    let deck = Prefixes {
        table,
        days: delta_ts,
        labels,
        weights,
    };
    FaultNumbers::from(batch_loss_and_grad_fault(w, &deck, gw_len, Columns::room(records_len)))
}

pub fn fsrs_card_loss_fault(
    end: bool,
    w: &[f32],
    t_hist: &[f32],
    r_hist: &[f32],
    seq_len: u32,
    batch: u32,
    seq_lens: &[u32],
    labels: &[f32],
    weights: &[f32],
) -> FaultNumbers
    ensures { result ≡ card_fault w.now (cards_in_def (align_of end) t_hist.now r_hist.now seq_len batch
        seq_lens.now labels.now weights.now) }
{
    let table = Table {
        days: t_hist,
        ratings: r_hist,
        rows: seq_len,
        columns: batch,
        lengths: seq_lens,
        align: Align::from(end),
    };
    let deck = Cards {
        table,
        labels,
        weights,
    };
    FaultNumbers::from(card_loss_fault(w, &deck))
}

pub fn fsrs_card_loss_and_grad_fault(
    end: bool,
    w: &[f32],
    t_hist: &[f32],
    r_hist: &[f32],
    seq_len: u32,
    batch: u32,
    seq_lens: &[u32],
    labels: &[f32],
    weights: &[f32],
    gw_len: usize,
    records_len: usize,
    step_grads_len: usize,
) -> FaultNumbers
    ensures { result ≡ card_grad_fault w.now (cards_in_def (align_of end) t_hist.now r_hist.now seq_len batch
        seq_lens.now labels.now weights.now) gw_len records_len step_grads_len }
{
    let table = Table {
        days: t_hist,
        ratings: r_hist,
        rows: seq_len,
        columns: batch,
        lengths: seq_lens,
        align: Align::from(end),
    };
    let deck = Cards {
        table,
        labels,
        weights,
    };
    FaultNumbers::from(card_loss_and_grad_fault(
        w,
        &deck,
        gw_len,
        Columns::room(records_len),
        step_grads_len,
    ))
}
