//! The prefix loss with its gradient.
ghost use Rattle.std.specs.Prelude.{◌≡◌, length};
ghost use Rattle.checks.specs.Decks.{prefixes_now};
ghost use Rattle.analytic_v6.specs.Prefixes.{prefix_loss_def, prefix_left, batch_loss_and_grad_def, batch_slots, batch_left};
ghost use Rattle.analytic_v6.specs.Results.{answered};
ghost use Rattle.analytic_v6.specs.inner.Over.{prefix_back_in};

use checks::deck::Prefixes;
use checks::places::batch_loss_and_grad_fault;
use columns::backward_pass::column_backward;
use columns::forward_pass::prefix_forward_recorded;
use columns::last_review::target_end;
use columns::layout::Layout;
use domain::refusal::Refusal;
use domain::weights::copy_weights;
use forward::parameters::RuntimeParams;

// `prefix_loss_and_grad`: forward into the records, the target, and backward over whatever records lie there then.
#[tactic(auto, unfolding(crate::specs::Prefixes::prefix_loss_def))]
fn column_loss_and_grad<L: Layout>(
    p: &RuntimeParams,
    deck: &Prefixes<'_>,
    column: u32,
    gw: &mut [f64],
    records: &mut [L::Cell],
) -> f64
    ensures loss { result ≡ prefix_loss_def p.now (prefixes_now deck.now) column }
    ensures slots { gw.new ≡ prefix_back_in p.now (prefixes_now deck.now) L.store L.load column records.new gw.old }
    ensures records { records.new ≡ prefix_left p.now (prefixes_now deck.now) column L.store records.old }
{
    let n = deck.table.length(column);
    let history = deck.table.history(column);
    let state = prefix_forward_recorded::<L>(p, &history, n, records);
    let end = target_end(p, state.s, deck.target(column, history.first, n), gw);
    column_backward::<L>(p, records, &[], n, end.g_s, gw);
    end.loss
}

/// `batch_loss_and_grad`: the same loss, and its gradient added into the 21 slots of `gw`. `records` is lent for the steps of
/// one column at a time, a record for each row, in the layout that the caller names. Refused as `batch_loss_and_grad_fault`
/// says, and a refused call changes neither.
#[tactic(auto, using(crate::proofs::Calls::prefixes_with_grad))]
pub fn batch_loss_and_grad<L: Layout>(
    w: &[f32],
    deck: &Prefixes<'_>,
    gw: &mut [f64],
    records: &mut [L::Cell],
) -> Result<f64, Refusal>
    ensures loss { answered result ≡ batch_loss_and_grad_def w.now (prefixes_now deck.now) (length gw.old) (L.room (length records.old)) }
    ensures slots { gw.new ≡ batch_slots w.now (prefixes_now deck.now) gw.old (L.room (length records.old)) }
    ensures records { records.new ≡ batch_left L.room L.store w.now (prefixes_now deck.now) (length gw.old) records.old }
{
    batch_loss_and_grad_fault(w, deck, gw.len(), L::room(records.len()))?;
    // Stays: the fault function has tested the weights and hands none back; a `Weights` made here would test them again.
    let p = RuntimeParams::new(&copy_weights(w));
    let mut loss = 0.0;
    for column in 0..deck.table.columns {
        loss += column_loss_and_grad::<L>(&p, deck, column, gw, records);
    }
    Ok(loss)
}
