//! The card loss with its gradient.
ghost use Rattle.std.specs.Prelude.{◌≡◌, length};
ghost use Rattle.checks.specs.Decks.{cards_now};
ghost use Rattle.analytic_v6.specs.Cards.{card_loss_def, card_grads_def, card_left, cards_loss_and_grad, cards_slots, cards_left, cards_grads};
ghost use Rattle.analytic_v6.specs.Results.{answered};
ghost use Rattle.analytic_v6.specs.inner.Over.{card_back_in};

use checks::deck::Cards;
use checks::places::card_loss_and_grad_fault;
use checks::tables::put_cell;
use columns::backward_pass::column_backward;
use columns::forward_pass::card_forward_recorded;
use columns::last_review::last_end;
use columns::layout::Layout;
use domain::refusal::Refusal;
use domain::weights::copy_weights;
use forward::parameters::RuntimeParams;

// `card_column_loss_and_grad`: forward into the records and step gradients, the last row, which is scored by itself, and backward
// over whatever records and step gradients lie there then. A card of no rows has none.
fn column_loss_and_grad<L: Layout>(
    p: &RuntimeParams,
    deck: &Cards<'_>,
    column: u32,
    gw: &mut [f64],
    records: &mut [L::Cell],
    step_grads: &mut [f64],
) -> f64
    ensures loss { result ≡ card_loss_def p.now (cards_now deck.now) column }
    ensures slots { gw.new ≡ card_back_in p.now (cards_now deck.now) L.store L.load column records.new step_grads.new gw.old }
    ensures records { records.new ≡ card_left p.now (cards_now deck.now) column L.store records.old }
    ensures step_grads { step_grads.new ≡ card_grads_def p.now (cards_now deck.now) column step_grads.old }
{
    let Some(last) = deck.table.length(column).checked_sub(1) else {
        return 0.0;
    };
    let card = deck.card(column);
    let run = card_forward_recorded::<L>(p, &card, last, records, step_grads);
    let number = last.saturating_sub(card.history.first);
    let end = last_end(p, number, run.state.s, card.target(last), run.loss, gw);
    put_cell(step_grads, last as usize, 0.0);
    column_backward::<L>(p, records, step_grads, last, end.g_s, gw);
    end.loss
}

// Stays: no plainer: `gw`, `records` and `step_grads` are lent one by one, for a struct that holds `&mut` slices loses their cells.
/// `card_loss_and_grad`: the same loss, and its gradient added into the 21 slots of `gw`. `records` and `step_grads` are lent for
/// one card at a time, a record, in the layout that the caller names, and a double for each row. Refused as
/// `card_loss_and_grad_fault` says, and a refused call changes none of the three.
#[tactic(auto, using(crate::proofs::Calls::cards_with_grad))]
pub fn card_loss_and_grad<L: Layout>(
    w: &[f32],
    deck: &Cards<'_>,
    gw: &mut [f64],
    records: &mut [L::Cell],
    step_grads: &mut [f64],
) -> Result<f64, Refusal>
    ensures loss { answered result ≡ cards_loss_and_grad w.now (cards_now deck.now) (length gw.old) (L.room (length records.old)) (length step_grads.old) }
    ensures slots { gw.new ≡ cards_slots w.now (cards_now deck.now) gw.old (L.room (length records.old)) (length step_grads.old) }
    ensures records { records.new ≡ cards_left L.room L.store w.now (cards_now deck.now) (length gw.old) records.old (length step_grads.old) }
    ensures step_grads { step_grads.new ≡ cards_grads w.now (cards_now deck.now) (length gw.old) (L.room (length records.old)) step_grads.old }
{
    card_loss_and_grad_fault(w, deck, gw.len(), L::room(records.len()), step_grads.len())?;
    // Stays: the fault function has tested the weights and hands none back; a `Weights` made here would test them again.
    let p = RuntimeParams::new(&copy_weights(w));
    let mut loss = 0.0;
    for column in 0..deck.table.columns {
        loss += column_loss_and_grad::<L>(&p, deck, column, gw, records, step_grads);
    }
    Ok(loss)
}
