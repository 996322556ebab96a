//! The card loss alone.
ghost use Rattle.std.specs.Prelude.{◌≡◌};
ghost use Rattle.checks.specs.Decks.{cards_now};
ghost use Rattle.analytic_v6.specs.Cards.{card_loss_def, cards_loss};
ghost use Rattle.analytic_v6.specs.Results.{answered};

use checks::deck::Cards;
use checks::places::card_loss_fault;
use columns::forward_pass::card_forward;
use columns::last_review::last_loss;
use domain::refusal::Refusal;
use domain::weights::copy_weights;
use forward::parameters::RuntimeParams;

// One column of `card_column_loss_and_grad`. The last row is scored by itself, after the run of the rows before it. A card of no rows has none.
fn column_loss(p: &RuntimeParams, deck: &Cards<'_>, column: u32) -> f64
    ensures { result ≡ card_loss_def p.now (cards_now deck.now) column }
{
    let Some(last) = deck.table.length(column).checked_sub(1) else {
        return 0.0;
    };
    let card = deck.card(column);
    let run = card_forward(p, &card, last);
    let number = last.saturating_sub(card.history.first);
    last_loss(p, number, run.state.s, card.target(last), run.loss)
}

/// The loss of `card_loss_and_grad` alone: that of a batch of cards, its columns added in their order. Nothing is lent to it but
/// what it reads. Refused as `card_loss_fault` says.
#[tactic(auto, using(crate::proofs::Calls::cards_alone))]
pub fn card_loss(w: &[f32], deck: &Cards<'_>) -> Result<f64, Refusal>
    ensures { answered result ≡ cards_loss w.now (cards_now deck.now) }
{
    card_loss_fault(w, deck)?;
    // Stays: the fault function has tested the weights and hands none back; a `Weights` made here would test them again.
    let p = RuntimeParams::new(&copy_weights(w));
    let mut loss = 0.0;
    for column in 0..deck.table.columns {
        loss += column_loss(&p, deck, column);
    }
    Ok(loss)
}
