//! The prefix loss alone.
ghost use Rattle.std.specs.Prelude.{◌≡◌};
ghost use Rattle.checks.specs.Decks.{prefixes_now};
ghost use Rattle.analytic_v6.specs.Prefixes.{prefix_loss_def, batch_loss_def};
ghost use Rattle.analytic_v6.specs.Results.{answered};

use checks::deck::Prefixes;
use checks::places::batch_loss_fault;
use columns::forward_pass::prefix_forward;
use columns::last_review::target_loss;
use domain::refusal::Refusal;
use domain::weights::copy_weights;
use forward::parameters::RuntimeParams;

// One column of `prefix_loss_and_grad`.
#[tactic(auto, unfolding(crate::specs::Prefixes::prefix_loss_def))]
fn column_loss(p: &RuntimeParams, deck: &Prefixes<'_>, column: u32) -> f64
    ensures { result ≡ prefix_loss_def p.now (prefixes_now deck.now) column }
{
    let n = deck.table.length(column);
    let history = deck.table.history(column);
    let state = prefix_forward(p, &history, n);
    target_loss(p, state.s, deck.target(column, history.first, n))
}

/// `batch_loss`: the summed loss of a batch of prefixes, its columns added in their order. Nothing is lent to it but what it
/// reads. Refused as `batch_loss_fault` says.
#[tactic(auto, using(crate::proofs::Calls::prefixes_alone))]
pub fn batch_loss(w: &[f32], deck: &Prefixes<'_>) -> Result<f64, Refusal>
    ensures { answered result ≡ batch_loss_def w.now (prefixes_now deck.now) }
{
    batch_loss_fault(w, deck)?;
    // Stays: the fault function has tested the weights and hands none back; a `Weights` made here would test them again.
    let p = RuntimeParams::new(&copy_weights(w));
    let mut loss = 0.0;
    for column in 0..deck.table.columns {
        loss += column_loss(&p, deck, column);
    }
    Ok(loss)
}
