// Why a loss call is refused: the refusal that its entry gives, and the place of the cell that is bad, where that is the reason.
// These are the twins of the four loss entries, with their inputs; of what an entry is lent to write in they take the lengths.
// All is checked before the first write: sizes, then the cells that the call reads. A call for the loss alone is lent neither
// slots nor room, so that 5 and 4 are not asked of it.
// Stays: four functions, as there are four entries: with a flag for the gradient each length would be an `Option`, no plainer.
ghost use Rattle.std.specs.Prelude.{◌≡◌};
ghost use Rattle.checks.specs.Decks.{cards_now, prefixes_now};
ghost use Rattle.checks.specs.Faults.{PlacedWhere, fault_of, refusal_of};
ghost use Rattle.checks.specs.Refusals.{prefix_loss_refusal_def, prefix_grad_refusal_def, card_loss_refusal_def, card_grad_refusal_def};
ghost use Rattle.checks.specs.Refusals.{prefix_loss_reads, prefix_grad_reads, card_loss_reads, card_grad_reads};
ghost use Rattle.checks.specs.Refusals.{prefix_loss_fault, prefix_grad_fault, card_loss_fault_def, card_grad_fault};

use crate::deck::{Cards, Prefixes};
use crate::fault::Fault;
use crate::reads::check;
use domain::refusal::Refusal;
use domain::weights::check_weights;

/// 1, 2, 5, 3, 4, then the first fault. The last arguments count what is lent.
#[tactic(auto, using(crate::proofs::Placed::tests, crate::proofs::Placed::places, crate::proofs::Chain::chain), unfolding(crate::specs::Refusals::prefix_grad_fault, crate::specs::Refusals::prefix_grad_refusal_def, crate::specs::Refusals::grad_refusal_def))]
pub fn batch_loss_and_grad_fault(
    w: &[f32],
    deck: &Prefixes<'_>,
    slots: usize,
    records: usize,
) -> Result<(), Fault>
    ensures fault { fault_of result ≡ prefix_grad_fault w.now (prefixes_now deck.now) slots records }
    ensures refusal { refusal_of result ≡ prefix_grad_refusal_def w.now (prefixes_now deck.now) slots records }
    ensures place { PlacedWhere (prefix_grad_reads w.now (prefixes_now deck.now) slots records) result }
{
    check_weights(w)?;
    check(true, slots == 21, Refusal::SlotCount)?;
    deck.check_sizes()?;
    let room = deck.table.longest() as usize <= records;
    check(true, room, Refusal::Room)?;
    deck.check_cells()
}

/// 1, 2, 3, then the first fault.
#[tactic(auto, using(crate::proofs::Placed::tests, crate::proofs::Placed::places, crate::proofs::Chain::chain), unfolding(crate::specs::Refusals::prefix_loss_fault, crate::specs::Refusals::prefix_loss_refusal_def, crate::specs::Refusals::loss_refusal_def))]
pub fn batch_loss_fault(w: &[f32], deck: &Prefixes<'_>) -> Result<(), Fault>
    ensures fault { fault_of result ≡ prefix_loss_fault w.now (prefixes_now deck.now) }
    ensures refusal { refusal_of result ≡ prefix_loss_refusal_def w.now (prefixes_now deck.now) }
    ensures place { PlacedWhere (prefix_loss_reads w.now (prefixes_now deck.now)) result }
{
    check_weights(w)?;
    deck.check_sizes()?;
    deck.check_cells()
}

/// 1, 2, 5, 3, 4, then the first fault. The last arguments count what is lent.
#[tactic(auto, using(crate::proofs::Placed::tests, crate::proofs::Placed::places, crate::proofs::Chain::chain), unfolding(crate::specs::Refusals::card_grad_fault, crate::specs::Refusals::card_grad_refusal_def, crate::specs::Refusals::grad_refusal_def))]
pub fn card_loss_and_grad_fault(
    w: &[f32],
    deck: &Cards<'_>,
    slots: usize,
    records: usize,
    step_grads: usize,
) -> Result<(), Fault>
    ensures fault { fault_of result ≡ card_grad_fault w.now (cards_now deck.now) slots records step_grads }
    ensures refusal { refusal_of result ≡ card_grad_refusal_def w.now (cards_now deck.now) slots records step_grads }
    ensures place { PlacedWhere (card_grad_reads w.now (cards_now deck.now) slots records step_grads) result }
{
    check_weights(w)?;
    check(true, slots == 21, Refusal::SlotCount)?;
    deck.check_sizes()?;
    let longest = deck.table.longest() as usize;
    let room = (longest <= records) & (longest <= step_grads);
    check(true, room, Refusal::Room)?;
    deck.check_cells()
}

/// 1, 2, 3, then the first fault.
#[tactic(auto, using(crate::proofs::Placed::tests, crate::proofs::Placed::places, crate::proofs::Chain::chain), unfolding(crate::specs::Refusals::card_loss_fault_def, crate::specs::Refusals::card_loss_refusal_def, crate::specs::Refusals::loss_refusal_def))]
pub fn card_loss_fault(w: &[f32], deck: &Cards<'_>) -> Result<(), Fault>
    ensures fault { fault_of result ≡ card_loss_fault_def w.now (cards_now deck.now) }
    ensures refusal { refusal_of result ≡ card_loss_refusal_def w.now (cards_now deck.now) }
    ensures place { PlacedWhere (card_loss_reads w.now (cards_now deck.now)) result }
{
    check_weights(w)?;
    deck.check_sizes()?;
    deck.check_cells()
}
