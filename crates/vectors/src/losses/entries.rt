// The four entries of a loss on a deck, and their twins that say where a call is at fault. An entry leaves out what it does not
// take.
use crate::losses::deck::cards_of;
use analytic_v6::cards::grad::card_loss_and_grad;
use analytic_v6::cards::loss::card_loss;
use analytic_v6::prefixes::grad::batch_loss_and_grad;
use analytic_v6::prefixes::loss::batch_loss;
use checks::deck::Prefixes;
use checks::fault::Fault;
use checks::places::{
    batch_loss_and_grad_fault, batch_loss_fault, card_loss_and_grad_fault, card_loss_fault,
};
use columns::records::Columns;
use domain::refusal::Refusal;

#[derive(Clone, Copy, Debug, PartialEq, Eq, Hash)]
pub enum Entry {
    BatchGrad,
    BatchLoss,
    CardGrad,
    CardLoss,
}

// Stays: each entry takes other arguments, so that a trait with four types for them would be no plainer.
impl Entry {
    pub fn has_gradient(self) -> bool {
        matches!(self, Entry::BatchGrad | Entry::CardGrad)
    }

    pub fn call(
        self,
        w: &[f32],
        deck: &Prefixes<'_>,
        slots: &mut [f64],
        records: &mut [f32],
        step_grads: &mut [f64],
    ) -> Result<f64, Refusal> {
        let cards = cards_of(deck);
        match self {
            Entry::BatchGrad => batch_loss_and_grad::<Columns>(w, deck, slots, records),
            Entry::BatchLoss => batch_loss(w, deck),
            Entry::CardGrad => {
                card_loss_and_grad::<Columns>(w, &cards, slots, records, step_grads)
            }
            Entry::CardLoss => card_loss(w, &cards),
        }
    }

    /// The fault of a call that is lent so many slots, records and step gradients.
    pub fn check(
        self,
        w: &[f32],
        deck: &Prefixes<'_>,
        slots: usize,
        records: usize,
        step_grads: usize,
    ) -> Result<(), Fault> {
        let cards = cards_of(deck);
        match self {
            Entry::BatchGrad => batch_loss_and_grad_fault(w, deck, slots, records),
            Entry::BatchLoss => batch_loss_fault(w, deck),
            Entry::CardGrad => card_loss_and_grad_fault(w, &cards, slots, records, step_grads),
            Entry::CardLoss => card_loss_fault(w, &cards),
        }
    }
}
