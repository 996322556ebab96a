// A line's call over the weights and the starting slots that lines above it set, and over records and step gradients of its own.
// After its slices it has seven words: how many records are lent and the pattern of the first, the same of the step gradients,
// and the answer: the refusal, the loss, and the digest of all that was lent.
pub mod deck;
pub mod entries;

use crate::digests::digest;
use crate::given::{Given, Slots};
use crate::list::{List, Row};
use crate::losses::deck::{Numbers, Places};
use crate::losses::entries::Entry::{self, BatchGrad, BatchLoss, CardGrad, CardLoss};
use crate::patterns::count_up;
use crate::words::Words;
use checks::align::Align::{self, End, Start};

/// An entry, and where its histories stand.
#[derive(Clone, Copy, Debug)]
pub struct Losses(Entry, Align);

impl List for Losses {
    const ROWS: &'static [Row<Losses>] = &[
        Row(b'0', "batch_loss_and_grad", Losses(BatchGrad, Start)),
        Row(b'1', "batch_loss", Losses(BatchLoss, Start)),
        Row(b'2', "card_loss_and_grad", Losses(CardGrad, Start)),
        Row(b'3', "card_loss", Losses(CardLoss, Start)),
        Row(b'4', "batch_loss_and_grad_in", Losses(BatchGrad, End)),
        Row(b'5', "batch_loss_in", Losses(BatchLoss, End)),
        Row(b'6', "card_loss_and_grad_in", Losses(CardGrad, End)),
        Row(b'7', "card_loss_in", Losses(CardLoss, End)),
    ];

    fn is_call(self, words: &Words<'_>) -> bool {
        Places::of(words).rest.is_of_length(7)
    }

    // A line that asks for more than there are fails. The loss alone is lent no slots.
    // Stays: records and step gradients are fixed memory, since no program here has a heap.
    fn passes(self, words: &Words<'_>, given: &Given) -> bool {
        let Losses(entry, align) = self;
        let places = Places::of(words);
        // Stays: `rest` is read seven times below.
        let rest = places.rest;
        let mut slots = if entry.has_gradient() {
            given.slots()
        } else {
            Slots::NONE
        };
        let slots = slots.lent();
        let mut records = [0.0f32; 640];
        count_up(rest.at(1), &mut records);
        let Some(records) = records.get_mut(..rest.at(0)) else {
            return false;
        };
        let mut step_grads = [0.0f64; 64];
        count_up(rest.at(3), &mut step_grads);
        let Some(step_grads) = step_grads.get_mut(..rest.at(2)) else {
            return false;
        };
        let mut numbers = Numbers::NONE;
        let deck = places.deck(&mut numbers, align);
        let answer = entry.call(given.weights(), &deck, slots, records, step_grads);
        rest.is_refusal(4, &answer)
            && rest.is(5, answer.unwrap_or(0.0))
            && rest.is(6, digest(slots, records, step_grads))
    }
}
