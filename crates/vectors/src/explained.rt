// A line's explanation of a step, or of a refused loss call, over the weights of the last line w.
use crate::given::Given;
use crate::list::{List, Row};
use crate::losses::deck::{Numbers, Places};
use crate::losses::entries::Entry::{self, BatchGrad, BatchLoss, CardGrad, CardLoss};
use crate::steps::state_of;
use crate::words::Words;
use checks::align::Align;
use domain::refusal::Refusal;
use explain::step::explain_step;

#[derive(Clone, Copy, Debug, PartialEq, Eq, Hash)]
pub enum Explained {
    Step,
    Fault(Entry),
}

// A step is explained by its reason and by how its stability and its difficulty were held.
fn step_passes(words: &Words<'_>, w: &[f32]) -> bool {
    let answer = explain_step(w, state_of(words), words.at(2), words.at(3), words.at(4));
    words.is_refusal(5, &answer)
        && words.are(
            6,
            &match answer {
                Ok(e) => [
                    u32::from(e.reason),
                    u32::from(e.stability),
                    u32::from(e.difficulty),
                ],
                Err(_) => [0; 3],
            },
        )
}

// After its slices a call has whether its histories stand at the end, how many slots, records and step gradients are lent, and
// the answer: the refusal, the column and the row.
fn fault_passes(entry: Entry, words: &Words<'_>, w: &[f32]) -> bool {
    let places = Places::of(words);
    // Stays: `rest` is read six times below.
    let rest = places.rest;
    let mut numbers = Numbers::NONE;
    let deck = places.deck(&mut numbers, Align::from(rest.at::<bool>(0)));
    let answer = entry.check(w, &deck, rest.at(1), rest.at(2), rest.at(3));
    let place = answer.err().and_then(|fault| fault.place);
    rest.is_refusal(4, &answer.map_err(Refusal::from))
        && rest.are(5, &place.map_or([0; 2], |place| [place.column, place.row]))
}

impl List for Explained {
    const ROWS: &'static [Row<Explained>] = &[
        Row(b'E', "explain_step", Self::Step),
        Row(b'0', "batch_loss_and_grad_fault", Self::Fault(BatchGrad)),
        Row(b'1', "batch_loss_fault", Self::Fault(BatchLoss)),
        Row(b'2', "card_loss_and_grad_fault", Self::Fault(CardGrad)),
        Row(b'3', "card_loss_fault", Self::Fault(CardLoss)),
    ];

    fn is_call(self, words: &Words<'_>) -> bool {
        match self {
            Explained::Step => words.is_of_length(9),
            Explained::Fault(_) => Places::of(words).rest.is_of_length(7),
        }
    }

    fn passes(self, words: &Words<'_>, given: &Given) -> bool {
        match self {
            Explained::Step => step_passes(words, given.weights()),
            Explained::Fault(entry) => fault_passes(entry, words, given.weights()),
        }
    }
}
