// Both entries on a line's arguments, over the weights and the starting slots that lines above it set.
mod answers;

use crate::given::Given;
use crate::list::{List, Row};
use crate::steps::answers::{is_reverse, is_step};
use crate::words::Words;
use analytic_v6::step::{OutputGrad, training_step, training_step_backward};
use backward::step::StateGrad;
use forward::state::State;

#[derive(Clone, Copy, Debug, PartialEq, Eq, Hash)]
pub enum Steps {
    Forward,
    Backward,
}

/// The state that a line's call is given.
pub fn state_of(words: &Words<'_>) -> State {
    State {
        s: words.at(0),
        d: words.at(1),
    }
}

impl List for Steps {
    const ROWS: &'static [Row<Steps>] = &[
        Row(b'T', "training_step", Steps::Forward),
        Row(b'B', "training_step_backward", Steps::Backward),
    ];

    // A record has words of its own, and the slots after a reverse are a slice.
    fn is_call(self, words: &Words<'_>) -> bool {
        match self {
            Steps::Forward => words.is_of_length(24),
            Steps::Backward => words.skip(11).skip_slice().is_of_length(0),
        }
    }

    fn passes(self, words: &Words<'_>, given: &Given) -> bool {
        let w = given.weights();
        let state = state_of(words);
        let (day, rating, row) = (words.at(2), words.at(3), words.at(4));
        match self {
            Steps::Forward => is_step(words, training_step(w, state, day, rating, row)),
            Steps::Backward => {
                let mut slots = given.slots();
                let g = OutputGrad {
                    state: StateGrad {
                        s: words.at(5),
                        d: words.at(6),
                    },
                    retrievability: words.at(7),
                };
                let answer = training_step_backward(w, state, day, rating, row, g, slots.lent());
                is_reverse(words, answer, slots.all())
            }
        }
    }
}
