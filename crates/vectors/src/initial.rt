// A line's call of one of the two functions of `parameter_initialization`: a stability, three slices, and the answer's two words.
use crate::given::Given;
use crate::list::{List, Row};
use crate::words::Words;
use parameter_initialization::derivatives::loss_derivatives;
use parameter_initialization::stability::initial_stability;

#[derive(Clone, Copy, Debug, PartialEq, Eq, Hash)]
pub enum Initial {
    Derivatives,
    Stability,
}

impl List for Initial {
    const ROWS: &'static [Row<Initial>] = &[
        Row(b'D', "loss_derivatives", Initial::Derivatives),
        Row(b'S', "initial_stability", Initial::Stability),
    ];

    fn is_call(self, words: &Words<'_>) -> bool {
        let counts = words.skip(1).skip_slice().skip_slice();
        counts.skip_slice().is_of_length(2)
    }

    // Stays: the slices are fixed memory, since no program here has a heap.
    fn passes(self, words: &Words<'_>, _given: &Given) -> bool {
        let days = words.skip(1);
        let shares = days.skip_slice();
        let counts = shares.skip_slice();
        let answer = counts.skip_slice();
        let mut day_numbers = [0.0f64; 64];
        let mut share_numbers = [0.0f64; 64];
        let mut count_numbers = [0.0f64; 64];
        let days = days.slice(&mut day_numbers);
        let shares = shares.slice(&mut share_numbers);
        let counts = counts.slice(&mut count_numbers);
        let s = words.at(0);
        match self {
            Initial::Derivatives => {
                let derivatives = loss_derivatives(days, shares, counts, s);
                answer.is(0, derivatives.slope) && answer.is(1, derivatives.curvature)
            }
            Initial::Stability => {
                let start = initial_stability(days, shares, counts, s);
                answer.is_refusal(0, &start) && answer.is(1, start.unwrap_or(0.0))
            }
        }
    }
}
