// A line's call of the pull toward the old weights, over the weights of the last line w. After its two slices it has how many
// slots are lent and the pattern of the first, the refusal, the penalty, and the first 21 slots as the call leaves them.
use crate::given::Given;
use crate::list::{List, Row};
use crate::patterns::count_up;
use crate::words::{Words, first_of};
use training_v7::penalty::l2_penalty_value_and_grad;

#[derive(Clone, Copy, Debug, PartialEq, Eq, Hash)]
pub struct Penalty;

// Where the old weights and their spreads stand, and what follows them.
fn places<'a>(words: &Words<'a>) -> (Words<'a>, Words<'a>, Words<'a>) {
    let old = words.skip(3);
    let spreads = old.skip_slice();
    (old, spreads, spreads.skip_slice())
}

impl List for Penalty {
    const ROWS: &'static [Row<Penalty>] = &[Row(b'P', "l2_penalty_value_and_grad", Penalty)];

    fn is_call(self, words: &Words<'_>) -> bool {
        let (_, _, rest) = places(words);
        rest.is_of_length(25)
    }

    // Where there are fewer slots than the line asks for, all are lent.
    // Stays: the slices are fixed memory, since no program here has a heap.
    fn passes(self, words: &Words<'_>, given: &Given) -> bool {
        let (old, spreads, rest) = places(words);
        let mut old_numbers = [0.0f32; 128];
        let mut spread_numbers = [0.0f32; 128];
        let mut slots = [0.0f32; 640];
        count_up(rest.at(1), &mut slots);
        let answer = l2_penalty_value_and_grad(
            given.weights(),
            old.slice(&mut old_numbers),
            words.at(0),
            words.at(1),
            words.at(2),
            spreads.slice(&mut spread_numbers),
            first_of(&mut slots, rest.at(0)),
        );
        rest.is_refusal(2, &answer)
            && rest.is(3, answer.unwrap_or(0.0))
            && rest.are(4, &slots[..21])
    }
}
