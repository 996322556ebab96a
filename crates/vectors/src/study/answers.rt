// What a line expects. Of its words the first four are arguments, the fifth is the number of a refusal and the next two are
// values. Where the answer is a set of weights, the refusal is the first word and the weights follow.
use crate::patterns::Pattern;
use crate::words::Words;
use domain::refusal::{Refusal, Refused};
use model_v6::rows::Verdict;
use model_v6::seen::Seen;
use model_v6::state::MemoryState;

/// The state that a line's call is given.
pub fn state_of(words: &Words<'_>) -> MemoryState {
    MemoryState {
        stability: words.at(0),
        difficulty: words.at(1),
    }
}

fn is_given(words: &Words<'_>, state: MemoryState) -> bool {
    let given = state_of(words);
    state.stability.pattern() == given.stability.pattern()
        && state.difficulty.pattern() == given.difficulty.pattern()
}

fn are_state(words: &Words<'_>, state: MemoryState) -> bool {
    words.is(0, state.stability) && words.is(1, state.difficulty)
}

/// A number or a truth.
pub fn is_value<T: Pattern>(words: &Words<'_>, x: T) -> bool {
    words.is(5, x)
}

// A refusal's answer is +0.0.
pub fn is_scalar(words: &Words<'_>, answer: Result<f32, Refusal>) -> bool {
    words.is_refusal(4, &answer) && is_value(words, answer.unwrap_or(0.0))
}

// A refusal's numbers are +0.0.
pub fn is_state(words: &Words<'_>, answer: Result<MemoryState, Refusal>) -> bool {
    let state = answer.unwrap_or(MemoryState {
        stability: 0.0,
        difficulty: 0.0,
    });
    words.is_refusal(4, &answer) && are_state(&words.skip(5), state)
}

// A refused step hands the state back.
pub fn is_next(words: &Words<'_>, answer: Result<MemoryState, Refused<MemoryState>>) -> bool {
    words.is_refusal(4, &answer.map_err(Refusal::from))
        && match answer {
            Ok(state) => are_state(&words.skip(5), state),
            Err(refused) => is_given(words, refused.given),
        }
}

// A review on a day has a fifth argument, the rating, and a third value, the day.
pub fn is_seen(words: &Words<'_>, answer: Result<Seen, Refused<Seen>>) -> bool {
    words.is_refusal(5, &answer.map_err(Refusal::from))
        && match answer {
            Ok(seen) => are_state(&words.skip(6), seen.state) && words.is(8, seen.day),
            Err(refused) => {
                is_given(words, refused.given.state) && refused.given.day == words.at(2)
            }
        }
}

// A row has eight arguments, and its verdict is a number.
pub fn is_row(words: &Words<'_>, answer: Result<Verdict, Refusal>) -> bool {
    words.is_refusal(8, &answer) && words.is(9, answer.map_or(0, |verdict| verdict.number()))
}

// A refusal's weights are +0.0.
pub fn is_filled(words: &Words<'_>, answer: Result<[f32; 21], Refusal>) -> bool {
    words.is_refusal(0, &answer) && is_weights(words, &answer.unwrap_or([0.0; 21]))
}

pub fn is_weights(words: &Words<'_>, weights: &[f32; 21]) -> bool {
    words.are(1, weights)
}
