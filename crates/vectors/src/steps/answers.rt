// What a line expects. Of its words the first eight are arguments, the ninth is the number of a refusal, and the rest is the
// answer: the state and the record of a step, or the gradients of a reverse and the slots after it.
use crate::patterns::Pattern;
use crate::words::Words;
use backward::step::StateGrad;
use domain::refusal::Refusal;
use forward::state::{Branch, State, StepRecord, Stepped};

fn is_state(words: &Words<'_>, state: State) -> bool {
    words.is(0, state.s) && words.is(1, state.d)
}

// The branch by its number, and its own numbers.
fn is_branch(words: &Words<'_>, branch: Branch) -> bool {
    words.are(
        0,
        &match branch {
            Branch::Padding => [0, 0, 0, 0],
            Branch::First(rating) => [1, rating.pattern(), 0, 0],
            Branch::SameDay { raw, value, active } => {
                [2, raw.pattern(), value.pattern(), active.pattern()]
            }
            Branch::Lapse {
                raw,
                floor,
                floored,
            } => [3, raw.pattern(), floor.pattern(), floored.pattern()],
            Branch::Success => [4, 0, 0, 0],
        },
    )
}

fn is_record(words: &Words<'_>, step: &StepRecord) -> bool {
    is_state(words, step.state)
        && is_state(&words.skip(2), step.last)
        && words.are(
            4,
            &[
                step.day,
                step.rating,
                step.retrievability,
                step.pre_s,
                step.pre_d,
            ],
        )
        && is_branch(&words.skip(9), step.branch)
}

// A refusal's numbers are all 0.
pub fn is_step(words: &Words<'_>, answer: Result<Stepped, Refusal>) -> bool {
    words.is_refusal(8, &answer)
        && match answer {
            Ok(stepped) => {
                is_state(&words.skip(9), stepped.state) && is_record(&words.skip(11), &stepped.step)
            }
            Err(_) => words.are(9, &[0u64; 15]),
        }
}

// Slots that were not lent are +0.0, and so are the words after a line's last.
pub fn is_reverse(words: &Words<'_>, answer: Result<StateGrad, Refusal>, slots: &[f64]) -> bool {
    let grad = answer.unwrap_or(StateGrad { s: 0.0, d: 0.0 });
    words.is_refusal(8, &answer)
        && words.is(9, grad.s)
        && words.is(10, grad.d)
        && words.are(12, slots)
}
