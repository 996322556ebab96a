// The functions of `domain` and `model_v6` on a line's arguments, compared with the answer there.
mod answers;

use crate::given::Given;
use crate::list::{List, Row};
use crate::study::answers::{
    is_filled, is_next, is_row, is_scalar, is_seen, is_state, is_value, is_weights, state_of,
};
use crate::words::Words;
use domain::defaults::{all_finite, default_weights};
use domain::difficulty::{clamp_difficulty, is_difficulty};
use domain::floats::{clamp, is_finite, is_within, max, min};
use domain::limits::{clamp_interval, clamp_stability, floor_stability, is_day, is_stability};
use domain::weights::{check_weights, copy_weights};
use model_v6::curve::{next_interval_scalar, power_forgetting_curve_scalar};
use model_v6::difficulty::{init_difficulty_scalar, mean_reversion_scalar, next_difficulty_scalar};
use model_v6::filling::check_and_fill_parameters_fsrs6;
use model_v6::rows::{Claimed, check_row};
use model_v6::seen::{Seen, next_state_on_scalar};
use model_v6::sm2::memory_state_from_sm2_scalar;
use model_v6::stability::{
    stability_after_failure_scalar, stability_after_success_scalar, stability_short_term_scalar,
};
use model_v6::state::next_state_scalar;

#[derive(Clone, Copy, Debug, PartialEq, Eq, Hash)]
pub enum Study {
    Clamp,
    Max,
    Min,
    IsFinite,
    IsWithin,
    FloorStability,
    ClampStability,
    ClampInterval,
    ClampDifficulty,
    IsStability,
    IsDifficulty,
    IsDay,
    WeightsRefusal,
    AllFinite,
    DefaultWeights,
    CopyWeights,
    Fill,
    Curve,
    Interval,
    Success,
    Failure,
    ShortTerm,
    InitDifficulty,
    MeanReversion,
    NextDifficulty,
    NextState,
    Sm2,
    NextStateOn,
    CheckRow,
}

impl List for Study {
    const ROWS: &'static [Row<Study>] = &[
        Row(b'c', "clamp", Study::Clamp),
        Row(b'x', "max", Study::Max),
        Row(b'n', "min", Study::Min),
        Row(b'f', "is_finite", Study::IsFinite),
        Row(b'i', "is_within", Study::IsWithin),
        Row(b'o', "floor_stability", Study::FloorStability),
        Row(b's', "clamp_stability", Study::ClampStability),
        Row(b'v', "clamp_interval", Study::ClampInterval),
        Row(b'd', "clamp_difficulty", Study::ClampDifficulty),
        Row(b'p', "is_stability", Study::IsStability),
        Row(b'q', "is_difficulty", Study::IsDifficulty),
        Row(b't', "is_day", Study::IsDay),
        Row(b'b', "weights_refusal", Study::WeightsRefusal),
        Row(b'a', "all_finite", Study::AllFinite),
        Row(b'u', "default_weights", Study::DefaultWeights),
        Row(b'k', "copy_weights", Study::CopyWeights),
        Row(b'F', "check_and_fill_parameters_fsrs6", Study::Fill),
        Row(b'C', "power_forgetting_curve_scalar", Study::Curve),
        Row(b'I', "next_interval_scalar", Study::Interval),
        Row(b'S', "stability_after_success_scalar", Study::Success),
        Row(b'L', "stability_after_failure_scalar", Study::Failure),
        Row(b'T', "stability_short_term_scalar", Study::ShortTerm),
        Row(b'E', "init_difficulty_scalar", Study::InitDifficulty),
        Row(b'M', "mean_reversion_scalar", Study::MeanReversion),
        Row(b'D', "next_difficulty_scalar", Study::NextDifficulty),
        Row(b'N', "next_state_scalar", Study::NextState),
        Row(b'P', "memory_state_from_sm2_scalar", Study::Sm2),
        Row(b'O', "next_state_on_scalar", Study::NextStateOn),
        Row(b'R', "check_row", Study::CheckRow),
    ];

    // A set of weights takes more words than numbers do.
    fn is_call(self, words: &Words<'_>) -> bool {
        words.is_of_length(match self {
            Study::DefaultWeights | Study::CopyWeights | Study::Fill => 22,
            Study::NextStateOn => 9,
            Study::CheckRow => 10,
            _ => 7,
        })
    }

    // Stays: each call takes other arguments, so that a closure for each would be no plainer.
    fn passes(self, words: &Words<'_>, given: &Given) -> bool {
        let w = given.weights();
        let (x, y, z): (f32, f32, f32) = (words.at(0), words.at(1), words.at(2));
        match self {
            Study::Clamp => is_value(words, clamp(x, y, z)),
            Study::Max => is_value(words, max(x, y)),
            Study::Min => is_value(words, min(x, y)),
            Study::IsFinite => is_value(words, is_finite(x)),
            Study::IsWithin => is_value(words, is_within(x, y, z)),
            Study::FloorStability => is_value(words, floor_stability(x)),
            Study::ClampStability => is_value(words, clamp_stability(x)),
            Study::ClampInterval => is_value(words, clamp_interval(x)),
            Study::ClampDifficulty => is_value(words, clamp_difficulty(x)),
            Study::IsStability => is_value(words, is_stability(x)),
            Study::IsDifficulty => is_value(words, is_difficulty(x)),
            Study::IsDay => is_value(words, is_day(x)),
            Study::WeightsRefusal => words.is_refusal(4, &check_weights(w)),
            Study::AllFinite => is_value(words, all_finite(w)),
            Study::DefaultWeights => is_weights(words, &default_weights()),
            Study::CopyWeights => is_weights(words, &copy_weights(w)),
            Study::Fill => is_filled(words, check_and_fill_parameters_fsrs6(w)),
            Study::Curve => is_scalar(words, power_forgetting_curve_scalar(w, x, y)),
            Study::Interval => is_scalar(words, next_interval_scalar(w, x, y)),
            Study::Success => is_scalar(
                words,
                stability_after_success_scalar(w, x, y, z, words.at(3)),
            ),
            Study::Failure => is_scalar(words, stability_after_failure_scalar(w, x, y, z)),
            Study::ShortTerm => is_scalar(words, stability_short_term_scalar(w, x, words.at(1))),
            Study::InitDifficulty => is_scalar(words, init_difficulty_scalar(w, words.at(0))),
            Study::MeanReversion => is_scalar(words, mean_reversion_scalar(w, x, y)),
            Study::NextDifficulty => is_scalar(words, next_difficulty_scalar(w, x, words.at(1))),
            Study::NextState => is_next(
                words,
                next_state_scalar(w, state_of(words), z, words.at(3)),
            ),
            Study::Sm2 => is_state(words, memory_state_from_sm2_scalar(w, x, y, z)),
            Study::NextStateOn => {
                let seen = Seen {
                    state: state_of(words),
                    day: words.at(2),
                };
                is_seen(
                    words,
                    next_state_on_scalar(w, seen, words.at(3), words.at(4)),
                )
            }
            Study::CheckRow => {
                let claimed = Claimed {
                    stability: words.at(5),
                    difficulty: words.at(6),
                    interval: words.at(7),
                };
                is_row(
                    words,
                    check_row(w, state_of(words), z, words.at(3), words.at(4), claimed),
                )
            }
        }
    }
}
