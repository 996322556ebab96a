// A review that an app has worked out for itself, held to our formulas, with its checks.
ghost use Rattle.std.specs.Prelude.{◌≡◌};
ghost use Rattle.model_v6.specs.Rows.{ours_def, verdict_def, row_check, field_number_def, verdict_of_def};
ghost use Rattle.model_v6.specs.Verdicts.{judged, row_answered};

use crate::answers::check_argument;
use crate::formulas::curve::next_interval;
use crate::formulas::state::next_state;
use crate::state::{MemoryState, is_finite_state};
use domain::floats::is_finite;
use domain::limits::is_day;
use domain::refusal::Refusal;
use domain::weights::Weights;
use std::num::f32_to_bits_with_nan;

/// The state after a review and the interval from it, as the bits of singles: so a claimed NaN keeps its payload, and a zero
/// its sign.
#[derive(Clone, Copy, Debug, PartialEq, Eq, Hash)]
pub struct Claimed {
    pub stability: u32,
    pub difficulty: u32,
    pub interval: u32,
}

/// A field of a claim, by its number.
#[derive(Clone, Copy, Debug, PartialEq, Eq, Hash)]
pub enum Field {
    Stability = 1,
    Difficulty = 2,
    Interval = 3,
}

impl Field {
    #[tactic(auto, unfolding(crate::specs::Rows::field_number_def))]
    pub fn number(self) -> u32
        ensures { result ≡ field_number_def self }
    {
        self as u32
    }
}

/// What a claim is found to be; `Wrong` has the first field that has not our bits.
#[derive(Clone, Copy, Debug, PartialEq, Eq, Hash)]
pub enum Verdict {
    Accepted,
    Wrong(Field),
}

impl Verdict {
    /// 0 where the claim is accepted, else the first wrong field's number, 1 to 3.
    #[tactic(auto, unfolding(crate::specs::Rows::verdict_of_def))]
    pub fn number(self) -> u32
        ensures { result ≡ verdict_of_def (judged self) }
    {
        // Stays: the C interface has 0 for a row that is accepted, and a field's number where it is wrong.
        match self {
            Verdict::Accepted => 0,
            Verdict::Wrong(field) => field.number(),
        }
    }
}

/// What our formulas give. The interval is worked from the stability after the review. A NaN has the pattern 0x7fc0_0000.
#[tactic(auto, unfolding(crate::specs::Rows::ours_def))]
fn ours(w: &[f32; 21], state: MemoryState, day: f32, rating: u32, retention: f32) -> Claimed
    ensures { result ≡ ours_def w.now state day rating retention }
{
    let after = next_state(w, state, day, rating);
    let interval = next_interval(w, after.stability, retention);
    Claimed {
        stability: f32_to_bits_with_nan(after.stability),
        difficulty: f32_to_bits_with_nan(after.difficulty),
        interval: f32_to_bits_with_nan(interval),
    }
}

#[tactic(auto, unfolding(crate::specs::Rows::verdict_def))]
fn judge(claimed: Claimed, ours: Claimed) -> Verdict
    ensures { judged result ≡ verdict_def claimed ours }
{
    if claimed.stability != ours.stability {
        return Verdict::Wrong(Field::Stability);
    }
    if claimed.difficulty != ours.difficulty {
        return Verdict::Wrong(Field::Difficulty);
    }
    if claimed.interval != ours.interval {
        return Verdict::Wrong(Field::Interval);
    }
    Verdict::Accepted
}

/// Whether the claimed bits are those of `next_state_scalar`, `day` days after the last review, and of `next_interval_scalar` at
/// the retention, and if not, which field is the first that differs. Refused are the weights (1, 2), and a state, day or
/// retention that is not finite or out of range (13); the claimed values may be any bits.
#[tactic(auto, using(crate::proofs::rows::Answering::row))]
pub fn check_row(
    w: &[f32],
    state: MemoryState,
    day: f32,
    rating: u32,
    retention: f32,
    claimed: Claimed,
) -> Result<Verdict, Refusal>
    ensures { row_answered result ≡ row_check w.now state day rating retention claimed }
{
    let w = Weights::try_from(w)?;
    check_argument(is_finite_state(state) & is_day(day) & is_finite(retention))?;
    Ok(judge(claimed, ours(&w.values, state, day, rating, retention)))
}
