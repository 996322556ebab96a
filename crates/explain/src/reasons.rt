//! The reasons for which a card moves, and the ends of a range, each with its number.
ghost use Rattle.std.specs.Prelude.{◌≡◌};
ghost use Rattle.explain.specs.Reasons.{reason_number_def, held_number_def, success_reason_def, reason_of_def, held_at};

use forward::state::Branch;

/// Why a card moved. Same day: with the raw multiplier, or with the 1. Lapse: with the raw value, or with the floor. Success:
/// plain, hard or easy. The numbers 0 to 6 are those of the branches in a record's columns.
#[derive(Clone, Copy, Debug, PartialEq, Eq, Hash)]
pub enum Reason {
    Padding = 0,
    First = 1,
    SameDayRaw = 2,
    SameDayOne = 3,
    LapseRaw = 4,
    LapseFloor = 5,
    Success = 6,
    SuccessHard = 7,
    SuccessEasy = 8,
}

/// At which end of its range a number was held; `Free`: at none.
#[derive(Clone, Copy, Debug, PartialEq, Eq, Hash)]
pub enum Held {
    Free = 0,
    Low = 1,
    High = 2,
}

impl From<Reason> for u32 {
    ghost from_gives = { λ reason n. n ≡ reason_number_def reason };

    #[tactic(auto, unfolding(crate::specs::Reasons::reason_number_def))]
    fn from(reason: Reason) -> u32 {
        reason as u32
    }
}

impl From<Held> for u32 {
    ghost from_gives = { λ held n. n ≡ held_number_def held };

    #[tactic(auto, unfolding(crate::specs::Reasons::held_number_def))]
    fn from(held: Held) -> u32 {
        held as u32
    }
}

#[tactic(auto, unfolding(crate::specs::Reasons::success_reason_def))]
fn success_reason(rating: f32) -> Reason
    ensures { result ≡ success_reason_def rating }
{
    if rating == 2.0 {
        return Reason::SuccessHard;
    }
    if rating == 4.0 {
        return Reason::SuccessEasy;
    }
    Reason::Success
}

// What the branch itself says; a success is told by its rating.
#[tactic(auto, unfolding(crate::specs::Reasons::reason_of_def))]
pub(crate) fn reason_of(branch: Branch, rating: f32) -> Reason
    ensures { result ≡ reason_of_def branch rating }
{
    match branch {
        Branch::Padding => Reason::Padding,
        Branch::First(_) => Reason::First,
        Branch::SameDay { active: true, .. } => Reason::SameDayRaw,
        Branch::SameDay { .. } => Reason::SameDayOne,
        Branch::Lapse { floored: true, .. } => Reason::LapseFloor,
        Branch::Lapse { .. } => Reason::LapseRaw,
        Branch::Success => success_reason(rating),
    }
}

// Exactly at an end is not outside, and neither is a NaN.
#[tactic(auto, unfolding(crate::specs::Reasons::held_at))]
pub(crate) fn held_at(x: f32, low: f32, high: f32) -> Held
    ensures { result ≡ held_at x low high }
{
    if x < low {
        return Held::Low;
    }
    if x > high {
        return Held::High;
    }
    Held::Free
}
