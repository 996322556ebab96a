// A memory state, the branch by which a review moves it, and the record that a step leaves.

/// A memory state: a stability in days, and a difficulty.
#[derive(Clone, Copy, Debug, PartialEq)]
pub struct State {
    pub s: f32,
    pub d: f32,
}

/// The branch that a review took, with the numbers that its reverse needs.
// Stays: `slots_of` and `reverse_reads` in backward's specs/Moves.antt, and the flat columns, speak of the flags and of First's number.
#[derive(Clone, Copy, Debug, PartialEq)]
pub enum Branch {
    /// A row with no review: the rating is 0.
    Padding,
    /// A first review, by its rating, 1 to 4.
    First(u32),
    /// A review on the same day. `active`: `raw` was not lifted to 1.
    SameDay { raw: f32, value: f32, active: bool },
    /// A lapse on a later day. `floored`: `floor` was below `raw`, and taken.
    Lapse { raw: f32, floor: f32, floored: bool },
    /// A success on a later day.
    Success,
}

/// The stability that a review leaves, before its clamp, and the branch.
#[derive(Clone, Copy, Debug, PartialEq)]
pub struct Move {
    pub s: f32,
    pub branch: Branch,
}

/// What a reverse step needs.
#[derive(Clone, Copy, Debug, PartialEq)]
pub struct StepRecord {
    /// The state as given.
    pub state: State,
    /// The state as clamped into its ranges.
    pub last: State,
    /// +0.0 where it goes unread.
    pub day: f32,
    pub rating: f32,
    pub retrievability: f32,
    /// The new stability before its clamp.
    pub pre_s: f32,
    /// The new difficulty before its clamp.
    pub pre_d: f32,
    pub branch: Branch,
}

/// What a step answers: the new state, and the record for its reverse.
#[derive(Clone, Copy, Debug, PartialEq)]
pub struct Stepped {
    pub state: State,
    pub step: StepRecord,
}
