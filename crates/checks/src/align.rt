// Where the histories of a call stand in their tables, and what follows for a column: which row is its first review, which
// reviews count. The rows of a column are numbered from its first review.
ghost use Rattle.std.specs.Prelude.{◌≡◌};
ghost use Rattle.checks.specs.Align.{is_end_def, align_of, counts, first_of, target_weight_def};
ghost use Rattle.checks.specs.Decks.{rows_of};

use crate::reads::is_nonzero;
use crate::view::Column;

/// Start: from row 0 on, padding behind them, as the Rust has it. End: up to the last row, padding in front.
#[derive(Clone, Copy, Debug, PartialEq, Eq, Hash, Default)]
pub enum Align {
    #[default]
    Start,
    End,
}

impl Align {
    #[tactic(auto, unfolding(crate::specs::Align::is_end_def))]
    pub(crate) fn is_end(self) -> bool
        ensures { result ≡ is_end_def self }
    {
        self == Align::End
    }

    /// Of n rows the first with a rating that is not 0, n if there is none; row 0 where histories stand at the start.
    // Stays: n for none and not an Option, since `first_of` says so and rows are numbered from it.
    #[tactic(auto, using(crate::proofs::align::First::finding))]
    pub fn first_review(self, ratings: &Column<'_>, n: u32) -> u32
        ensures { result ≡ first_of self (rows_of ratings.now) n }
    {
        if !self.is_end() {
            return 0;
        }
        for row in 0..n {
            if is_nonzero(ratings.at(row)) {
                return row;
            }
        }
        n
    }

    /// Whether a row with this rating counts as a review; at the end padding does not. At the start its rating is not looked at.
    #[tactic(auto, unfolding(crate::specs::Align::counts))]
    pub fn counts(self, rating: f32) -> bool
        ensures { result ≡ counts self rating }
    {
        !self.is_end() | is_nonzero(rating)
    }

    /// The weight of the target behind n rows, of which the first review is `first`; 0 where these are all padding.
    #[tactic(auto, unfolding(crate::specs::Align::target_weight_def, crate::specs::Align::target_read_def))]
    pub fn target_weight(self, first: u32, n: u32, weight: f32) -> f32
        ensures { result ≡ target_weight_def self first n weight }
    {
        if !self.is_end() | (first < n) {
            weight
        } else {
            0.0
        }
    }
}

/// The mode of a flag, for callers that have no enum.
impl From<bool> for Align {
    ghost from_gives = { λ end a. a ≡ align_of end };

    #[tactic(auto, unfolding(crate::specs::Align::align_of))]
    fn from(end: bool) -> Align {
        if end { Align::End } else { Align::Start }
    }
}
