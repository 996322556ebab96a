// Rows, columns, slices and room: what refusals 3 and 4 ask.
ghost use Rattle.std.specs.Prelude.{◌≡◌, ◌*◌, length, true};
ghost use Rattle.domain.specs.Refusals.{number_of};
ghost use Rattle.checks.specs.Decks.{cards_now, prefixes_now, table_of};
ghost use Rattle.checks.specs.Reads.{check};
ghost use Rattle.checks.specs.Refusals.{cards_sized, longest_of, prefixes_sized};
ghost use Rattle.checks.specs.Sizes.{table_sized_def};

use crate::deck::{Cards, Prefixes, Table};
use crate::reads::check;
use domain::refusal::Refusal;

pub const MAX_ROWS: u32 = 2048;

pub const MAX_COLUMNS: u32 = 512;

impl Table<'_> {
    fn cells(&self) -> usize
        ensures { result ≡ self.now.rows * self.now.columns }
    {
        self.rows as usize * self.columns as usize
    }

    #[tactic(auto, unfolding(crate::specs::Sizes::table_sized_def))]
    fn is_sized(&self) -> bool
        ensures { result ≡ table_sized_def (length self.now.days.now) (length self.now.ratings.now) self.now.rows
            self.now.columns (length self.now.lengths.now) }
    {
        let cells = self.cells();
        (self.rows <= MAX_ROWS)
            & (self.columns <= MAX_COLUMNS)
            & ((cells <= self.days.len())
                & (cells <= self.ratings.len())
                & (self.columns as usize <= self.lengths.len()))
    }

    // The longest of the columns.
    #[tactic(auto, using(crate::proofs::Longer::none_longer, crate::proofs::Longer::longer))]
    pub(crate) fn longest(&self) -> u32
        ensures { result ≡ longest_of (table_of self.now) }
    {
        let mut longest = 0;
        for column in 0..self.columns {
            longest = longest.max(self.length(column));
        }
        longest
    }
}

impl Prefixes<'_> {
    // 3: over the limits, or a slice is too short.
    #[tactic(auto, unfolding(crate::specs::Sizes::prefix_sized_def))]
    pub(crate) fn check_sizes(&self) -> Result<(), Refusal>
        ensures { number_of result ≡ check true (prefixes_sized (prefixes_now self.now)) 3 }
    {
        let columns = self.table.columns as usize;
        let targets = (columns <= self.days.len())
            & (columns <= self.labels.len())
            & (columns <= self.weights.len());
        check(true, self.table.is_sized() & targets, Refusal::Sizes)
    }
}

impl Cards<'_> {
    // 3: over the limits, or a slice is too short.
    #[tactic(auto, unfolding(crate::specs::Sizes::card_sized_def))]
    pub(crate) fn check_sizes(&self) -> Result<(), Refusal>
        ensures { number_of result ≡ check true (cards_sized (cards_now self.now)) 3 }
    {
        let cells = self.table.cells();
        let rows = (cells <= self.labels.len()) & (cells <= self.weights.len());
        check(true, self.table.is_sized() & rows, Refusal::Sizes)
    }
}
