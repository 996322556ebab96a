// What a loss call is lent: a table of histories with its columns' lengths, and what is scored, a prefix's target or a card's
// rows. Days, ratings, and a card's labels and weights are time-major tables: row * columns + column.
ghost use Rattle.std.specs.Prelude.{◌≡◌};
ghost use Rattle.domain.specs.Weights.{◌!◌};
ghost use Rattle.checks.specs.Align.{target_weight_def};
ghost use Rattle.checks.specs.Batch.{history, view, label_at, length_at, weight_at_def};
ghost use Rattle.checks.specs.Decks.{history_lent, card_lent, cards_now, history_at, prefixes_now, rows_of, table_of, weights_at};

use crate::align::Align;
use crate::tables::cell_or;
use crate::view::Column;

/// The days and ratings of a batch, a column for each item, and each column's number of rows. A length past the rows is cut to
/// them.
#[derive(Clone, Copy, Debug)]
pub struct Table<'a> {
    pub days: &'a [f32],
    pub ratings: &'a [f32],
    pub rows: u32,
    pub columns: u32,
    pub lengths: &'a [u32],
    pub align: Align,
}

/// Prefixes: each column's target, the review after its rows, has one day, label and weight.
#[derive(Clone, Copy, Debug)]
pub struct Prefixes<'a> {
    pub table: Table<'a>,
    pub days: &'a [f32],
    pub labels: &'a [f32],
    pub weights: &'a [f32],
}

/// Cards: each row is scored, so that labels and weights are tables too.
#[derive(Clone, Copy, Debug)]
pub struct Cards<'a> {
    pub table: Table<'a>,
    pub labels: &'a [f32],
    pub weights: &'a [f32],
}

/// A column's days and ratings, and the row of its first review, from which its rows are numbered.
#[derive(Clone, Copy, Debug)]
pub struct History<'a> {
    pub days: Column<'a>,
    pub ratings: Column<'a>,
    pub first: u32,
}

/// A card's column: its history, and a label and a weight for each row.
#[derive(Clone, Copy, Debug)]
pub struct Card<'a> {
    pub history: History<'a>,
    pub labels: Column<'a>,
    pub weights: Column<'a>,
    pub align: Align,
}

/// A review that is scored: its day, its label, and what its weight counts for.
#[derive(Clone, Copy, Debug)]
pub struct Target {
    pub day: f32,
    pub label: f32,
    pub weight: f32,
}

impl<'a> Table<'a> {
    /// A column's length, cut to the rows; 0 past the last.
    #[tactic(auto, using(crate::proofs::Longer::min_least), unfolding(crate::specs::Tables::cut_at))]
    pub fn length(&self, column: u32) -> u32
        ensures { result ≡ length_at (table_of self.now) column }
    {
        cell_or(self.lengths, column as usize, 0).min(self.rows)
    }

    /// A column's history. The search for its first review reads ratings only where histories stand at the end.
    pub fn history(&self, column: u32) -> History<'a>
        ensures history { history_at result ≡ history (table_of self.now) column }
        ensures lent { result ≡ history_lent self.now column }
    {
        let ratings = self.column_of(self.ratings, column);
        History {
            days: self.column_of(self.days, column),
            first: self.align.first_review(&ratings, self.length(column)),
            ratings,
        }
    }

    // A column of any table of this shape.
    fn column_of(&self, cells: &'a [f32], column: u32) -> Column<'a>
        ensures { result ≡ record { cells = cells.entry; column = column; stride = self.now.columns } }
    {
        Column {
            cells,
            column,
            stride: self.columns,
        }
    }
}

impl Prefixes<'_> {
    /// A column's target behind its n rows, of which the first review is `first`. It weighs nothing where these are all padding.
    #[tactic(auto, using(crate::proofs::tables::Default::nan_pattern))]
    pub fn target(&self, column: u32, first: u32, n: u32) -> Target
        ensures { result ≡ record {
          day = self.now.days.now ! column;
          label = self.now.labels.now ! column;
          weight = target_weight_def self.now.table.align first n (self.now.weights.now ! column);
        } }
    {
        let k = column as usize;
        let weight = cell_or(self.weights, k, f32::NAN);
        Target {
            day: cell_or(self.days, k, f32::NAN),
            label: cell_or(self.labels, k, f32::NAN),
            weight: self.table.align.target_weight(first, n, weight),
        }
    }
}

impl<'a> Cards<'a> {
    /// A card's column.
    pub fn card(&self, column: u32) -> Card<'a>
        ensures history { history_at result.history ≡ history (table_of self.now.table) column }
        ensures labels { rows_of result.labels ≡ label_at (cards_now self.now) column }
        ensures weights { weights_at result ≡ weight_at_def (cards_now self.now) column }
        ensures lent { result ≡ card_lent self.now column }
        ensures align { result.align ≡ self.now.table.align }
    {
        Card {
            history: self.table.history(column),
            labels: self.table.column_of(self.labels, column),
            weights: self.table.column_of(self.weights, column),
            align: self.table.align,
        }
    }
}

impl Card<'_> {
    /// A row's review, scored: 0 weighs what does not count, whatever its cell holds.
    pub fn target(&self, row: u32) -> Target
        ensures { result ≡ record {
          day = rows_of self.now.history.days row;
          label = rows_of self.now.labels row;
          weight = weights_at self.now row;
        } }
    {
        Target {
            day: self.history.days.at(row),
            label: self.labels.at(row),
            weight: self.weight(row),
        }
    }

    /// What a row's weight counts for: 0 where it does not count, whatever its cell holds.
    #[tactic(auto, unfolding(crate::specs::Align::weighed))]
    pub fn weight(&self, row: u32) -> f32
        ensures { result ≡ weights_at self.now row }
    {
        if self.align.counts(self.history.ratings.at(row)) {
            self.weights.at(row)
        } else {
            0.0
        }
    }
}
