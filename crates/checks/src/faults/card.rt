// The cells that a card reads.
ghost use Rattle.std.specs.Prelude.{◌≡◌, ◌-◌, true};
ghost use Rattle.domain.specs.Refusals.{number_of};
ghost use Rattle.checks.specs.Align.{is_end_def};
ghost use Rattle.checks.specs.Decks.{cards_now, history_at, rows_of, weights_at};
ghost use Rattle.checks.specs.Faults.{PlacedWhere, fault_of, card_rows_def, card_column_def, card_fault_def};
ghost use Rattle.checks.specs.Reads.{card_row_def, is_last};

use crate::deck::{Card, Cards};
use crate::fault::{Fault, locate};
use crate::reads::{check_card_row, is_last};
use domain::refusal::Refusal;

impl Card<'_> {
    // A row of n.
    fn check_row(&self, n: u32, row: u32) -> Result<(), Refusal>
        ensures { let c = self.now in
            number_of result ≡ card_row_def (is_end_def c.align) (is_last n row) (row - c.history.first)
            (rows_of c.history.days row) (rows_of c.history.ratings row) (weights_at c row) (rows_of c.labels row) }
    {
        check_card_row(
            self.align.is_end(),
            is_last(n, row),
            row.saturating_sub(self.history.first),
            self.history.ratings.at(row),
            &self.target(row),
        )
    }

    #[tactic(auto, using(crate::proofs::faults::First::rows))]
    fn check_rows(&self, column: u32, n: u32) -> Result<(), Fault>
        ensures fault { fault_of result ≡ card_rows_def (is_end_def self.now.align) (history_at self.now.history)
            (rows_of self.now.labels) (weights_at self.now) column n }
        ensures place { PlacedWhere true result }
    {
        for row in 0..n {
            locate(self.check_row(n, row), column, row)?;
        }
        Ok(())
    }
}

impl Cards<'_> {
    #[tactic(auto, unfolding(crate::specs::Faults::card_column_def))]
    fn check_column(&self, column: u32) -> Result<(), Fault>
        ensures fault { fault_of result ≡ card_column_def (cards_now self.now) column }
        ensures place { PlacedWhere true result }
    {
        self.card(column)
            .check_rows(column, self.table.length(column))
    }

    // The first fault among the cells that are read, columns ascending.
    // Stays: a prefix's loops have these lines too, and a trait with an impl for each would be longer.
    #[tactic(auto, using(crate::proofs::faults::First::search), unfolding(crate::specs::Faults::card_fault_def))]
    pub(crate) fn check_cells(&self) -> Result<(), Fault>
        ensures fault { fault_of result ≡ card_fault_def (cards_now self.now) }
        ensures place { PlacedWhere true result }
    {
        for column in 0..self.table.columns {
            self.check_column(column)?;
        }
        Ok(())
    }
}
