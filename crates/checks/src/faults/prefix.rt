// The cells that a prefix reads.
ghost use Rattle.std.specs.Prelude.{◌≡◌, ◌-◌, true};
ghost use Rattle.domain.specs.Refusals.{number_of};
ghost use Rattle.domain.specs.Weights.{◌!◌};
ghost use Rattle.checks.specs.Align.{target_weight_def};
ghost use Rattle.checks.specs.Decks.{history_at, prefixes_now, rows_of};
ghost use Rattle.checks.specs.Faults.{PlacedWhere, fault_of, prefix_rows_def, target_fault, prefix_column_def, prefix_fault_def};
ghost use Rattle.checks.specs.Reads.{prefix_row_def};

use crate::deck::{History, Prefixes};
use crate::fault::{Fault, locate};
use crate::reads::{check_prefix_row, check_target};
use domain::refusal::Refusal;

impl History<'_> {
    fn check_row(&self, row: u32) -> Result<(), Refusal>
        ensures { number_of result ≡ prefix_row_def (row - self.now.first) (rows_of self.now.days row) (rows_of self.now.ratings row) }
    {
        check_prefix_row(
            row.saturating_sub(self.first),
            self.days.at(row),
            self.ratings.at(row),
        )
    }

    #[tactic(auto, using(crate::proofs::faults::First::rows))]
    fn check_rows(&self, column: u32, n: u32) -> Result<(), Fault>
        ensures fault { fault_of result ≡ prefix_rows_def (history_at self.now) column n }
        ensures place { PlacedWhere true result }
    {
        for row in 0..n {
            locate(self.check_row(row), column, row)?;
        }
        Ok(())
    }
}

impl Prefixes<'_> {
    #[tactic(auto, unfolding(crate::specs::Faults::target_fault))]
    fn check_target(&self, column: u32, first: u32, n: u32) -> Result<(), Fault>
        ensures fault { fault_of result ≡ target_fault self.now.days.now self.now.labels.now
            (target_weight_def self.now.table.align first n (self.now.weights.now ! column)) column n }
        ensures place { PlacedWhere true result }
    {
        let target = self.target(column, first, n);
        locate(check_target(&target), column, n)
    }

    #[tactic(auto, using(crate::proofs::faults::First::chain), unfolding(crate::specs::Faults::prefix_column_def))]
    fn check_column(&self, column: u32) -> Result<(), Fault>
        ensures fault { fault_of result ≡ prefix_column_def (prefixes_now self.now) column }
        ensures place { PlacedWhere true result }
    {
        let n = self.table.length(column);
        if n == 0 {
            return Err(Fault::at(Refusal::EmptyPrefix, column, 0));
        }
        let history = self.table.history(column);
        history.check_rows(column, n)?;
        self.check_target(column, history.first, n)
    }

    // The first fault among the cells that are read, columns ascending.
    // Stays: a card's loops have these lines too, and a trait with an impl for each would be longer.
    #[tactic(auto, using(crate::proofs::faults::First::search), unfolding(crate::specs::Faults::prefix_fault_def))]
    pub(crate) fn check_cells(&self) -> Result<(), Fault>
        ensures fault { fault_of result ≡ prefix_fault_def (prefixes_now self.now) }
        ensures place { PlacedWhere true result }
    {
        for column in 0..self.table.columns {
            self.check_column(column)?;
        }
        Ok(())
    }
}
