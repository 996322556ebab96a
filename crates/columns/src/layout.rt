//! How a column's step records lie in a lent slice: a trait, so that a pass over a column is written once for every layout.
ghost use Rattle.std.specs.Prelude.{◌≡◌, ℕ, List};
ghost use Rattle.forward.specs.declared.state.StepRecord.{StepRecord};
ghost use Rattle.columns.specs.Layouts.{LayoutLaws};

use forward::state::StepRecord;

/// A layout of step records, a record for each row of a column. `store` of a row with room and then `load` of it give back
/// the record of any step, and no other row changes: the trait's laws.
pub trait Layout {
    type Cell: Copy;

    ghost room: { ℕ → ℕ };

    ghost store: { List Self.Cell → ℕ → StepRecord → List Self.Cell };

    ghost load: { List Self.Cell → ℕ → StepRecord };

    /// How many records a slice of so many cells has room for.
    fn room(cells: usize) -> usize
        ensures { result ≡ room cells };

    /// Stores a row's record. The slice keeps its length.
    fn store(records: &mut [Self::Cell], row: u32, step: &StepRecord)
        ensures { records.new ≡ store records.old row step.now };

    /// The record of a row.
    fn load(records: &[Self::Cell], row: u32) -> StepRecord
        ensures { result ≡ load records.now row };

    // What is stored is what is read back, and nothing else changes.
    ghost laws: { LayoutLaws room store load };
}
