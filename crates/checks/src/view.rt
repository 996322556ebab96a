// A column of a time-major table, read through a view that takes every stride-th cell.
ghost use Rattle.std.specs.Prelude.{◌≡◌};
ghost use Rattle.checks.specs.Decks.{rows_of};

use crate::tables::{cell_of, cell_or};

/// A column of a time-major table. The stride is the number of columns; column and stride are u32, so that no cell's number
/// can wrap.
#[derive(Clone, Copy, Debug)]
pub struct Column<'a> {
    pub cells: &'a [f32],
    pub column: u32,
    pub stride: u32,
}

impl Column<'_> {
    /// The cell of a row; past the end a NaN.
    #[tactic(auto, using(crate::proofs::tables::Default::nan_pattern))]
    pub fn at(&self, row: u32) -> f32
        ensures { result ≡ rows_of self.now row }
    {
        cell_or(self.cells, cell_of(row, self.stride, self.column), f32::NAN)
    }
}
