// Tables lent as flat slices: which cell a row and a column have, and cells that are read and written with no demand on
// the caller. Rows and columns are u32, so that no cell's number can wrap.
ghost use Rattle.std.specs.Prelude.{◌≡◌, get_or, set};
ghost use Rattle.checks.specs.Tables.{cell};

/// The number of a cell in a time-major table: row * columns + column.
#[tactic(auto, using(crate::proofs::tables::Fits::cell_fits, crate::proofs::tables::Fits::product_fits), unfolding(crate::specs::Tables::cell))]
pub fn cell_of(row: u32, columns: u32, column: u32) -> usize
    ensures { result ≡ cell columns row column }
{
    row as usize * columns as usize + column as usize
}

/// A cell; past the end what is given for it.
pub fn cell_or<T: Copy>(xs: &[T], k: usize, past_end: T) -> T
    ensures { result ≡ get_or xs.now k past_end }
{
    if k < xs.len() { xs[k] } else { past_end }
}

/// Writes a cell; past the end nothing is written.
pub fn put_cell<T: Copy>(xs: &mut [T], k: usize, x: T)
    ensures { xs.new ≡ set xs.old k x }
{
    if k < xs.len() {
        xs[k] = x;
    }
}
