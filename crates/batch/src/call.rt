//! The call that a batch file holds: its words, and the decks that they make.
ghost use Rattle.std.specs.Prelude.{◌≡◌, ◌≤◌, length};
ghost use Rattle.checks.specs.Decks.{cards_now, prefixes_now, table_of};
ghost use Rattle.batch.specs.File.{cards_in_def, prefixes_in_def, weights_in};
ghost use Rattle.batch.specs.Words.{singles, words};

use crate::sections::Sections;
use crate::words::fill;
use checks::align::Align;
use checks::deck::{Cards, Prefixes, Table};

/// Slots for the gradients by the 21 weights.
pub const SLOTS: usize = 21;

/// Step records and step gradients: one for each row, and a file has no more.
pub const ROWS: usize = 512;

/// A file's sections and its words: all of them as singles, and the lengths as whole numbers.
#[derive(Clone, Copy, Debug)]
pub struct Call<'a> {
    pub sections: Sections,
    pub cells: &'a [f32],
    pub lengths: &'a [u32],
    ghost whole: { sections.end ≤ length cells.now },
}

impl<'a> Call<'a> {
    ghost use Rattle.batch.specs.Sections.{header_at};

    /// Reads a file's words into `cells` and `lengths`, and keeps as much of these as the sections take.
    pub fn read(
        file: &[u8],
        sections: Sections,
        cells: &'a mut [f32],
        lengths: &'a mut [u32],
    ) -> Call<'a>
        requires { (sections.end ≤ length cells.old) × (sections.columns ≤ length lengths.old) × (sections.end ≤ 16384) }
        ensures sections { result.sections ≡ sections }
        ensures cells { result.cells.now ≡ singles file.now 0 sections.end }
        ensures lengths { result.lengths.now ≡ words file.now sections.lengths sections.columns }
    {
        let cells = &mut cells[..sections.end];
        fill(file, 0, cells);
        let lengths = &mut lengths[..sections.columns as usize];
        fill(file, sections.lengths, lengths);
        Call {
            sections,
            cells,
            lengths,
        }
    }

    /// The 21 weights.
    pub fn weights(&self) -> &'a [f32]
        ensures { result.now ≡ weights_in (header_at self.now.sections) self.now.cells.now self.now.lengths.now }
    {
        &self.cells[self.sections.weights..self.sections.days]
    }

    fn table(&self) -> Table<'a>
        ensures { table_of result ≡ (cards_in_def (header_at self.now.sections) self.now.cells.now self.now.lengths.now).table }
    {
        let at = &self.sections;
        Table {
            days: &self.cells[at.days..at.ratings],
            ratings: &self.cells[at.ratings..at.lengths],
            rows: at.rows,
            columns: at.columns,
            lengths: self.lengths,
            align: Align::Start,
        }
    }

    /// The deck of a file of prefixes.
    pub fn prefixes(&self) -> Prefixes<'a>
        ensures { prefixes_now result ≡ prefixes_in_def (header_at self.now.sections) self.now.cells.now self.now.lengths.now }
    {
        let at = &self.sections;
        Prefixes {
            table: self.table(),
            days: &self.cells[at.targets..at.labels],
            labels: &self.cells[at.labels..at.reviews],
            weights: &self.cells[at.reviews..at.end],
        }
    }

    /// The deck of a file of cards.
    pub fn cards(&self) -> Cards<'a>
        ensures { cards_now result ≡ cards_in_def (header_at self.now.sections) self.now.cells.now self.now.lengths.now }
    {
        let at = &self.sections;
        Cards {
            table: self.table(),
            labels: &self.cells[at.labels..at.reviews],
            weights: &self.cells[at.reviews..at.end],
        }
    }
}
