// How many lines of each call were tried and passed, the first line that failed, and the account of these on standard output.
use crate::list::Row;
use std::{fmt, io};

// More than any list has calls.
// Stays: a tally for each, in fixed memory, since no program here has a heap.
const CALLS: usize = 32;

/// What became of a line. A remark or a line that only sets numbers is not tried; a call has its row in the list's table.
#[derive(Clone, Copy, Debug, PartialEq, Eq, Hash)]
pub enum Outcome {
    Untried,
    Tried { row: usize, passed: bool },
    Malformed,
}

/// How many lines passed, of how many.
#[derive(Clone, Copy, Debug, PartialEq, Eq, Hash)]
pub struct Tally {
    passed: u64,
    tried: u64,
}

impl Tally {
    const NONE: Tally = Tally {
        passed: 0,
        tried: 0,
    };

    fn add(&mut self, other: Tally) {
        self.passed = self.passed.wrapping_add(other.passed);
        self.tried = self.tried.wrapping_add(other.tried);
    }

    fn add_line(&mut self, passed: bool) {
        self.add(Tally {
            passed: u64::from(passed),
            tried: 1,
        });
    }

    // A row that has no line goes unsaid.
    fn print(&self, rt: &impl Print, name: &str) -> io::Result<()> {
        if self.tried == 0 {
            return Ok(());
        }
        println!(rt; "{name} {self}")
    }
}

impl fmt::Display for Tally {
    fn fmt<W: fmt::Write>(&self, f: &mut fmt::Formatter<W>) -> fmt::Result {
        let Tally { passed, tried } = *self;
        write!(f, "{passed} of {tried}")
    }
}

/// The account of a list.
#[derive(Clone, Copy, Debug)]
pub struct Counts {
    rows: [Tally; CALLS],
    malformed: Tally,
    first_failed: Option<u64>,
}

impl Counts {
    pub const NONE: Counts = Counts {
        rows: [Tally::NONE; CALLS],
        malformed: Tally::NONE,
        first_failed: None,
    };

    fn add_failed(&mut self, line: u64) {
        if self.first_failed.is_none() {
            self.first_failed = Some(line);
        }
    }

    /// Counts a line.
    pub fn add(&mut self, outcome: Outcome, line: u64) {
        match outcome {
            Outcome::Untried => {}
            Outcome::Tried { row, passed } => {
                if let Some(tally) = self.rows.get_mut(row) {
                    tally.add_line(passed);
                }
                if !passed {
                    self.add_failed(line);
                }
            }
            Outcome::Malformed => {
                self.malformed.add_line(false);
                self.add_failed(line);
            }
        }
    }

    fn total(&self) -> Tally {
        let mut total = self.malformed;
        for tally in &self.rows {
            total.add(*tally);
        }
        total
    }

    /// Prints the rows by their names, the first line that failed, and the total. Nothing tried is a failure.
    pub fn print<C>(&self, rt: &impl Print, rows: &[Row<C>]) -> io::Result<()> {
        let total = self.total();
        if total.tried == 0 {
            return println!(rt; "failed: no line was tried");
        }
        for (tally, Row(_, name, _)) in self.rows.iter().zip(rows) {
            tally.print(rt, *name)?;
        }
        self.malformed.print(rt, "malformed")?;
        if let Some(line) = self.first_failed {
            println!(rt; "the first that failed is line {line}")?;
        }
        println!(rt; "total {total}")
    }
}
