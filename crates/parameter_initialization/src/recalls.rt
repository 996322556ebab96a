// First recalls, and what a starting stability refuses of them: 3, 13, then by row 7 and 8.
ghost use Rattle.std.specs.Prelude.{◌≡◌, length};
ghost use Rattle.domain.specs.Refusals.{number_of};
ghost use Rattle.checks.specs.Tables.{least};
ghost use Rattle.parameter_initialization.specs.Derivatives.{◌at◌};
ghost use Rattle.parameter_initialization.specs.Start.{sized, default_good, day_good_def, share_good, count_good, row_number_def, rows_number_def, start_refusal_def};

use crate::ends::{highest, lowest};
use checks::tables::cell_or;
use domain::refusal::Refusal;

const MAX_ROWS: usize = 4096;

const DAY_MAX: f64 = 100000.0;

/// 2^32
const COUNT_MAX: f64 = 4294967296.0;

/// A row: the days since the first review, the share of the cards that was recalled, and how many cards there were.
#[derive(Clone, Copy, Debug, PartialEq)]
pub(crate) struct Recall {
    pub days: f64,
    pub share: f64,
    pub count: f64,
}

impl Recall {
    #[tactic(auto, using(crate::proofs::Literals::day_max))]
    fn is_day(self) -> bool
        ensures { result ≡ day_good_def self.days }
    {
        (self.days > 0.0) & (self.days <= DAY_MAX)
    }

    fn is_share(self) -> bool
        ensures { result ≡ share_good self.share }
    {
        (0.0 <= self.share) & (self.share <= 1.0)
    }

    #[tactic(auto, using(crate::proofs::Literals::count_max))]
    fn is_count(self) -> bool
        ensures { result ≡ count_good self.count }
    {
        (self.count > 0.0) & (self.count <= COUNT_MAX)
    }

    #[tactic(auto, using(crate::proofs::Rows::row))]
    fn check(self) -> Result<(), Refusal>
        ensures { number_of result ≡ row_number_def self.days self.share self.count }
    {
        if !self.is_day() {
            return Err(Refusal::Day);
        }
        if !(self.is_share() & self.is_count()) {
            return Err(Refusal::Review);
        }
        Ok(())
    }
}

// Stays: the C interface lends days, shares and counts as three slices; `row` puts a row of them together.
/// The rows, by column.
#[derive(Clone, Copy, Debug)]
pub(crate) struct Recalls<'a> {
    pub days: &'a [f64],
    pub shares: &'a [f64],
    pub counts: &'a [f64],
}

impl Recalls<'_> {
    /// How many rows there are: of columns of unlike lengths the shortest counts, as the Rust's zip has it.
    pub fn rows(&self) -> usize
        ensures { result ≡ least (length self.now.days.now) (least (length self.now.shares.now) (length self.now.counts.now)) }
    {
        self.days
            .len()
            .min(self.shares.len().min(self.counts.len()))
    }

    /// Row i, whose cells past their column's end are +0.0.
    pub fn row(&self, i: usize) -> Recall
        ensures { (result.days ≡ self.now.days.now at i) × (result.share ≡ self.now.shares.now at i) × (result.count ≡ self.now.counts.now at i) }
    {
        Recall {
            days: cell_or(self.days, i, 0.0),
            share: cell_or(self.shares, i, 0.0),
            count: cell_or(self.counts, i, 0.0),
        }
    }

    fn is_sized(&self) -> bool
        ensures { result ≡ sized (length self.now.days.now) (length self.now.shares.now) (length self.now.counts.now) }
    {
        let rows = self.days.len();
        (rows == self.shares.len()) & (rows == self.counts.len()) & (rows <= MAX_ROWS)
    }

    /// The first bad row's refusal.
    fn check_rows(&self) -> Result<(), Refusal>
        ensures { number_of result ≡ rows_number_def self.now.days.now self.now.shares.now self.now.counts.now }
    {
        for i in 0..self.days.len() {
            self.row(i).check()?;
        }
        Ok(())
    }

    /// The refusals of a search that starts at `default_s`.
    #[tactic(auto, unfolding(crate::specs::Start::start_refusal_def))]
    pub fn check(&self, default_s: f64) -> Result<(), Refusal>
        ensures { number_of result ≡ start_refusal_def self.now.days.now self.now.shares.now self.now.counts.now default_s }
    {
        if !self.is_sized() {
            return Err(Refusal::Sizes);
        }
        if !is_default(default_s) {
            return Err(Refusal::Argument);
        }
        self.check_rows()
    }
}

fn is_default(default_s: f64) -> bool
    ensures { result ≡ default_good default_s }
{
    (lowest() <= default_s) & (default_s <= highest())
}
