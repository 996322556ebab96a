//! A batch file's header taken apart: which call the file holds, and where each of its sections stands.
ghost use Rattle.std.specs.Prelude.{◌≡◌, ◌+◌, ◌*◌, ◌≤◌, eqb, length, IfOk, MatchResult, false};
ghost use Rattle.domain.specs.declared.refusal.Refusal.TheVariants.{File};
ghost use Rattle.batch.specs.Header.{header_def, sections_def, is_kind_def, placed, offset_is, target_count, score_count};

use crate::words::word_at;
use domain::refusal::Refusal;

const MAX_ROWS: u32 = 512;

const MAX_BYTES: usize = 65536;

/// Which call a batch file holds, by its number in the header.
#[derive(Clone, Copy, Debug, PartialEq, Eq, Hash)]
pub enum Kind {
    Prefixes = 1,
    Cards = 2,
}

impl TryFrom<u32> for Kind {
    ghost use Rattle.batch.specs.Sections.{kind_number};

    type Error = Refusal;

    ghost try_from_gives = { λ n r. MatchResult r (λ k. kind_number k ≡ n) (λ e. (e ≡ File) × (is_kind_def n ≡ false)) };

    #[tactic(auto, unfolding(crate::specs::Header::is_kind_def))]
    fn try_from(number: u32) -> Result<Kind, Refusal> {
        match number {
            1 => Ok(Kind::Prefixes),
            2 => Ok(Kind::Cards),
            _ => Err(Refusal::File),
        }
    }
}

impl Kind {
    ghost use Rattle.batch.specs.Sections.{kind_number};

    // A card has no target days.
    #[tactic(auto, unfolding(crate::specs::Header::target_count))]
    fn targets(self, columns: usize) -> usize
        ensures count { result ≡ target_count (kind_number self) columns }
        ensures bound { result ≤ columns }
    {
        match self {
            Kind::Prefixes => columns,
            Kind::Cards => 0,
        }
    }

    // A card's labels and review weights are tables.
    #[tactic(auto, unfolding(crate::specs::Header::score_count))]
    fn scores(self, columns: usize, cells: usize) -> usize
        ensures count { result ≡ score_count (kind_number self) columns cells }
        ensures bound { result ≤ columns + cells }
    {
        match self {
            Kind::Prefixes => columns,
            Kind::Cards => cells,
        }
    }
}

/// Where each section begins, and the file's end, in words of four bytes. They follow one another with no gap.
#[derive(Clone, Copy, Debug, PartialEq, Eq, Hash)]
pub struct Sections {
    pub kind: Kind,
    pub rows: u32,
    pub columns: u32,
    pub weights: usize,
    pub days: usize,
    pub ratings: usize,
    pub lengths: usize,
    pub targets: usize,
    pub labels: usize,
    pub reviews: usize,
    pub end: usize,
    ghost in_order: { (weights ≤ days) × (days ≤ ratings) × (ratings ≤ lengths) × (lengths + columns ≡ targets) ×
        (targets ≤ labels) × (labels ≤ reviews) × (reviews ≤ end) },
}

impl Sections {
    ghost use Rattle.batch.specs.Sections.{kind_number, header_at, header_read};

    #[tactic(auto, unfolding(crate::specs::Header::sections_def))]
    fn new(kind: Kind, rows: u32, columns: u32) -> Sections
        requires { rows ≤ 512 }
        ensures { header_at result ≡ sections_def (kind_number kind) rows columns }
    {
        let width = columns as usize;
        let cells = rows as usize * width;
        let scores = kind.scores(width, cells);
        let ratings = 31 + cells;
        let lengths = ratings + cells;
        let targets = lengths + width;
        let labels = targets + kind.targets(width);
        let reviews = labels + scores;
        Sections {
            kind,
            rows,
            columns,
            weights: 10,
            days: 31,
            ratings,
            lengths,
            targets,
            labels,
            reviews,
            end: reviews + scores,
        }
    }

    // Whether the header has each section where it stands, and the file ends where the last one does.
    #[tactic(auto, unfolding(crate::specs::Header::placed))]
    fn are_placed(&self, file: &[u8]) -> bool
        ensures { result ≡ placed file.now (header_at self.now) }
    {
        let tables = is_at(file, 4, self.days) & is_at(file, 5, self.ratings);
        let columns = is_at(file, 6, self.lengths) & is_at(file, 7, self.targets);
        let scores = is_at(file, 8, self.labels) & is_at(file, 9, self.reviews);
        let ends = is_at(file, 3, self.weights) & is_four_times(file.len(), self.end);
        (ends & tables) & (columns & scores)
    }

    /// The sections of a file; `Refusal::File` where it is malformed.
    #[tactic(auto, using(crate::proofs::sections::Headers::not_kind))]
    pub fn read(file: &[u8]) -> Result<Sections, Refusal>
        ensures header { header_read result ≡ header_def file.now }
        ensures fits { IfOk result (λ s. s.end ≤ 16384) }
    {
        let kind = Kind::try_from(word_at(file, 0))?;
        let rows = word_at(file, 1);
        if rows > MAX_ROWS || file.len() > MAX_BYTES {
            return Err(Refusal::File);
        }
        let sections = Sections::new(kind, rows, word_at(file, 2));
        if sections.are_placed(file) {
            Ok(sections)
        } else {
            Err(Refusal::File)
        }
    }
}

// Whether n is four times k, which might not fit.
fn is_four_times(n: usize, k: usize) -> bool
    ensures { result ≡ eqb n (4 * k) }
{
    n % 4 == 0 && n / 4 == k
}

// Whether the header's i-th word is the offset of the word k.
#[tactic(auto, unfolding(crate::specs::Header::offset_is))]
fn is_at(file: &[u8], i: usize, k: usize) -> bool
    ensures { result ≡ offset_is file.now i k }
{
    is_four_times(word_at(file, i) as usize, k)
}
