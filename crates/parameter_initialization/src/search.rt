// The search for the least loss: Newton's steps inside a bracket, and halves of it where such a step leaves it. All is worked in
// double, a NaN or an infinity among it; only the two stopping tests compare singles.
ghost use Rattle.std.specs.Prelude.{◌≡◌};
ghost use Rattle.parameter_initialization.specs.Derivatives.{derivatives_def};
ghost use Rattle.parameter_initialization.specs.Search.{
  rounds_def,
  narrowed,
  middle,
  same_single,
  next_guess_def,
  search_def,
  side_def,
  flat,
  keeps,
  sought_def,
};

use crate::derivatives::Loss;
use crate::ends::{highest, lowest};
use crate::recalls::Recalls;
use soft::narrow::narrow;

const ROUNDS: u32 = 80;

/// Where the least loss is looked for, and the guess so far.
#[derive(Clone, Copy, Debug, PartialEq)]
pub struct Bracket {
    pub low: f64,
    pub high: f64,
    pub s: f64,
}

impl Bracket {
    /// The half on the side to which the loss falls at the guess.
    #[tactic(auto, unfolding(crate::specs::Search::narrowed))]
    fn narrowed(self, slope: f64) -> Bracket
        ensures { result ≡ narrowed self slope }
    {
        if slope > 0.0 {
            Bracket {
                high: self.s,
                ..self
            }
        } else {
            Bracket {
                low: self.s,
                ..self
            }
        }
    }

    #[tactic(auto, unfolding(crate::specs::Search::middle))]
    fn middle(self) -> f64
        ensures { result ≡ middle self }
    {
        (self.low + self.high) / 2.0
    }

    /// Newton's step where the loss curves upward and the step stays strictly inside, else the middle.
    #[tactic(auto, unfolding(crate::specs::Search::next_guess_def))]
    fn next_guess(self, slope: f64, curvature: f64) -> f64
        ensures { result ≡ next_guess_def self slope curvature }
    {
        let newton = self.s - slope / curvature;
        if (curvature > 0.0) & ((newton > self.low) & (newton < self.high)) {
            newton
        } else {
            self.middle()
        }
    }
}

/// The side of the default on which the least loss lies, the prior's slope there, and the side's far end.
#[derive(Clone, Copy, Debug, PartialEq)]
pub struct Side {
    pub low: f64,
    pub high: f64,
    pub prior: f64,
    pub boundary: f64,
}

/// `x as f32 == y as f32`
#[tactic(auto, unfolding(crate::specs::Search::same_single))]
fn is_same_single(x: f64, y: f64) -> bool
    ensures { result ≡ same_single x y }
{
    narrow(x) == narrow(y)
}

/// At most so many rounds. The double that is found is left as it is: the caller narrows it once.
fn search(loss: &Loss<'_>, prior: f64, start: Bracket) -> f64
    ensures { result ≡ search_def (derivatives_def loss.now.recalls.days.now loss.now.recalls.shares.now loss.now.recalls.counts.now) prior rounds_def start }
{
    let mut b = start;
    let mut round = 0u32;
    // Stays: the loop is left from inside and yields its double by `break`, a rule of the project for this search.
    let found = loop {
        if round == ROUNDS {
            break b.middle();
        }
        let d = loss.derivatives(b.s);
        let slope = d.slope + prior;
        let c = b.narrowed(slope);
        if is_same_single(c.low, c.high) {
            break c.middle();
        }
        let next = c.next_guess(slope, d.curvature);
        if is_same_single(next, b.s) {
            break next;
        }
        b = Bracket { s: next, ..c };
        round += 1;
    };
    found
}

/// `slope.abs() <= 1.0 / 16.0`
#[tactic(auto, unfolding(crate::specs::Search::flat))]
fn is_flat(slope: f64) -> bool
    ensures { result ≡ flat slope }
{
    (-0.0625 <= slope) & (slope <= 0.0625)
}

/// By the slope at the default.
#[tactic(auto, unfolding(crate::specs::Search::side_def))]
fn side_of(here: f64, default_s: f64) -> Side
    ensures { result ≡ side_def here default_s }
{
    if here > 0.0 {
        let low = lowest();
        return Side {
            low,
            high: default_s,
            prior: -0.0625,
            boundary: low,
        };
    }
    let high = highest();
    Side {
        low: default_s,
        high,
        prior: 0.0625,
        boundary: high,
    }
}

/// Whether the slope has the default's sign at the boundary too.
#[tactic(auto, unfolding(crate::specs::Search::keeps))]
fn keeps_sign(slope: f64, boundary_slope: f64) -> bool
    ensures { result ≡ keeps slope boundary_slope }
{
    ((slope > 0.0) & (boundary_slope >= 0.0)) | ((slope < 0.0) & (boundary_slope <= 0.0))
}

/// The stability that is sought, as a double.
pub(crate) fn sought(recalls: &Recalls<'_>, default_s: f64) -> f64
    ensures { result ≡ sought_def (derivatives_def recalls.now.days.now recalls.now.shares.now recalls.now.counts.now)
        default_s }
{
    let loss = Loss::new(recalls);
    let here = loss.derivatives(default_s);
    if is_flat(here.slope) {
        return default_s;
    }
    let side = side_of(here.slope, default_s);
    let there = loss.derivatives(side.boundary);
    if keeps_sign(here.slope, there.slope + side.prior) {
        return side.boundary;
    }
    let start = Bracket {
        low: side.low,
        high: side.high,
        s: default_s,
    };
    search(&loss, side.prior, start)
}
