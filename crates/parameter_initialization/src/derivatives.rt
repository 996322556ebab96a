// The first and second derivatives, with respect to the stability, of the loss of first recalls: loss_derivatives.
ghost use Rattle.std.specs.Prelude.{◌≡◌};
ghost use Rattle.parameter_initialization.specs.Derivatives.{DECAY, recall_factor_def, row_terms_def, derivatives_of_def, derivatives_def};

use crate::curve::{default_decay, recall_factor};
use crate::recalls::{Recall, Recalls};
use kernels::pow::pow;

#[derive(Clone, Copy, Debug, PartialEq)]
pub struct Derivatives {
    pub slope: f64,
    pub curvature: f64,
}

/// What one row adds to the two sums.
#[tactic(auto, unfolding(crate::specs::Derivatives::row_terms_def))]
fn row_terms(decay: f64, factor: f64, s: f64, row: Recall) -> Derivatives
    ensures { result ≡ row_terms_def decay factor s row.days row.share row.count }
{
    let c = row.days * factor;
    let p = pow(1.0 + c / s, -decay);
    let b = decay * c / (s * (s + c));
    let a = (p - row.share) / (1.0 - p);
    let q = b / (1.0 - p);
    Derivatives {
        slope: row.count * a * b,
        curvature: row.count
            * ((1.0 - row.share) * p * (q * q) - a * b * (1.0 / s + 1.0 / (s + c))),
    }
}

/// The loss of first recalls on the default curve, whose decay and factor are worked once, and not once a round of a search.
#[derive(Clone, Copy, Debug)]
pub(crate) struct Loss<'a> {
    recalls: Recalls<'a>,
    decay: f64,
    factor: f64,
    ghost default_curve: { (decay ≡ DECAY) × (factor ≡ recall_factor_def DECAY) },
}

impl<'a> Loss<'a> {
    pub fn new(recalls: &Recalls<'a>) -> Loss<'a>
        ensures { result.recalls ≡ recalls.now }
    {
        let decay = default_decay();
        Loss {
            recalls: *recalls,
            decay,
            factor: recall_factor(decay),
        }
    }

    /// The slope and the curvature at s.
    pub fn derivatives(&self, s: f64) -> Derivatives
        ensures { result ≡ derivatives_def self.now.recalls.days.now self.now.recalls.shares.now self.now.recalls.counts.now s }
    {
        let mut slope = 0.0;
        let mut curvature = 0.0;
        for i in 0..self.recalls.rows() {
            let d = row_terms(self.decay, self.factor, s, self.recalls.row(i));
            slope += d.slope;
            curvature += d.curvature;
        }
        Derivatives { slope, curvature }
    }
}

/// The slope and the curvature at s, for the default decay. Total: of columns of unlike lengths the shortest counts, as the
/// Rust's zip has it.
pub fn loss_derivatives(delta_t: &[f64], recall: &[f64], count: &[f64], s: f64) -> Derivatives
    ensures { result ≡ derivatives_def delta_t.now recall.now count.now s }
{
    let recalls = Recalls {
        days: delta_t,
        shares: recall,
        counts: count,
    };
    Loss::new(&recalls).derivatives(s)
}
