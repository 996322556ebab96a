// The weights of a run, and what is worked out of them once.
ghost use Rattle.std.specs.Prelude.{◌≡◌};
ghost use Rattle.domain.specs.Weights.{◌!◌};
ghost use Rattle.forward.specs.Params.{curve_factor_def, curve_slope_def, init_difficulty_of};

use domain::difficulty::rating_offset;
use kernels::exp::exp;
use kernels::ln::ln;

/// The 21 weights of a run, and the numbers that each step takes from them, worked out once.
#[derive(Clone, Copy, Debug, PartialEq)]
pub struct RuntimeParams {
    pub w: [f32; 21],
    /// `-w[20]`
    pub curve_decay: f32,
    /// `exp(ln(0.9) / curve_decay) - 1`: at a day equal to the stability the curve is at 0.9.
    pub curve_factor: f32,
    /// The factor's derivative by the decay.
    pub curve_dfactor_ddecay: f64,
    pub exp_w8: f32,
    pub exp_w8_f64: f64,
    /// `exp(w[17] * w[18])`: a lapse leaves at most the stability divided by this.
    pub failure_floor_divisor: f32,
    /// The initial difficulty of rating 4, to which the difficulty reverts.
    pub easy_d: f32,
    pub easy_d_f64: f64,
    pub exp_3w5_f64: f64,
}

impl RuntimeParams {
    ghost use Rattle.forward.specs.Params.{params_def};

    #[tactic(auto, unfolding(crate::specs::Params::params_def))]
    pub fn new(w: &[f32; 21]) -> RuntimeParams
        ensures { result ≡ params_def w.now }
    {
        let curve_decay = -w[20];
        let easy_d = init_difficulty(w, 4);
        RuntimeParams {
            w: *w,
            curve_decay,
            curve_factor: curve_factor(curve_decay),
            curve_dfactor_ddecay: curve_slope(f64::from(curve_decay)),
            exp_w8: exp(w[8]),
            exp_w8_f64: exp(f64::from(w[8])),
            failure_floor_divisor: exp(w[17] * w[18]),
            easy_d,
            easy_d_f64: f64::from(easy_d),
            exp_3w5_f64: exp(3.0 * f64::from(w[5])),
        }
    }
}

#[tactic(auto, using(domain::proofs::Literals::nine_tenths), unfolding(crate::specs::Params::curve_factor_def))]
fn curve_factor(decay: f32) -> f32
    ensures { result ≡ curve_factor_def decay }
{
    exp(ln(0.9) / decay) - 1.0
}

// The factor's derivative by the decay.
#[tactic(auto, using(crate::proofs::parameters::Literals::nine_tenths_double), unfolding(crate::specs::Params::curve_slope_def))]
fn curve_slope(decay: f64) -> f64
    ensures { result ≡ curve_slope_def decay }
{
    let c = ln(0.9);
    let exp_term = exp(c / decay);
    exp_term * (-c / (decay * decay))
}

/// The difficulty that a first review leaves, before its clamp: `w[4] - exp(w[5] * (rating - 1)) + 1`.
/// A rating of 0 counts as 1.
#[tactic(auto, unfolding(crate::specs::Params::init_difficulty_of))]
pub fn init_difficulty(w: &[f32; 21], rating: u32) -> f32
    ensures { result ≡ init_difficulty_of (w.now ! 4) (w.now ! 5) rating }
{
    w[4] - exp(w[5] * rating_offset(rating)) + 1.0
}
