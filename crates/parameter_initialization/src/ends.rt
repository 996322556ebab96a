// The ends of the search, singles widened.
ghost use Rattle.std.specs.Prelude.{◌≡◌};
ghost use Rattle.domain.specs.Limits.{s_min_def};
ghost use Rattle.parameter_initialization.specs.Search.{init_s_max_def};

use domain::limits::S_MIN;

const INIT_S_MAX: f32 = 100.0;

/// `S_MIN as f64`
#[tactic(auto, using(domain::proofs::Literals::s_min))]
pub fn lowest() -> f64
    ensures { result ≡ s_min_def }
{
    f64::from(S_MIN)
}

/// `INIT_S_MAX as f64`
#[tactic(auto, using(crate::proofs::Literals::init_s_max))]
pub fn highest() -> f64
    ensures { result ≡ init_s_max_def }
{
    f64::from(INIT_S_MAX)
}
