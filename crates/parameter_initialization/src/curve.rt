// The default curve, whose factor is worked once a call.
ghost use Rattle.std.specs.Prelude.{◌≡◌};
ghost use Rattle.parameter_initialization.specs.Derivatives.{DECAY, recall_factor_def};

use domain::defaults::default_weights;
use kernels::pow::pow;

/// `FSRS6_DEFAULT_PARAMETERS[20] as f64`
#[tactic(auto, unfolding(crate::specs::Derivatives::DECAY))]
pub fn default_decay() -> f64
    ensures { result ≡ DECAY }
{
    f64::from(default_weights()[20])
}

/// `0.9f64.powf(-1.0 / decay) - 1.0`
#[tactic(auto, unfolding(crate::specs::Derivatives::recall_factor_def))]
pub fn recall_factor(decay: f64) -> f64
    ensures { result ≡ recall_factor_def decay }
{
    pow(0.9, -1.0 / decay) - 1.0
}
