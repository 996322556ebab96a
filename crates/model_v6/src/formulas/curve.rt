// The forgetting curve and its inverse. This file fuses, rounds days, and takes its factor from 0.9 to the power 1/decay;
// the training file does none of these.
ghost use Rattle.std.specs.Prelude.{◌≡◌};
ghost use Rattle.model_v6.specs.Curve.{factor_def, days_def, curve_def, interval_def};

use domain::floats::{clamp, max};
use domain::limits::{clamp_interval, floor_stability};
use kernels::pow::pow;
use soft::fma::fma_f32;
use soft::half_away::round_f32;

/// 0.9^(1/decay) - 1
#[tactic(auto, using(domain::proofs::Literals::nine_tenths), unfolding(crate::specs::Curve::factor_def))]
pub fn factor(decay: f32) -> f32
    ensures { result ≡ factor_def decay }
{
    pow(0.9, 1.0 / decay) - 1.0
}

/// Whole days, none below 0.
#[tactic(auto, unfolding(crate::specs::Curve::days_def))]
pub fn whole_days(t: f32) -> f32
    ensures { result ≡ days_def t }
{
    round_f32(max(t, 0.0))
}

#[tactic(auto, unfolding(crate::specs::Curve::curve_def))]
pub fn power_forgetting_curve(w: &[f32; 21], t: f32, s: f32) -> f32
    ensures { result ≡ curve_def w.now t s }
{
    let s = floor_stability(s);
    let decay = -w[20];
    let factor = factor(decay);
    let t = whole_days(t);
    pow(fma_f32(t / s, factor, 1.0), decay)
}

#[tactic(auto, using(domain::proofs::Literals::ten_thousandth, crate::proofs::formulas::curve::Literals::greatest_retention), unfolding(crate::specs::Curve::interval_def))]
pub fn next_interval(w: &[f32; 21], stability: f32, desired_retention: f32) -> f32
    ensures { result ≡ interval_def w.now stability desired_retention }
{
    let stability = floor_stability(stability);
    let desired_retention = clamp(desired_retention, 0.0001, 0.9999);
    let decay = -w[20];
    let raw = stability / factor(decay) * (pow(desired_retention, 1.0 / decay) - 1.0);
    clamp_interval(raw)
}
