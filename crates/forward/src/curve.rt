// The forgetting curve of training. It neither fuses nor rounds days: the study screen's curve, in `model_v6`, does both.
ghost use Rattle.std.specs.Prelude.{◌≡◌};
ghost use Rattle.forward.specs.Curve.{curve_forward_def};

use crate::parameters::RuntimeParams;
use domain::floats::max;
use kernels::pow::pow;

/// The curve at one day, with what its reverse needs.
#[derive(Clone, Copy, Debug, PartialEq)]
pub struct CurveCache {
    pub t: f32,
    pub s: f32,
    pub decay: f32,
    pub factor: f32,
    pub base: f32,
    pub retrievability: f32,
}

/// The power forgetting curve, `R(t, s) = (1 + max(t, 0) / s * factor)^decay`.
/// A day below 0, or -0.0, counts as +0.0.
#[tactic(auto, unfolding(crate::specs::Curve::curve_forward_def, crate::specs::Curve::base_def))]
pub fn curve_forward(p: &RuntimeParams, t: f32, s: f32) -> CurveCache
    ensures { result ≡ curve_forward_def p.now.curve_decay p.now.curve_factor t s }
{
    let t = max(t, 0.0);
    let base = t / s * p.curve_factor + 1.0;
    CurveCache {
        t,
        s,
        decay: p.curve_decay,
        factor: p.curve_factor,
        base,
        retrievability: pow(base, p.curve_decay),
    }
}
