// The forgetting curve's reverse.
ghost use Rattle.std.specs.Prelude.{◌≡◌};
ghost use Rattle.backward.specs.Curve.{curve_back, curve_slots};

use crate::slots::add;
use forward::curve::CurveCache;
use forward::parameters::RuntimeParams;
use kernels::ln::ln;

/// The cached curve in doubles.
#[derive(Clone, Copy, Debug, PartialEq)]
pub struct WideCurve {
    pub t: f64,
    pub s: f64,
    pub decay: f64,
    pub factor: f64,
    pub base: f64,
    pub r: f64,
}

impl From<CurveCache> for WideCurve {
    ghost use Rattle.backward.specs.Curve.{widened_def};

    ghost from_gives = { λ c wide. wide ≡ widened_def c };

    #[tactic(auto, unfolding(crate::specs::Curve::widened_def))]
    fn from(c: CurveCache) -> WideCurve {
        WideCurve {
            t: f64::from(c.t),
            s: f64::from(c.s),
            decay: f64::from(c.decay),
            factor: f64::from(c.factor),
            base: f64::from(c.base),
            r: f64::from(c.retrievability),
        }
    }
}

impl WideCurve {
    ghost use Rattle.backward.specs.Curve.{curve_grad_def, curve_slot_def};

    // What reaches the stability.
    #[tactic(auto, unfolding(crate::specs::Curve::curve_grad_def))]
    fn grad(&self, g_r: f64) -> f64
        ensures { result ≡ curve_grad_def self.now g_r }
    {
        let db_ds = -self.t * self.factor / (self.s * self.s);
        g_r * self.r * self.decay / self.base * db_ds
    }

    // What slot 20 gets.
    #[tactic(auto, unfolding(crate::specs::Curve::curve_slot_def))]
    fn slot(&self, slope: f64, g_r: f64) -> f64
        ensures { result ≡ curve_slot_def self.now slope g_r }
    {
        let db_ddecay = self.t / self.s * slope;
        let dr_ddecay = self.r * (ln(self.base) + self.decay / self.base * db_ddecay);
        -g_r * dr_ddecay
    }
}

/// Goes back through the forgetting curve: `g_r` is the gradient by the retrievability. Slot 20 is added to, and the gradient by
/// the stability returned. Where `g_r` is 0, no slot is touched.
#[tactic(auto, unfolding(crate::specs::Curve::curve_back, crate::specs::Curve::curve_slots))]
pub fn curve_backward(p: &RuntimeParams, cache: CurveCache, g_r: f64, gw: &mut [f64]) -> f64
    ensures { (result ≡ curve_back cache g_r)
        × (gw.new ≡ curve_slots p.now.curve_dfactor_ddecay cache g_r gw.old) }
{
    if g_r == 0.0 {
        return 0.0;
    }
    let c = WideCurve::from(cache);
    add(gw, 20, c.slot(p.curve_dfactor_ddecay, g_r));
    c.grad(g_r)
}
