// The reverse of a success.
ghost use Rattle.std.specs.Prelude.{◌≡◌};
ghost use Rattle.backward.specs.Step.{through_success, then_success};

use crate::grads::Grads;
use crate::slots::add;
use forward::parameters::RuntimeParams;
use forward::state::StepRecord;
use kernels::exp::exp;
use kernels::pow_ln::pow_ln_f64;

/// What the slots and the gradients of a success share.
#[derive(Clone, Copy, Debug, PartialEq)]
pub struct SuccessParts {
    pub s: f64,
    pub r: f64,
    pub a: f64,
    pub b: f64,
    pub c_s: f64,
    pub ln_s: f64,
    pub e: f64,
    pub exp_e: f64,
    pub hp: f64,
    pub eb: f64,
    pub inc: f64,
    pub g_inc: f64,
    pub w9: f64,
    pub w10: f64,
}

impl SuccessParts {
    ghost use Rattle.backward.specs.Success.{success_of, success_slots_def, success_grads_def};

    #[tactic(auto, unfolding(crate::specs::Success::success_parts_def))]
    fn of(p: &RuntimeParams, c: &StepRecord, g: f64) -> SuccessParts
        ensures { result ≡ success_of p.now c.now.last c.now.rating c.now.retrievability g }
    {
        let s = f64::from(c.last.s);
        let r = f64::from(c.retrievability);
        let w9 = f64::from(p.w[9]);
        let w10 = f64::from(p.w[10]);
        let a = p.exp_w8_f64;
        let b = 11.0 - f64::from(c.last.d);
        // The logarithm behind the power is that of slot 9.
        let of_s = pow_ln_f64(s, -w9);
        let e = exp((1.0 - r) * w10) - 1.0;
        let hp = f64::from(if c.rating == 2.0 { p.w[15] } else { 1.0 });
        let eb = f64::from(if c.rating == 4.0 { p.w[16] } else { 1.0 });
        SuccessParts {
            s,
            r,
            a,
            b,
            c_s: of_s.pow,
            ln_s: of_s.ln,
            e,
            exp_e: e + 1.0,
            hp,
            eb,
            inc: a * b * of_s.pow * e * hp * eb,
            g_inc: g * s,
            w9,
            w10,
        }
    }

    // Slots 8, 9 and 10, and 15 if the rating is 2, 16 if it is 4.
    #[tactic(auto, unfolding(crate::specs::Success::success_slots_def, crate::specs::Slots::bump_if))]
    fn slots(&self, rating: f32, gw: &mut [f64])
        ensures { gw.new ≡ success_slots_def self.now rating gw.old }
    {
        let g_abc = self.g_inc * self.a * self.b * self.c_s;
        add(gw, 8, self.g_inc * self.inc);
        add(gw, 9, self.g_inc * self.inc * -self.ln_s);
        add(
            gw,
            10,
            g_abc * self.hp * self.eb * ((1.0 - self.r) * self.exp_e),
        );
        if rating == 2.0 {
            add(gw, 15, g_abc * self.e * self.eb);
        }
        if rating == 4.0 {
            add(gw, 16, g_abc * self.e * self.hp);
        }
    }

    #[tactic(auto, unfolding(crate::specs::Success::success_grads_def))]
    fn grads(&self, g: f64) -> Grads
        ensures { result ≡ success_grads_def self.now g }
    {
        Grads {
            s: g * (self.inc + 1.0) + self.g_inc * self.inc * (-self.w9 / self.s),
            d: -(self.g_inc * self.a * self.c_s * self.e * self.hp * self.eb),
            r: self.g_inc
                * self.a
                * self.b
                * self.c_s
                * self.hp
                * self.eb
                * (-self.w10 * self.exp_e),
        }
    }
}

#[tactic(auto, unfolding(crate::specs::Grads::no_grads_def, crate::specs::Success::success_back_def, crate::specs::Success::success_moved_def))]
pub(crate) fn backward_success(p: &RuntimeParams, c: &StepRecord, g: f64, gw: &mut [f64]) -> Grads
    ensures { (result ≡ through_success p.now c.now g)
        × (gw.new ≡ then_success p.now c.now g gw.old) }
{
    if g == 0.0 {
        return Grads::default();
    }
    let parts = SuccessParts::of(p, c, g);
    parts.slots(c.rating, gw);
    parts.grads(g)
}
