// The reverse of a lapse.
ghost use Rattle.std.specs.Prelude.{◌≡◌};
ghost use Rattle.backward.specs.Step.{through_lapse, then_lapse};

use crate::grads::Grads;
use crate::slots::add;
use forward::parameters::RuntimeParams;
use forward::state::StepRecord;
use kernels::exp::exp;
use kernels::pow_ln::pow_ln_f64;

/// What the slots and the gradients of a raw lapse share.
#[derive(Clone, Copy, Debug, PartialEq)]
pub struct LapseParts {
    pub d: f64,
    pub r: f64,
    pub base: f64,
    pub p: f64,
    pub ln_base: f64,
    pub last_d_pow: f64,
    pub ln_d: f64,
    pub er: f64,
    pub w11: f64,
    pub w12: f64,
    pub w13: f64,
    pub w14: f64,
    pub raw: f64,
}

impl LapseParts {
    ghost use Rattle.backward.specs.Failure.{lapse_of, lapse_slots_def, lapse_grads_def};

    #[tactic(auto, unfolding(crate::specs::Failure::lapse_parts_def))]
    fn of(p: &RuntimeParams, c: &StepRecord, raw: f32) -> LapseParts
        ensures { result ≡ lapse_of p.now c.now.last c.now.retrievability raw }
    {
        let d = f64::from(c.last.d);
        let r = f64::from(c.retrievability);
        let w12 = f64::from(p.w[12]);
        let w13 = f64::from(p.w[13]);
        let w14 = f64::from(p.w[14]);
        let base = f64::from(c.last.s) + 1.0;
        // The logarithms behind the powers are those of slots 13 and 12.
        let of_base = pow_ln_f64(base, w13);
        let of_d = pow_ln_f64(d, -w12);
        LapseParts {
            d,
            r,
            base,
            p: of_base.pow,
            ln_base: of_base.ln,
            last_d_pow: of_d.pow,
            ln_d: of_d.ln,
            er: exp((1.0 - r) * w14),
            w11: f64::from(p.w[11]),
            w12,
            w13,
            w14,
            raw: f64::from(raw),
        }
    }

    // Slots 11, 12, 13 and 14, in this order.
    #[tactic(auto, unfolding(crate::specs::Failure::lapse_slots_def))]
    fn slots(&self, g: f64, gw: &mut [f64])
        ensures { gw.new ≡ lapse_slots_def self.now g gw.old }
    {
        add(gw, 11, g * self.raw / self.w11);
        add(gw, 12, g * self.raw * -self.ln_d);
        add(
            gw,
            13,
            g * self.w11 * self.last_d_pow * self.er * self.p * self.ln_base,
        );
        add(gw, 14, g * self.raw * (1.0 - self.r));
    }

    #[tactic(auto, unfolding(crate::specs::Failure::lapse_grads_def))]
    fn grads(&self, g: f64) -> Grads
        ensures { result ≡ lapse_grads_def self.now g }
    {
        Grads {
            s: g * self.w11 * self.last_d_pow * self.er * self.w13 * self.p / self.base,
            d: g * self.raw * (-self.w12 / self.d),
            r: g * self.raw * -self.w14,
        }
    }
}

// The numbers are those of the record's branch. Where the floor was taken, slots 17 and 18; else those of the raw value.
#[tactic(auto, unfolding(crate::specs::Grads::no_grads_def, crate::specs::Failure::failure_back, crate::specs::Failure::failure_moved, crate::specs::Failure::floor_grads, crate::specs::Failure::floor_slots))]
pub(crate) fn backward_failure(
    p: &RuntimeParams,
    c: &StepRecord,
    raw: f32,
    floor: f32,
    floored: bool,
    g: f64,
    gw: &mut [f64],
) -> Grads
    ensures { (result ≡ through_lapse p.now c.now raw floor floored g)
        × (gw.new ≡ then_lapse p.now c.now raw floor floored g gw.old) }
{
    if g == 0.0 {
        return Grads::default();
    }
    if floored {
        let s = f64::from(c.last.s);
        let floor = f64::from(floor);
        add(gw, 17, g * floor * -f64::from(p.w[18]));
        add(gw, 18, g * floor * -f64::from(p.w[17]));
        return Grads {
            s: g * (floor / s),
            d: 0.0,
            r: 0.0,
        };
    }
    let parts = LapseParts::of(p, c, raw);
    parts.slots(g, gw);
    parts.grads(g)
}
