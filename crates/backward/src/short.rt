// The reverse of a review on the same day.
ghost use Rattle.std.specs.Prelude.{◌≡◌};
ghost use Rattle.backward.specs.Step.{through_short, then_short};

use crate::slots::add;
use forward::parameters::RuntimeParams;
use forward::state::StepRecord;
use kernels::ln::ln;

// The numbers are those of the record's branch. Where the raw multiplier counts, slots 17, 18 and 19, in this order; where the 1 was
// taken, only the stability itself carries the gradient.
#[tactic(auto, unfolding(crate::specs::Short::short_back_def, crate::specs::Short::short_moved_def, crate::specs::Short::short_slots_def, crate::specs::Short::short_grad_def))]
pub(crate) fn backward_short(
    p: &RuntimeParams,
    c: &StepRecord,
    raw: f32,
    value: f32,
    active: bool,
    g: f64,
    gw: &mut [f64],
) -> f64
    ensures { (result ≡ through_short p.now c.now raw value active g)
        × (gw.new ≡ then_short p.now c.now raw active g gw.old) }
{
    if g == 0.0 {
        return 0.0;
    }
    let through = g * f64::from(value);
    if !active {
        return through;
    }
    let s = f64::from(c.last.s);
    let raw = f64::from(raw);
    let g_raw = g * s;
    let q = f64::from(c.rating - 3.0 + p.w[18]);
    add(gw, 17, g_raw * raw * q);
    add(gw, 18, g_raw * raw * f64::from(p.w[17]));
    add(gw, 19, g_raw * raw * -ln(s));
    through + g_raw * raw * (-f64::from(p.w[19]) / s)
}
