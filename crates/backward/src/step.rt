// One step's reverse, through the branch that its record names.
ghost use Rattle.std.specs.Prelude.{◌≡◌};
ghost use Rattle.backward.specs.Step.{flow_def, flow_moved, record_curve_def, step_grad, step_moved};

use crate::curve::curve_backward;
use crate::difficulty::{backward_difficulty, backward_init};
use crate::failure::backward_failure;
use crate::grads::Grads;
use crate::short::backward_short;
use crate::slots::{difficulty_grad, stability_grad};
use crate::success::backward_success;
use domain::floats::max;
use forward::curve::CurveCache;
use forward::parameters::RuntimeParams;
use forward::state::{Branch, StepRecord};

/// Gradients by a state's stability and difficulty.
#[derive(Clone, Copy, Debug, PartialEq)]
pub struct StateGrad {
    pub s: f64,
    pub d: f64,
}

// What goes back through the branch, and then through the difficulty's update. Padding hands both gradients on, and a first review
// has no state before it: nothing goes back through the update there. One call of it for all others is one that the compiler inlines.
#[tactic(auto, unfolding(crate::specs::Step::flow_def, crate::specs::Step::flow_moved, crate::specs::Step::carried, crate::specs::Step::first_flow_def, crate::specs::Step::first_moved, crate::specs::Step::short_flow_def, crate::specs::Step::short_all, crate::specs::Step::lapse_flow_def, crate::specs::Step::lapse_all, crate::specs::Step::success_flow_def, crate::specs::Step::success_all, crate::specs::Grads::no_grads_def))]
fn flow(p: &RuntimeParams, c: &StepRecord, g_s: f64, g_d: f64, g_r: f64, gw: &mut [f64]) -> Grads
    ensures { (result ≡ flow_def p.now c.now c.now.branch g_s g_d g_r)
        × (gw.new ≡ flow_moved p.now c.now c.now.branch g_s g_d gw.old) }
{
    let start = Grads {
        r: g_r,
        ..Grads::default()
    };
    let g = match c.branch {
        Branch::Padding => {
            return Grads {
                s: start.s + g_s,
                d: start.d + g_d,
                r: g_r,
            };
        }
        Branch::First(rating) => {
            backward_init(p, rating, g_s, g_d, gw);
            return start;
        }
        Branch::SameDay { raw, value, active } => {
            let s = start.s + backward_short(p, c, raw, value, active, g_s, gw);
            Grads { s, ..start }
        }
        Branch::Lapse {
            raw,
            floor,
            floored,
        } => start + backward_failure(p, c, raw, floor, floored, g_s, gw),
        Branch::Success => start + backward_success(p, c, g_s, gw),
    };
    let d = g.d + backward_difficulty(p, c, g_d, gw);
    Grads { d, ..g }
}

// The step's curve as it was, from its record.
#[tactic(auto, unfolding(crate::specs::Step::record_curve_def, forward::specs::Curve::base_def))]
fn record_curve(p: &RuntimeParams, c: &StepRecord) -> CurveCache
    ensures { result ≡ record_curve_def p.now.curve_decay p.now.curve_factor c.now }
{
    let t = max(c.day, 0.0);
    CurveCache {
        t,
        s: c.last.s,
        decay: p.curve_decay,
        factor: p.curve_factor,
        base: t / c.last.s * p.curve_factor + 1.0,
        retrievability: c.retrievability,
    }
}

/// Goes back through one step, by exactly the branch that its record names. `g_out_s` and `g_out_d` come from the states after,
/// `g_r_extra` from a loss that scored this step's retrievability. The slots are added to.
///
/// Padding hands the gradients on, a first review moves the slots of its weights, and every other goes back through its stability's
/// branch, the difficulty's update and the forgetting curve. A state's clamp is a hard stop outside its range.
#[tactic(auto, unfolding(crate::specs::Step::step_grad, crate::specs::Step::step_moved, crate::specs::Step::pre_grad))]
pub fn step_backward(
    p: &RuntimeParams,
    c: &StepRecord,
    g_out_s: f64,
    g_out_d: f64,
    g_r_extra: f64,
    gw: &mut [f64],
) -> StateGrad
    ensures { (result ≡ step_grad p.now c.now g_out_s g_out_d g_r_extra)
        × (gw.new ≡ step_moved p.now c.now g_out_s g_out_d g_r_extra gw.old) }
{
    let g_pre_s = g_out_s * stability_grad(c.pre_s);
    let g = flow(p, c, g_pre_s, g_out_d, g_r_extra, gw);
    let from_curve = curve_backward(p, record_curve(p, c), g.r, gw);
    StateGrad {
        s: (g.s + from_curve) * stability_grad(c.state.s),
        d: g.d * difficulty_grad(c.state.d),
    }
}
