// How a review moves the stability: on the same day, after a lapse, after a success. Each gives the branch with the
// numbers that its reverse needs, and the stability before the clamp.
ghost use Rattle.std.specs.Prelude.{◌≡◌};
ghost use Rattle.domain.specs.Weights.{◌!◌};
ghost use Rattle.forward.specs.Stability.{short_def, lapse_def, success_def};

use crate::parameters::RuntimeParams;
use crate::state::{Branch, Move, State};
use domain::floats::max;
use kernels::exp::exp;
use kernels::pow::pow;

#[tactic(auto, unfolding(crate::specs::Stability::short_def, crate::specs::Stability::short_raw_def, crate::specs::Stability::short_value_def, crate::specs::Stability::is_floored_def))]
pub(crate) fn same_day(p: &RuntimeParams, last: State, rating: f32) -> Move
    ensures { result ≡ short_def (p.now.w ! 17) (p.now.w ! 18) (p.now.w ! 19) last.s rating }
{
    let raw = exp(p.w[17] * (rating - 3.0 + p.w[18])) * pow(last.s, -p.w[19]);
    // A recalled card does not lose by a review on the same day. Exactly 1 counts as raw.
    let value = if rating >= 2.0 { max(raw, 1.0) } else { raw };
    let active = !(rating >= 2.0 && raw < 1.0);
    Move {
        s: last.s * value,
        branch: Branch::SameDay { raw, value, active },
    }
}

#[tactic(auto, unfolding(crate::specs::Stability::lapse_def, crate::specs::Stability::lapse_raw_def, crate::specs::Stability::lapse_move_def))]
pub(crate) fn lapse(p: &RuntimeParams, last: State, r: f32) -> Move
    ensures { result
        ≡ lapse_def (p.now.w ! 11) (p.now.w ! 12) (p.now.w ! 13) (p.now.w ! 14) p.now.failure_floor_divisor last r }
{
    let raw = p.w[11]
        * pow(last.d, -p.w[12])
        * (pow(last.s + 1.0, p.w[13]) - 1.0)
        * exp((1.0 - r) * p.w[14]);
    let floor = last.s / p.failure_floor_divisor;
    // The floor is taken only where it is below the raw value; equality takes the raw value.
    let floored = floor < raw;
    Move {
        s: if floored { floor } else { raw },
        branch: Branch::Lapse {
            raw,
            floor,
            floored,
        },
    }
}

#[tactic(auto, unfolding(crate::specs::Stability::success_def))]
pub(crate) fn success(p: &RuntimeParams, last: State, rating: f32, r: f32) -> Move
    ensures { result
        ≡ success_def p.now.exp_w8 (p.now.w ! 9) (p.now.w ! 10) (p.now.w ! 15) (p.now.w ! 16) last rating r }
{
    let hard_penalty = if rating == 2.0 { p.w[15] } else { 1.0 };
    let easy_bonus = if rating == 4.0 { p.w[16] } else { 1.0 };
    let success_inc = p.exp_w8
        * (11.0 - last.d)
        * pow(last.s, -p.w[9])
        * (exp((1.0 - r) * p.w[10]) - 1.0)
        * hard_penalty
        * easy_bonus;
    Move {
        s: last.s * (success_inc + 1.0),
        branch: Branch::Success,
    }
}
