// The reverse of the difficulty's update, and of a first review.
ghost use Rattle.std.specs.Prelude.{◌≡◌};
ghost use Rattle.domain.specs.Weights.{◌!◌};
ghost use Rattle.backward.specs.Difficulty.{init_moved};
ghost use Rattle.backward.specs.Step.{through_difficulty, then_difficulty};

use crate::slots::{add, difficulty_grad};
use domain::difficulty::rating_offset;
use forward::parameters::{RuntimeParams, init_difficulty};
use forward::state::StepRecord;
use kernels::exp::exp;

/// What the slots and the gradient of the difficulty's update share.
#[derive(Clone, Copy, Debug, PartialEq)]
pub struct DifficultyParts {
    pub rating_minus_3: f64,
    pub last_d: f64,
    pub delta_d: f64,
    pub next_d: f64,
    pub w7: f64,
}

impl DifficultyParts {
    ghost use Rattle.backward.specs.Difficulty.{parts_of, difficulty_slots_def, difficulty_grad_def};

    #[tactic(auto, unfolding(crate::specs::Difficulty::difficulty_parts_def))]
    fn of(p: &RuntimeParams, c: &StepRecord) -> DifficultyParts
        ensures { result ≡ parts_of p.now c.now.last.d c.now.rating }
    {
        let rating_minus_3 = f64::from(c.rating - 3.0);
        let last_d = f64::from(c.last.d);
        let delta_d = -f64::from(p.w[6]) * rating_minus_3;
        DifficultyParts {
            rating_minus_3,
            last_d,
            delta_d,
            next_d: last_d + (10.0 - last_d) * delta_d / 9.0,
            w7: f64::from(p.w[7]),
        }
    }

    // Slots 7, 4, 5 and 6, in this order.
    #[tactic(auto, unfolding(crate::specs::Difficulty::difficulty_slots_def))]
    fn slots(&self, p: &RuntimeParams, g: f64, gw: &mut [f64])
        ensures { gw.new ≡ difficulty_slots_def self.now p.now.easy_d_f64 p.now.exp_3w5_f64 g gw.old }
    {
        let g_next = g * (1.0 - self.w7);
        add(gw, 7, g * (p.easy_d_f64 - self.next_d));
        add(gw, 4, g * self.w7);
        add(gw, 5, g * self.w7 * -3.0 * p.exp_3w5_f64);
        add(
            gw,
            6,
            g_next * (10.0 - self.last_d) * -self.rating_minus_3 / 9.0,
        );
    }

    #[tactic(auto, unfolding(crate::specs::Difficulty::difficulty_grad_def))]
    fn grad(&self, g: f64) -> f64
        ensures { result ≡ difficulty_grad_def self.now g }
    {
        let g_next = g * (1.0 - self.w7);
        g_next * (1.0 - self.delta_d / 9.0)
    }
}

// Slots 4 to 7, and the gradient by the difficulty before the review; nothing where the clamp stops the gradient.
#[tactic(auto, unfolding(crate::specs::Difficulty::mean_grad_def, crate::specs::Difficulty::difficulty_back, crate::specs::Difficulty::difficulty_moved))]
pub(crate) fn backward_difficulty(
    p: &RuntimeParams,
    c: &StepRecord,
    g_out: f64,
    gw: &mut [f64],
) -> f64
    ensures { (result ≡ through_difficulty p.now c.now g_out)
        × (gw.new ≡ then_difficulty p.now c.now g_out gw.old) }
{
    if g_out == 0.0 {
        return 0.0;
    }
    let g_mean = g_out * difficulty_grad(c.pre_d);
    if g_mean == 0.0 {
        return 0.0;
    }
    let parts = DifficultyParts::of(p, c);
    parts.slots(p, g_mean, gw);
    parts.grad(g_mean)
}

// The slot of the rating, and then slots 4 and 5 where the difficulty's clamp lets the gradient through.
#[tactic(auto, unfolding(crate::specs::Difficulty::init_moved, crate::specs::Difficulty::init_slots_def, crate::specs::Difficulty::mean_grad_def))]
pub(crate) fn backward_init(p: &RuntimeParams, rating: u32, g_s: f64, g_d: f64, gw: &mut [f64])
    ensures { gw.new ≡ init_moved (p.now.w ! 4) (p.now.w ! 5) rating g_s g_d gw.old }
{
    add(gw, rating.saturating_sub(1) as usize, g_s);
    let g_raw_d = g_d * difficulty_grad(init_difficulty(&p.w, rating));
    if g_raw_d != 0.0 {
        let offset = f64::from(rating_offset(rating));
        add(gw, 4, g_raw_d);
        add(gw, 5, g_raw_d * -offset * exp(offset * f64::from(p.w[5])));
    }
}
