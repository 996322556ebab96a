//! The pull toward the old weights. The slots are written, and not added to.
#![tactic(auto, using(crate::proofs::Given::given), unfolding(crate::specs::Places::written))]

ghost use Rattle.fsrs6.specs.Losses.{GivesPenalty};

use crate::places::answer;
use training_v7::penalty::l2_penalty_value_and_grad;

// Stays: the C interface fixes the names and the parameters of these functions, of which many take eight and more.

pub fn fsrs_l2_penalty(
    w: &[f32],
    init_w: &[f32],
    batch_size: u64,
    total_size: u64,
    l2_weight: f64,
    params_stddev: &[f32],
    slots: &mut [f32],
    penalty: &mut f64,
) -> u32
    ensures { GivesPenalty w.now init_w.now batch_size total_size l2_weight params_stddev.now result
        slots.old slots.new penalty.old penalty.new }
{
    let answered = l2_penalty_value_and_grad(
        w,
        init_w,
        batch_size,
        total_size,
        l2_weight,
        params_stddev,
        slots,
    );
    answer(answered, penalty)
}
