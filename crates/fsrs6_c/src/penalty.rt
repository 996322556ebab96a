//! The pull toward the old weights. The slots are written, and not added to.
ghost use Rattle.fsrs6.specs.Losses.{GivesPenalty};

#[unsafe(no_mangle)]
pub extern "C" fn fsrs_l2_penalty(
    w: &[f32],
    init_w: &[f32],
    batch_size: u64,
    total_size: u64,
    l2_weight: f64,
    params_stddev: &[f32],
    slots: &mut [f32],
    penalty: &mut f64,
) -> u32
    ensures { GivesPenalty w.now init_w.now batch_size total_size l2_weight params_stddev.now result
        slots.old slots.new penalty.old penalty.new }
{
    fsrs6::penalty::fsrs_l2_penalty(
        w,
        init_w,
        batch_size,
        total_size,
        l2_weight,
        params_stddev,
        slots,
        penalty,
    )
}
