//! One training step and its reverse.
ghost use Rattle.fsrs6.specs.Step.{GivesReverse, GivesStep};

#[unsafe(no_mangle)]
pub extern "C" fn fsrs_training_step(
    w: &[f32],
    stability: f32,
    difficulty: f32,
    day: f32,
    rating: f32,
    row: usize,
    next_stability: &mut f32,
    next_difficulty: &mut f32,
    numbers: &mut [f32; 10],
) -> u32
    ensures { GivesStep w.now stability difficulty day rating row result
        next_stability.old next_stability.new next_difficulty.old next_difficulty.new numbers.old numbers.new }
{
    fsrs6::step::fsrs_training_step(
        w,
        stability,
        difficulty,
        day,
        rating,
        row,
        next_stability,
        next_difficulty,
        numbers,
    )
}

#[unsafe(no_mangle)]
pub extern "C" fn fsrs_training_step_backward(
    w: &[f32],
    stability: f32,
    difficulty: f32,
    day: f32,
    rating: f32,
    row: usize,
    g_s: f64,
    g_d: f64,
    g_r: f64,
    gw: &mut [f64],
    grad_s: &mut f64,
    grad_d: &mut f64,
) -> u32
    ensures { GivesReverse w.now stability difficulty day rating row g_s g_d g_r result
        gw.old gw.new grad_s.old grad_s.new grad_d.old grad_d.new }
{
    fsrs6::step::fsrs_training_step_backward(
        w, stability, difficulty, day, rating, row, g_s, g_d, g_r, gw, grad_s, grad_d,
    )
}
