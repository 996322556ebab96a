// What the penalty refuses: 1, 2, 5 and 13, in this order.
ghost use Rattle.std.specs.Prelude.{◌≡◌};
ghost use Rattle.domain.specs.Refusals.{number_of};
ghost use Rattle.training_v7.specs.Penalty.{are_sets_def, inside, spread_good, all_spreads_def, size_good, penalty_refusal_def};

use domain::refusal::Refusal;
use domain::weights::check_weights;

/// The greatest size of a batch and the greatest total.
const SIZE_MAX: u64 = 2147483648;

/// Whether each of the three sets has 21 entries.
fn are_sets(w: &[f32], init_w: &[f32], params_stddev: &[f32]) -> bool
    ensures { result ≡ are_sets_def w.now init_w.now params_stddev.now }
{
    (w.len() == 21) & (init_w.len() == 21) & (params_stddev.len() == 21)
}

/// Whether 21 weights are each in their range.
#[tactic(auto, using(crate::proofs::Entry::accepted_is))]
fn is_inside(w: &[f32]) -> bool
    ensures { result ≡ inside w.now }
{
    check_weights(w).is_ok()
}

/// Whether a spread is finite and above 0.
fn is_spread(x: f32) -> bool
    ensures { result ≡ spread_good x }
{
    domain::floats::is_finite(x) & (x > 0.0)
}

fn all_spreads(params_stddev: &[f32]) -> bool
    ensures { result ≡ all_spreads_def params_stddev.now }
{
    params_stddev.iter().all(|x| is_spread(*x))
}

fn is_size(n: u64) -> bool
    ensures { result ≡ size_good n }
{
    n <= SIZE_MAX
}

/// The refusals of the penalty; of the slots only their number counts.
#[tactic(auto, using(crate::proofs::refusals::Tests::refusals))]
pub(crate) fn check_penalty(
    w: &[f32],
    init_w: &[f32],
    batch_size: u64,
    total_size: u64,
    params_stddev: &[f32],
    slots: usize,
) -> Result<(), Refusal>
    ensures { number_of result ≡ penalty_refusal_def w.now init_w.now batch_size total_size params_stddev.now slots }
{
    if !are_sets(w, init_w, params_stddev) {
        return Err(Refusal::WeightCount);
    }
    if !(is_inside(w) & is_inside(init_w)) {
        return Err(Refusal::WeightBox);
    }
    if slots != 21 {
        return Err(Refusal::SlotCount);
    }
    if !(all_spreads(params_stddev) & (is_size(batch_size) & is_size(total_size))) {
        return Err(Refusal::Argument);
    }
    Ok(())
}
