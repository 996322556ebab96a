// A shorter weight set made whole, as FSRS-6 reads the sets of its forerunners: model_v6.rs, check_and_fill_parameters_fsrs6.
ghost use Rattle.std.specs.Prelude.{◌≡◌, true, length};
ghost use Rattle.model_v6.specs.Filling.{length_good, fill17, fill19, fill_def, fill_answer};
ghost use Rattle.model_v6.specs.Results.{filled_answered};

use domain::defaults::{all_finite, default_weights};
use domain::refusal::Refusal;
use domain::weights::{check_weights, copy_weights};
use kernels::ln::ln;
use soft::fma::fma_f32;

/// `inference_v6.rs`: the decay that FSRS-5 had for all.
const FSRS5_DEFAULT_DECAY: f32 = 0.5;

/// Whether a version of FSRS has so many weights, or none are given.
fn is_length(n: usize) -> bool
    ensures { result ≡ length_good n }
{
    matches!(n, 0 | 17 | 19 | 21)
}

// Stays: `copy_weights` here and below, since a set to fill may have fewer than 21 entries and is no `Weights`.
/// Weight 4 comes from the old weight 5.
fn filled_17(parameters: &[f32]) -> [f32; 21]
    requires { length parameters.now ≡ 17 }
    ensures { result ≡ fill17 parameters.now }
{
    let mut w = copy_weights(parameters);
    w[4] = fma_f32(parameters[5], 2.0, parameters[4]);
    w[5] = ln(fma_f32(parameters[5], 3.0, 1.0)) / 3.0;
    w[6] = parameters[6] + 0.5;
    w[20] = FSRS5_DEFAULT_DECAY;
    w
}

/// Weights 19 and 20 are added: +0.0, and the decay.
fn filled_19(parameters: &[f32]) -> [f32; 21]
    requires { length parameters.now ≡ 19 }
    ensures { result ≡ fill19 parameters.now }
{
    let mut w = copy_weights(parameters);
    w[20] = FSRS5_DEFAULT_DECAY;
    w
}

/// By the length: the defaults for none.
fn fill(parameters: &[f32]) -> [f32; 21]
    requires { length_good (length parameters.now) ≡ true }
    ensures { result ≡ fill_def parameters.now }
{
    match parameters.len() {
        0 => default_weights(),
        17 => filled_17(parameters),
        19 => filled_19(parameters),
        _ => copy_weights(parameters),
    }
}

#[tactic(auto, using(crate::proofs::filling::Fills::filling))]
/// 12: a length that no version has; 2: a given entry that is not finite, or a filled one outside the box.
pub fn check_and_fill_parameters_fsrs6(parameters: &[f32]) -> Result<[f32; 21], Refusal>
    ensures { filled_answered result ≡ fill_answer parameters.now }
{
    if !is_length(parameters.len()) {
        return Err(Refusal::FillingCount);
    }
    if !all_finite(parameters) {
        return Err(Refusal::WeightBox);
    }
    let weights = fill(parameters);
    check_weights(&weights)?;
    Ok(weights)
}
