// The first difficulty, the mean reversion and the next difficulty, with their checks.
ghost use Rattle.std.specs.Prelude.{◌≡◌};
ghost use Rattle.model_v6.specs.Results.{answered};
ghost use Rattle.model_v6.specs.Answers.{init_difficulty_scalar_def, mean_reversion_scalar_def, next_difficulty_scalar_def};

use crate::answers::{check_argument, is_rating};
use crate::formulas::difficulty::{init_difficulty, mean_reversion, next_difficulty};
use domain::difficulty::is_difficulty;
use domain::floats::is_finite;
use domain::refusal::Refusal;
use domain::weights::Weights;

/// The difficulty that a first review leaves, unclamped. Refused are the weights (1, 2) and a rating other than 1 to 4 (13).
#[tactic(auto, using(crate::proofs::answers::Answering::entry), unfolding(crate::specs::Answers::init_difficulty_scalar_def))]
pub fn init_difficulty_scalar(w: &[f32], rating: u32) -> Result<f32, Refusal>
    ensures { answered result ≡ init_difficulty_scalar_def w.now rating }
{
    let w = Weights::try_from(w)?;
    check_argument(is_rating(rating))?;
    Ok(init_difficulty(&w.values, rating))
}

/// `current`, drawn toward `init` by weight 7. Refused are the weights (1, 2) and a value that is not finite (13).
#[tactic(auto, using(crate::proofs::answers::Answering::entry), unfolding(crate::specs::Answers::mean_reversion_scalar_def))]
pub fn mean_reversion_scalar(w: &[f32], init: f32, current: f32) -> Result<f32, Refusal>
    ensures { answered result ≡ mean_reversion_scalar_def w.now init current }
{
    let w = Weights::try_from(w)?;
    check_argument(is_finite(init) & is_finite(current))?;
    Ok(mean_reversion(&w.values, init, current))
}

/// The difficulty after a review at the difficulty d. Refused are the weights (1, 2), and a d or rating out of its range (13).
#[tactic(auto, using(crate::proofs::answers::Answering::entry), unfolding(crate::specs::Answers::next_difficulty_scalar_def))]
pub fn next_difficulty_scalar(w: &[f32], d: f32, rating: u32) -> Result<f32, Refusal>
    ensures { answered result ≡ next_difficulty_scalar_def w.now d rating }
{
    let w = Weights::try_from(w)?;
    check_argument(is_difficulty(d) & is_rating(rating))?;
    Ok(next_difficulty(&w.values, d, rating))
}
