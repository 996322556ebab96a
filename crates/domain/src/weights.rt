// The box of the 21 weights (`inference_v6.rs`), and the weights as a value.
ghost use Rattle.std.specs.Prelude.{◌≡◌};
ghost use Rattle.domain.specs.Refusals.{number_of};
ghost use Rattle.domain.specs.Taken.{Taken};
ghost use Rattle.domain.specs.Weights.{copy_def, weights_refusal_def};

use crate::floats::is_within;
use crate::limits::{S_MAX, S_MIN};
use crate::refusal::Refusal;

/// The range of each weight, in their order; both ends belong to it, and a NaN to none.
static BOX: [(f32, f32); 21] = [
    (S_MIN, S_MAX),
    (S_MIN, S_MAX),
    (S_MIN, S_MAX),
    (S_MIN, S_MAX),
    (0.0, 20.0),
    (0.0, 4.0),
    (0.0, 6.0),
    (0.0, 1.0),
    (-5.0, 5.0),
    (0.0, 1.0),
    (0.0, 5.0),
    (0.001, 10.0),
    (0.0, 1.0),
    (0.0, 1.0),
    (0.0, 5.0),
    (0.0, 1.0),
    (1.0, 10.0),
    (0.0, 3.0),
    (0.0, 3.0),
    (0.0, 1.0),
    (0.1, 1.0),
];

/// 1 unless there are 21 weights, then 2 unless each is in its range.
pub fn check_weights(w: &[f32]) -> Result<(), Refusal>
    ensures { number_of result ≡ weights_refusal_def w.now }
{
    if w.len() != 21 {
        return Err(Refusal::WeightCount);
    }
    if !w
        .iter()
        .zip(&BOX)
        .all(|(x, (low, high))| is_within(*x, *low, *high))
    {
        return Err(Refusal::WeightBox);
    }
    Ok(())
}

/// 21 weights inside the box.
#[derive(Clone, Copy, Debug, PartialEq)]
pub struct Weights {
    pub values: [f32; 21],
}

impl TryFrom<&[f32]> for Weights {
    type Error = Refusal;

    ghost try_from_gives = { λ w r. Taken w.now r };

    #[tactic(auto, using(crate::proofs::weights::Accepted::accepted_copy))]
    fn try_from(w: &[f32]) -> Result<Weights, Refusal> {
        check_weights(w)?;
        Ok(Weights {
            values: copy_weights(w),
        })
    }
}

/// The weights as a value, as the formulas take them: the first 21, and +0.0 where there are fewer.
pub fn copy_weights(w: &[f32]) -> [f32; 21]
    ensures { result ≡ copy_def w.now }
{
    let n = w.len().min(21);
    let mut v = [0.0; 21];
    v[..n].copy_from_slice(&w[..n]);
    v
}
