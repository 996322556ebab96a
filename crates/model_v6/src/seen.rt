// A review on a day, of a state that carries the day when its card was last seen, with its checks.
ghost use Rattle.std.specs.Prelude.{◌≡◌, IfOk};
ghost use Rattle.domain.specs.Refusals.{number_of};
ghost use Rattle.model_v6.specs.Results.{seen_answered};
ghost use Rattle.model_v6.specs.Seen.{day_number_good, on_day_refusal_def, on_day_scalar};

use crate::answers::check_argument;
use crate::formulas::state::next_state;
use crate::state::{MemoryState, is_finite_state};
use domain::refusal::{Refusal, Refused};
use domain::weights::Weights;

const DAY_NUMBER_MAX: u32 = 100000;

/// A card's state, and the number of the day when it was last seen.
#[derive(Clone, Copy, Debug, PartialEq)]
pub struct Seen {
    pub state: MemoryState,
    pub day: u32,
}

fn is_day_number(day: u32) -> bool
    ensures { result ≡ day_number_good day }
{
    day <= DAY_NUMBER_MAX
}

/// 15 comes last, so that the days of its test are day numbers.
#[tactic(auto, using(crate::proofs::seen::Answering::checks))]
fn check_day(w: &[f32], seen: Seen, day: u32) -> Result<Weights, Refusal>
    ensures refusal { number_of result ≡ on_day_refusal_def w.now seen day }
    ensures weights { IfOk result (λ v. v.values ≡ w.now) }
{
    let days = is_day_number(seen.day) & is_day_number(day);
    let w = Weights::try_from(w)?;
    check_argument(is_finite_state(seen.state) & days)?;
    if day < seen.day {
        return Err(Refusal::Earlier);
    }
    Ok(w)
}

/// The state after a review on `day`, which it then carries. The difference of two day numbers is exact as a single. A refused
/// step hands back the state that it was given: 1, 2 and 13 as in `next_state_scalar`, the day numbers among the arguments, and 15
/// where `day` is before the one that the state carries.
#[tactic(auto, using(crate::proofs::seen::Answering::on_day))]
pub fn next_state_on_scalar(
    w: &[f32],
    seen: Seen,
    day: u32,
    rating: u32,
) -> Result<Seen, Refused<Seen>>
    ensures { seen_answered result ≡ on_day_scalar w.now seen day rating }
{
    let w = check_day(w, seen, day).map_err(|refusal| Refused {
        refusal,
        given: seen,
    })?;
    let elapsed = std::num::nearest_u32_to_f32(day - seen.day);
    let state = next_state(&w.values, seen.state, elapsed, rating);
    Ok(Seen { state, day })
}
