//! One training step, explained.
ghost use Rattle.std.specs.Prelude.{◌≡◌, Ok};
ghost use Rattle.explain.specs.Results.{explain_answered};
ghost use Rattle.explain.specs.Step.{before_clamp_def, explained, explain_def};

use crate::reasons::{Held, Reason, held_at, reason_of};
use analytic_v6::step::training_step;
use domain::difficulty::{D_MAX, D_MIN};
use domain::limits::{S_MAX, S_MIN};
use domain::refusal::Refusal;
use forward::state::{Branch, State, StepRecord};

/// Why the card moved, and where each number of its state was held.
#[derive(Clone, Copy, Debug, PartialEq, Eq, Hash)]
pub struct Explained {
    pub reason: Reason,
    pub stability: Held,
    pub difficulty: Held,
}

// In padding a record's own numbers before the clamp are the clamped ones, and the given state is what was clamped.
#[tactic(auto, unfolding(crate::specs::Step::is_padding_def, crate::specs::Step::before_clamp_def))]
fn before_clamp(step: &StepRecord) -> State
    ensures { result ≡ before_clamp_def step.now }
{
    if matches!(step.branch, Branch::Padding) {
        return step.state;
    }
    State {
        s: step.pre_s,
        d: step.pre_d,
    }
}

impl Explained {
    #[tactic(auto, using(domain::proofs::Literals::s_min, domain::proofs::Literals::s_max), unfolding(crate::specs::Step::explained))]
    fn of(step: &StepRecord) -> Explained
        ensures { explain_answered (Ok result) ≡ explained step.now }
    {
        let before = before_clamp(step);
        Explained {
            reason: reason_of(step.branch, step.rating),
            stability: held_at(before.s, S_MIN, S_MAX),
            difficulty: held_at(before.d, D_MIN, D_MAX),
        }
    }
}

/// Why `training_step` gives what it gives, for the same arguments; refused as that is.
#[tactic(auto, using(crate::proofs::Explaining::explaining))]
pub fn explain_step(
    w: &[f32],
    state: State,
    day: f32,
    rating: f32,
    row: usize,
) -> Result<Explained, Refusal>
    ensures { explain_answered result ≡ explain_def w.now state day rating row }
{
    let step = training_step(w, state, day, rating, row)?.step;
    Ok(Explained::of(&step))
}
