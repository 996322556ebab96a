//! A starting stability from first recalls.
#![tactic(auto, using(crate::proofs::Given::given), unfolding(crate::specs::Places::written))]

ghost use Rattle.fsrs6.specs.Study.{GivesStart};
ghost use Rattle.parameter_initialization.specs.Start.{start_answer};

use crate::places::answer;
use parameter_initialization::stability::initial_stability;

pub fn fsrs_initial_stability(
    delta_t: &[f64],
    recall: &[f64],
    count: &[f64],
    default_stability: f64,
    stability: &mut f32,
) -> u32
    ensures { GivesStart (start_answer delta_t.now recall.now count.now default_stability) result stability.old stability.new }
{
    answer(
        initial_stability(delta_t, recall, count, default_stability),
        stability,
    )
}
