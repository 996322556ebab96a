// A starting stability from first recalls: initial_stability.
ghost use Rattle.std.specs.Prelude.{◌≡◌};
ghost use Rattle.parameter_initialization.specs.Start.{answered, start_answer};

use crate::recalls::Recalls;
use crate::search::sought;
use domain::refusal::Refusal;
use soft::narrow::narrow;

#[tactic(auto, using(crate::proofs::Entry::entry))]
/// The stability that explains best how many of the cards of one first rating were recalled. A row has the days since the first
/// review, the share that was recalled and the number of cards. No rows give the default. Refused are columns of unlike lengths
/// or of more than 4,096 rows (3), a default outside 0.0001 to 100 (13), and the first row with a bad day (7), share or count (8).
pub fn initial_stability(
    delta_t: &[f64],
    recall: &[f64],
    count: &[f64],
    default_s: f64,
) -> Result<f32, Refusal>
    ensures { answered result ≡ start_answer delta_t.now recall.now count.now default_s }
{
    let recalls = Recalls {
        days: delta_t,
        shares: recall,
        counts: count,
    };
    recalls.check(default_s)?;
    Ok(narrow(sought(&recalls, default_s)))
}
