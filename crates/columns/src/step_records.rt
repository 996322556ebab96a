//! Step records in a lent slice of their own, one for each row and reused for every column. Written forward, read backward;
//! past the end nothing is stored, and an empty record is read.
ghost use Rattle.std.specs.Prelude.{◌≡◌};
ghost use Rattle.columns.specs.StepRecords.{no_step_def};
ghost use Rattle.columns.specs.Layouts.{steps_room, store_steps, load_steps, steps_laws};

use crate::layout::Layout;
use forward::state::{Branch, State, StepRecord};

/// No record: what is read past the end, and what a refused step gives.
#[tactic(auto, unfolding(crate::specs::StepRecords::no_step_def, forward::specs::Step::no_state_def))]
pub fn no_step() -> StepRecord
    ensures { result ≡ no_step_def }
{
    let state = State { s: 0.0, d: 0.0 };
    StepRecord {
        state,
        last: state,
        day: 0.0,
        rating: 0.0,
        retrievability: 0.0,
        pre_s: 0.0,
        pre_d: 0.0,
        branch: Branch::Padding,
    }
}

/// The layout of one record a cell.
#[derive(Clone, Copy, Debug, PartialEq, Eq, Hash)]
pub struct Steps;

impl Layout for Steps {
    type Cell = StepRecord;

    ghost room = { steps_room };

    ghost store = { store_steps };

    ghost load = { load_steps };

    ghost laws = { steps_laws };

    fn room(cells: usize) -> usize {
        cells
    }

    fn store(records: &mut [StepRecord], row: u32, step: &StepRecord) {
        let row = row as usize;
        if row < records.len() {
            records[row] = *step;
        }
    }

    fn load(records: &[StepRecord], row: u32) -> StepRecord {
        let row = row as usize;
        if row < records.len() {
            return records[row];
        }
        no_step()
    }
}
