//! The layout that keeps nothing, for a loss without its gradient: a pass is written once, with records and without.
ghost use Rattle.columns.specs.Layouts.{no_room, store_nothing, load_nothing, untraced_laws};

use crate::layout::Layout;
use crate::step_records::no_step;
use forward::state::StepRecord;

/// No records: a slice of any length has room for none.
#[derive(Clone, Copy, Debug, PartialEq, Eq, Hash)]
pub struct Untraced;

impl Layout for Untraced {
    type Cell = ();

    ghost room = { no_room };

    ghost store = { store_nothing };

    ghost load = { load_nothing };

    ghost laws = { untraced_laws };

    fn room(_cells: usize) -> usize {
        0
    }

    fn store(_records: &mut [()], _row: u32, _step: &StepRecord) {}

    fn load(_records: &[()], _row: u32) -> StepRecord {
        no_step()
    }
}
