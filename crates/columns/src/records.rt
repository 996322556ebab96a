//! Step records as plain columns of singles in one lent slice: ten columns of equal length one after another, and row i of
//! each belongs to record i. The branch stands as a small number. Written forward, read backward.
ghost use Rattle.std.specs.Prelude.{◌≡◌, ◌+◌, ◌/◌, ◌*◌, ◌<◌, List, length, Float};
ghost use Rattle.domain.specs.Weights.{◌!◌};
ghost use Rattle.columns.specs.Records.{branch_cells_def, branch_of_def, place, room_def, load_def, store_def};
ghost use Rattle.columns.specs.Layouts.{store_columns, load_columns, columns_laws};
ghost use Rattle.columns.specs.inner.Numbers.{numbers_of, record_of_def};

use crate::layout::Layout;
use checks::tables::{cell_or, put_cell};
use forward::state::{Branch, State, StepRecord};
use forward::step::{clamp_state, rating_number};

// A branch and its two numbers, +0.0 where it has none.
// Stays: a branch's number in its column is the C interface (FSRS_BRANCH_PADDING and those after it in include/fsrs6.h).
#[derive(Clone, Copy, Debug, PartialEq)]
struct BranchCells {
    number: f32,
    a: f32,
    b: f32,
}

#[tactic(auto, unfolding(crate::specs::Records::branch_cells_def, crate::specs::Records::plain_cells, crate::specs::Records::chosen_cells))]
fn branch_cells(branch: Branch) -> BranchCells
    ensures { result ≡ branch_cells_def branch }
{
    let (number, a, b) = match branch {
        Branch::Padding => (0.0, 0.0, 0.0),
        Branch::First(_) => (1.0, 0.0, 0.0),
        Branch::SameDay { raw, value, active } => (if active { 2.0 } else { 3.0 }, raw, value),
        Branch::Lapse {
            raw,
            floor,
            floored,
        } => (if floored { 5.0 } else { 4.0 }, raw, floor),
        Branch::Success => (6.0, 0.0, 0.0),
    };
    BranchCells { number, a, b }
}

// A first review's rating is that of the record.
#[tactic(auto, unfolding(crate::specs::Records::branch_of_def))]
fn branch_of(number: f32, rating: f32, a: f32, b: f32) -> Branch
    ensures { result ≡ branch_of_def number rating a b }
{
    if number == 0.0 {
        return Branch::Padding;
    }
    if number == 1.0 {
        return Branch::First(rating_number(rating));
    }
    if number == 2.0 {
        return Branch::SameDay {
            raw: a,
            value: b,
            active: true,
        };
    }
    if number == 3.0 {
        return Branch::SameDay {
            raw: a,
            value: b,
            active: false,
        };
    }
    if number == 4.0 {
        return Branch::Lapse {
            raw: a,
            floor: b,
            floored: false,
        };
    }
    if number == 5.0 {
        return Branch::Lapse {
            raw: a,
            floor: b,
            floored: true,
        };
    }
    Branch::Success
}

// A record's numbers, in the order of the columns. The clamped state is not among them.
#[tactic(auto, unfolding(crate::specs::inner::Numbers::numbers_of))]
fn numbers_of(step: &StepRecord) -> [f32; 10]
    ensures { result ≡ numbers_of step.now }
{
    let branch = branch_cells(step.branch);
    [
        step.state.s,
        step.state.d,
        step.day,
        step.rating,
        step.retrievability,
        step.pre_s,
        step.pre_d,
        branch.number,
        branch.a,
        branch.b,
    ]
}

// The clamped state is worked out again.
#[tactic(auto, unfolding(crate::specs::inner::Numbers::record_of_def))]
fn record_of(numbers: &[f32; 10]) -> StepRecord
    ensures { result ≡ record_of_def numbers.now }
{
    let state = State {
        s: numbers[0],
        d: numbers[1],
    };
    StepRecord {
        state,
        last: clamp_state(state),
        day: numbers[2],
        rating: numbers[3],
        retrievability: numbers[4],
        pre_s: numbers[5],
        pre_d: numbers[6],
        branch: branch_of(numbers[7], numbers[3], numbers[8], numbers[9]),
    }
}

/// The layout of ten columns of singles, a column for each number of a record.
#[derive(Clone, Copy, Debug, PartialEq, Eq, Hash)]
pub struct Columns;

impl Layout for Columns {
    type Cell = f32;

    ghost room = { room_def };

    ghost store = { store_columns };

    ghost load = { load_columns };

    ghost laws = { columns_laws };

    #[tactic(auto, unfolding(crate::specs::Records::room_def))]
    fn room(cells: usize) -> usize {
        cells / 10
    }

    // Past the room a row's cell is another column's, and is written where the slice has it.
    // Stays: one test of the row stands for ten of its cells, and a row that tests each takes longer, by 1 to 3 in a hundred.
    fn store(records: &mut [f32], row: u32, step: &StepRecord) {
        let room = records.len() / 10;
        let row = row as usize;
        let numbers = numbers_of(step);
        if row < room {
            for (field, number) in numbers.iter().enumerate() {
                records[field * room + row] = *number;
            }
        } else {
            for (field, number) in numbers.iter().enumerate() {
                put_cell(records, field * room + row, *number);
            }
        }
    }

    fn load(records: &[f32], row: u32) -> StepRecord {
        let room = records.len() / 10;
        let row = row as usize;
        let mut numbers = [0.0; 10];
        if row < room {
            for (field, number) in numbers.iter_mut().enumerate() {
                *number = records[field * room + row];
            }
        } else {
            for (field, number) in numbers.iter_mut().enumerate() {
                *number = cell_or(records, field * room + row, f32::NAN);
            }
        }
        record_of(&numbers)
    }
}
