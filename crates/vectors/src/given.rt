// What the lines above a line set.
use crate::words::{Words, first_of};

const WEIGHTS: usize = 128;

const SLOTS: usize = 64;

/// Slots to be lent, and behind them others that are +0.0.
// Stays: fixed memory with a count, here and below, since no program here has a heap.
#[derive(Clone, Copy, Debug)]
pub struct Slots {
    cells: [f64; SLOTS],
    count: usize,
}

impl Slots {
    pub const NONE: Slots = Slots {
        cells: [0.0; SLOTS],
        count: 0,
    };

    /// Those to be lent.
    pub fn lent(&mut self) -> &mut [f64] {
        // Stays: tried in place, and refused: a field is not read in the call that lends another to the caller.
        let count = self.count;
        first_of(&mut self.cells, count)
    }

    pub fn all(&self) -> &[f64] {
        &self.cells
    }
}

/// The weights of the last line w, and the starting slots of the last line g; none before the first.
#[derive(Clone, Copy, Debug)]
pub struct Given {
    weights: [f32; WEIGHTS],
    weight_count: usize,
    slots: Slots,
}

// Whether the words are one slice, of so many numbers at most.
fn are_slice(words: &Words<'_>, most: usize) -> bool {
    words.skip_slice().is_of_length(0) && words.at::<usize>(0) <= most
}

impl Given {
    pub const NONE: Given = Given {
        weights: [0.0; WEIGHTS],
        weight_count: 0,
        slots: Slots::NONE,
    };

    pub fn weights(&self) -> &[f32] {
        &self.weights[..self.weight_count.min(WEIGHTS)]
    }

    pub fn slots(&self) -> Slots {
        self.slots
    }

    /// Takes the words of a line w, if they are weights.
    pub fn set_weights(&mut self, words: &Words<'_>) -> bool {
        if !are_slice(words, WEIGHTS) {
            return false;
        }
        self.weight_count = words.slice(&mut self.weights).len();
        true
    }

    /// Takes the words of a line g, if they are slots.
    pub fn set_slots(&mut self, words: &Words<'_>) -> bool {
        if !are_slice(words, SLOTS) {
            return false;
        }
        self.slots.count = words.slice(&mut self.slots.cells).len();
        true
    }
}
