// The deck of a line's call: its rows and columns, and then six slices. A call on cards has targets too, and leaves them out.
use crate::words::Words;
use checks::align::Align;
use checks::deck::{Cards, Prefixes, Table};

/// Where the slices stand, and what follows them.
#[derive(Clone, Copy, Debug)]
pub struct Places<'a> {
    sizes: Words<'a>,
    days: Words<'a>,
    ratings: Words<'a>,
    lengths: Words<'a>,
    targets: Words<'a>,
    labels: Words<'a>,
    weights: Words<'a>,
    pub rest: Words<'a>,
}

/// Room for the slices' numbers. What a slice has over is left out.
// Stays: fixed memory, since no program here has a heap.
#[derive(Clone, Copy, Debug)]
pub struct Numbers {
    days: [f32; 128],
    ratings: [f32; 128],
    lengths: [u32; 512],
    targets: [f32; 128],
    labels: [f32; 128],
    weights: [f32; 128],
}

impl Numbers {
    pub const NONE: Numbers = Numbers {
        days: [0.0; 128],
        ratings: [0.0; 128],
        lengths: [0; 512],
        targets: [0.0; 128],
        labels: [0.0; 128],
        weights: [0.0; 128],
    };
}

impl<'a> Places<'a> {
    pub fn of(words: &Words<'a>) -> Places<'a> {
        let days = words.skip(2);
        let ratings = days.skip_slice();
        let lengths = ratings.skip_slice();
        let targets = lengths.skip_slice();
        let labels = targets.skip_slice();
        let weights = labels.skip_slice();
        Places {
            sizes: *words,
            days,
            ratings,
            lengths,
            targets,
            labels,
            weights,
            rest: weights.skip_slice(),
        }
    }

    /// The deck, in which `numbers` are lent.
    pub fn deck<'b>(&self, numbers: &'b mut Numbers, align: Align) -> Prefixes<'b> {
        let Numbers {
            days,
            ratings,
            lengths,
            targets,
            labels,
            weights,
        } = numbers;
        let table = Table {
            days: self.days.slice(days),
            ratings: self.ratings.slice(ratings),
            rows: self.sizes.at(0),
            columns: self.sizes.at(1),
            lengths: self.lengths.slice(lengths),
            align,
        };
        Prefixes {
            table,
            days: self.targets.slice(targets),
            labels: self.labels.slice(labels),
            weights: self.weights.slice(weights),
        }
    }
}

/// The deck as cards.
pub fn cards_of<'a>(deck: &Prefixes<'a>) -> Cards<'a> {
    Cards {
        table: deck.table,
        labels: deck.labels,
        weights: deck.weights,
    }
}
