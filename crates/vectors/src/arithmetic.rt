// The fused multiply-add, `round` and a double made a single, on a line's three numbers, compared with the fourth.
use crate::given::Given;
use crate::list::{List, Row};
use crate::words::Words;
use soft::fma::{fma_f32, fma_f64};
use soft::half_away::{round_f32, round_f64};
use soft::narrow::narrow;

#[derive(Clone, Copy, Debug, PartialEq, Eq, Hash)]
pub enum Arithmetic {
    FmaF64,
    FmaF32,
    RoundF64,
    RoundF32,
    Narrow,
}

impl List for Arithmetic {
    const ROWS: &'static [Row<Arithmetic>] = &[
        Row(b'F', "fma_f64", Arithmetic::FmaF64),
        Row(b'f', "fma_f32", Arithmetic::FmaF32),
        Row(b'R', "round_f64", Arithmetic::RoundF64),
        Row(b'r', "round_f32", Arithmetic::RoundF32),
        Row(b'n', "narrow", Arithmetic::Narrow),
    ];

    fn is_call(self, words: &Words<'_>) -> bool {
        words.is_of_length(4)
    }

    // Stays: each call takes other arguments, so that a closure for each would be no plainer.
    fn passes(self, words: &Words<'_>, _given: &Given) -> bool {
        match self {
            Arithmetic::FmaF64 => words.is(3, fma_f64(words.at(0), words.at(1), words.at(2))),
            Arithmetic::FmaF32 => words.is(3, fma_f32(words.at(0), words.at(1), words.at(2))),
            Arithmetic::RoundF64 => words.is(3, round_f64(words.at(0))),
            Arithmetic::RoundF32 => words.is(3, round_f32(words.at(0))),
            Arithmetic::Narrow => words.is(3, narrow(words.at(0))),
        }
    }
}
