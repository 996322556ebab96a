// Why a call is refused, and its number, which a C function returns: 0 is for none.
ghost use Rattle.std.specs.Prelude.{◌≡◌};
ghost use Rattle.domain.specs.Refusals.{number};

use std::error::Error;
use std::fmt;

/// Why a call was refused.
#[derive(Clone, Copy, Debug, PartialEq, Eq, Hash)]
pub enum Refusal {
    WeightCount = 1,
    WeightBox = 2,
    Sizes = 3,
    Room = 4,
    SlotCount = 5,
    Rating = 6,
    Day = 7,
    Review = 8,
    EmptyPrefix = 9,
    Kernel = 10,
    File = 11,
    FillingCount = 12,
    Argument = 13,
    Import = 14,
    Earlier = 15,
}

impl Refusal {
    pub fn number(self) -> u32
        ensures { result ≡ number self }
    {
        self as u32
    }
}

impl From<Refusal> for u32 {
    ghost from_gives = { λ e n. n ≡ number e };

    fn from(e: Refusal) -> u32 {
        e.number()
    }
}

impl fmt::Display for Refusal {
    fn fmt<W: fmt::Write>(&self, f: &mut fmt::Formatter<W>) -> fmt::Result {
        f.write_str(match self {
            Refusal::WeightCount => "not 21 weights",
            Refusal::WeightBox => "a weight is outside its range",
            Refusal::Sizes => "rows or columns are over the limit, or an input slice is too short",
            Refusal::Room => "too few records or step gradients for the longest column",
            Refusal::SlotCount => "not 21 gradient slots",
            Refusal::Rating => "a rating is not 0, 1, 2, 3 or 4",
            Refusal::Day => "a day is out of range",
            Refusal::Review => "a review weight, a label, a share or a count is out of range",
            Refusal::EmptyPrefix => "a prefix has the length 0",
            Refusal::Kernel => "an argument is outside the kernel's domain",
            Refusal::File => "the batch file is malformed",
            Refusal::FillingCount => "a weight set to fill has not 0, 17, 19 or 21 entries",
            Refusal::Argument => "an argument is not finite or out of range",
            Refusal::Import => "a card from SM-2 gets no finite stability or difficulty",
            Refusal::Earlier => "the day is earlier than the one on which the card was last seen",
        })
    }
}

impl Error for Refusal {}

/// A refusal that hands back what the call was given.
#[derive(Clone, Copy, Debug, PartialEq, Eq, Drop)]
pub struct Refused<T> {
    pub refusal: Refusal,
    pub given: T,
}

impl<T: Copy> From<Refused<T>> for Refusal {
    ghost from_gives = { λ r e. e ≡ r.refusal };

    fn from(r: Refused<T>) -> Refusal {
        r.refusal
    }
}
