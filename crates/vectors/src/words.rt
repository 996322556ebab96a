// The words of a line.
use crate::patterns::Pattern;
use domain::refusal::Refusal;

/// The words of a line from some place on. What lies past the last reads as 0. A slice among them is its length and then its
/// numbers.
#[derive(Clone, Copy, Debug)]
pub struct Words<'a> {
    numbers: &'a [u64],
    first: usize,
}

impl<'a> Words<'a> {
    pub fn new(numbers: &'a [u64]) -> Words<'a> {
        Words { numbers, first: 0 }
    }

    /// The words after so many. A length among them may be any number, so places wrap.
    pub fn skip(&self, count: usize) -> Words<'a> {
        Words {
            numbers: self.numbers,
            first: self.first.wrapping_add(count),
        }
    }

    /// Whether they are so many.
    pub fn is_of_length(&self, count: usize) -> bool {
        self.first.wrapping_add(count) == self.numbers.len()
    }

    /// The value of the word at `at`.
    pub fn at<T: Pattern>(&self, at: usize) -> T {
        let at = self.first.wrapping_add(at);
        T::from_pattern(self.numbers.get(at).copied().unwrap_or(0))
    }

    /// Whether `x` stands at `at`.
    pub fn is<T: Pattern>(&self, at: usize, x: T) -> bool {
        self.at::<u64>(at) == x.pattern()
    }

    /// Whether all of `xs` stand from `at` on.
    pub fn are<T: Pattern>(&self, at: usize, xs: &[T]) -> bool {
        let words = self.skip(at);
        xs.iter().enumerate().all(|(i, x)| words.is(i, *x))
    }

    /// Whether the number of the answer's refusal stands at `at`, which is 0 where there is none.
    pub fn is_refusal<T>(&self, at: usize, answer: &Result<T, Refusal>) -> bool {
        let number = match answer {
            Ok(_) => 0,
            Err(refusal) => refusal.number(),
        };
        self.is(at, number)
    }

    /// The words after the slice that stands first.
    pub fn skip_slice(&self) -> Words<'a> {
        self.skip(1).skip(self.at(0))
    }

    /// The slice that stands first, which `to` is set to. Where it is longer, its first numbers.
    pub fn slice<'b, T: Pattern>(&self, to: &'b mut [T]) -> &'b [T] {
        let numbers = self.skip(1);
        for (i, x) in to.iter_mut().enumerate() {
            *x = numbers.at(i);
        }
        first_of(to, self.at(0))
    }
}

/// The first `count`, or all where there are fewer.
pub fn first_of<T>(xs: &mut [T], count: usize) -> &mut [T] {
    let count = count.min(xs.len());
    &mut xs[..count]
}
