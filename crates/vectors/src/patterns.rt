// Numbers and truths by their patterns, as the vectors have them. Every NaN has one pattern.
use std::num::{
    f32_from_bits_with_nan, f32_to_bits_with_nan, f64_from_bits_with_nan, f64_to_bits_with_nan,
};

/// A type whose values stand in a line as words.
pub trait Pattern: Copy {
    /// The value of a word; one of 32 bits stands in the lower half.
    fn from_pattern(word: u64) -> Self;

    /// The word of a value.
    fn pattern(self) -> u64;
}

impl Pattern for f64 {
    fn from_pattern(word: u64) -> f64 {
        f64_from_bits_with_nan(word)
    }

    fn pattern(self) -> u64 {
        f64_to_bits_with_nan(self)
    }
}

impl Pattern for f32 {
    fn from_pattern(word: u64) -> f32 {
        f32_from_bits_with_nan(u32::from_pattern(word))
    }

    fn pattern(self) -> u64 {
        f32_to_bits_with_nan(self).pattern()
    }
}

impl Pattern for u64 {
    fn from_pattern(word: u64) -> u64 {
        word
    }

    fn pattern(self) -> u64 {
        self
    }
}

impl Pattern for usize {
    fn from_pattern(word: u64) -> usize {
        word as usize
    }

    fn pattern(self) -> u64 {
        self as u64
    }
}

impl Pattern for u32 {
    fn from_pattern(word: u64) -> u32 {
        (word % 0x1_0000_0000) as u32
    }

    fn pattern(self) -> u64 {
        u64::from(self)
    }
}

impl Pattern for bool {
    fn from_pattern(word: u64) -> bool {
        word == 1
    }

    fn pattern(self) -> u64 {
        u64::from(self)
    }
}

/// Sets `to` to the values of patterns that count up by one from `first`, and wrap.
pub fn count_up<T: Pattern>(first: u64, to: &mut [T]) {
    let mut word = first;
    for x in to.iter_mut() {
        *x = T::from_pattern(word);
        word = word.wrapping_add(1);
    }
}
