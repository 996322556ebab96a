// A file's bytes as little-endian words of four.
ghost use Rattle.std.specs.Prelude.{◌≡◌, ℕ, ◌+◌, ◌≤◌, ◌<◌, ◌^◌, length};
ghost use Rattle.std.specs.Float.{binary32};
ghost use Rattle.std.specs.Float.Ieee.{of_bits};
ghost use Rattle.batch.specs.Words.{word_at_def, entries};

/// Words in the longest file.
pub const WORDS: usize = 16384;

/// The k-th word; 0 where it does not stand in the file whole.
pub fn word_at(file: &[u8], k: usize) -> u32
    ensures { result ≡ word_at_def file.now k }
{
    match file.as_chunks::<4>().0.get(k) {
        Some(word) => u32::from_le_bytes(*word),
        None => 0,
    }
}

/// What one word of a file stands for.
pub trait Entry: Copy {
    ghost of_word: { ℕ → Self };

    fn of_word(word: u32) -> Self
        ensures { result ≡ of_word word };
}

/// A whole number.
impl Entry for u32 {
    ghost of_word = { λ word. word };

    fn of_word(word: u32) -> u32 {
        word
    }
}

/// A single by its pattern. Every NaN's pattern gives the one NaN.
impl Entry for f32 {
    ghost of_word = { of_bits binary32 };

    fn of_word(word: u32) -> f32 {
        std::num::f32_from_bits_with_nan(word)
    }
}

/// Fills `xs` with entries, the first of them the word `from`.
#[tactic(auto, using(crate::proofs::words::Entries::filled))]
pub fn fill<E: Entry>(file: &[u8], from: usize, xs: &mut [E])
    requires { from + length xs.old < 2 ^ 63 }
    ensures { xs.new ≡ entries (λ k. E.of_word (word_at_def file.now k)) from (length xs.old) }
{
    for i in 0..xs.len() {
        xs[i] = E::of_word(word_at(file, from + i));
    }
}
