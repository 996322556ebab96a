// The digest of slices of numbers, pattern by pattern.
use crate::patterns::Pattern;

const START: u64 = 0xcbf2_9ce4_8422_2325;

// 2^40 + 435.
const FACTOR: u64 = 0x100_0000_01b3;

// The digest h with one more pattern.
fn with(h: u64, pattern: u64) -> u64 {
    let m = (h ^ pattern).wrapping_mul(FACTOR);
    m ^ (m >> 32)
}

fn with_all<T: Pattern>(h: u64, xs: &[T]) -> u64 {
    xs.iter().fold(h, |h, x| with(h, x.pattern()))
}

pub fn digest(slots: &[f64], records: &[f32], grads: &[f64]) -> u64 {
    with_all(with_all(with_all(START, slots), records), grads)
}
