// The steps of exp, ln and pow that a format has of its own.
ghost use Rattle.std.specs.Prelude.{◌≡◌, ℕ, ◌+◌, ◌-◌, ◌*◌, ◌^◌, ◌<◌, ◌≤◌, ℤ, pos, suc, T};
ghost use Rattle.std.proofs.Math.IntN.{sub_ℕ};
ghost use Rattle.std.specs.Float.Ieee.{emax, hid, low, ones};
ghost use Rattle.std.specs.Float.Ieee.Positive.{positive};
ghost use Rattle.kernels.specs.Kernels.{turns, powered, ln_def, pow_def};
ghost use Rattle.kernels.specs.Power as Power;
ghost use Rattle.kernels.specs.inner.Fields.{least, most};
ghost use Rattle.kernels.specs.inner.Power.{Normal};

use crate::binary::Binary;
use crate::parts::Parts;

// What the two formats share is one text: `exp::exp`, `ln::ln`, `pow::pow` and `power::power`.
// Stays: two of each method here, since they are different algorithms, of one word or of cut products, with a definition each.

/// A format with its power of two.
pub trait PowerOfTwo: Binary {
    /// The exponents' fields at which exp has a turn to count: below them it is 1, above them it is at its end.
    const FIRST: u64;

    const LAST: u64;

    /// The exponent's field of an infinity.
    const ONES: u64;

    /// The ends of the normal range.
    const LEAST: i64;

    const MOST: i64;

    ghost FIRST: { ℕ };

    ghost LAST: { ℕ };

    ghost ONES: { ℕ };

    ghost LEAST: { ℤ };

    ghost MOST: { ℤ };

    /// A number in units of 2^-44 of a step, by its digits below the leading one and its exponent's field.
    fn turns(digits: u64, exponent: u64) -> u64
        requires { (digits < hid Self.format) × (least Self.format ≤ exponent) × (exponent ≤ most Self.format) }
        ensures { (result ≡ turns Self.format ((hid Self.format + digits) * 2 ^ (exponent - 1)) (2 ^ low Self.format)) × (result < 2 ^ 63) };

    /// The table's power and the part of a step.
    fn significand(parts: Parts) -> u64
        ensures { (result ≡ Power.significand Self.format parts.i parts.f) × (2 ^ Power.places Self.format ≤ result) × (result < 2 ^ suc (Power.places Self.format)) };

    /// A significand times 2^k, rounded once to nearest.
    fn assemble(k: i64, m: u64) -> Self
        requires { Normal Self.format k × (2 ^ Power.places Self.format ≤ m) × (m < 2 ^ suc (Power.places Self.format)) }
        ensures { result ≡ Self.of (Power.finish Self.format k m) };

    ghost ends: { (FIRST ≡ least Self.format) × (LAST ≡ most Self.format) × (ONES ≡ ones Self.format) × (LEAST ≡ sub_ℕ 1 (emax Self.format)) × (MOST ≡ pos (emax Self.format)) };
}

/// A format with its logarithm and the power that stands on it.
pub trait Kernel: PowerOfTwo {
    fn ln(x: Self) -> Self
        requires { T (positive (Self.float x)) }
        ensures { result ≡ Self.of (ln_def Self.format (Self.float x)) };

    fn pow(x: Self, y: Self) -> Self
        requires { T (positive (Self.float x)) × T (powered (Self.float y)) }
        ensures { result ≡ Self.of (pow_def Self.format (Self.float x) (Self.float y)) };
}
