// x ^ y of doubles, by the logarithm of x.
ghost use Rattle.std.specs.Prelude.{◌≡◌, ◌+◌, ◌-◌, ◌*◌, ◌/◌, ◌^◌, ◌<◌, ◌≤◌, pos, ◌-ℤ◌, ◌*ℤ◌, neg_ℤ, unsigned_abs};
ghost use Rattle.std.specs.Float.{binary64};
ghost use Rattle.table.specs.Exact.{N};
ghost use Rattle.table.specs.Whole as Whole;
ghost use Rattle.kernels.specs.Power as Power;
ghost use Rattle.kernels.specs.Kernels.{pow_at_def};

use crate::binary::{Binary, Exponent};
use crate::high::hi;
use crate::log::Log;
use crate::power::power;
use crate::whole::signed;
use soft::shifts::shr;
use soft::units::measure;
use soft::wide::product;

// The power of y s, for an s of one word. A y below 2^-58 leaves 1.
fn near(s: i64, y: Exponent<f64>) -> f64
    requires { unsigned_abs s < 2 ^ 62 }
    ensures { result ≡ pow_at_def binary64 s y.number }
{
    let b = y.number.fields();
    if b.exponent < 965 {
        return 1.0;
    }
    let full = (b.digits + 0x10_0000_0000_0000) * 2048;
    let p = product(s.unsigned_abs(), full);
    let size = ((p >> 64) as u64) >> (1028 - b.exponent);
    let z = signed((s < 0) != b.negative, size);
    power(z)
}

// digits * 2^places smallest doubles times (high * 2^32 + low) / 64, cut to a whole number. The lower 32 digits of the
// product leave first, since the whole of it has more than two words.
fn times(digits: u64, places: u64, high: u64, low: u64) -> u128
    requires { (digits < 2 ^ 53) × (places ≤ 1048) × (high < 2 ^ 50) × (low ≤ 2 ^ 32) }
    ensures { result ≡ digits * 2 ^ places * (high * 2 ^ 32 + low) / 2 ^ 1080 }
{
    let s = product(digits, high) + (product(digits, low) >> 32);
    shr(s, 1048 - places)
}

// The power of y (high * 2^32 + low), or of its negative.
fn far(negative: bool, high: u64, low: u64, y: Exponent<f64>) -> f64
    requires { (high < 2 ^ 50) × (low ≤ 2 ^ 32) × (0 < high) }
    ensures { result ≡ pow_at_def binary64 (Whole.signed negative (high * 2 ^ 32 + low)) y.number }
{
    let u = measure(y.number);
    let w = times(u.digits, u.places, high, low);
    // from 2^62 on the power is at its end
    let size = w.min(0x4000_0000_0000_0000) as u64;
    let z = signed(negative != u.negative, size);
    power(z)
}

// x ^ y for an x so small that its logarithm, -(n * 2^50 + h), has no room in a word: rare, and a call of its own.
fn below(n: u64, h: u64, y: Exponent<f64>) -> f64
    requires { (0 < n) × (n ≤ 2 ^ 19) × (h < 2 ^ 52) }
    ensures { result ≡ pow_at_def binary64 (neg_ℤ (pos (n * 2 ^ 50 + h))) y.number }
{
    let high = n * 0x4_0000 + (h >> 32);
    let low = h % 0x1_0000_0000;
    far(true, high, low, y)
}

// And for an x so large that n * 2^50 - h has none.
fn above(n: u64, h: u64, y: Exponent<f64>) -> f64
    requires { (4 < n) × (n ≤ 2 ^ 19) × (h < 2 ^ 52) }
    ensures { result ≡ pow_at_def binary64 (pos (n * 2 ^ 50 - h)) y.number }
{
    let high = n * 0x4_0000 - (h >> 32) - 1;
    let low = 0x1_0000_0000 - h % 0x1_0000_0000;
    far(false, high, low, y)
}

// x ^ y, by the logarithm of x.
pub(crate) fn raised(g: Log, y: Exponent<f64>) -> f64
    ensures { result ≡ pow_at_def binary64 (g.j *ℤ pos (2 ^ 50) -ℤ pos (Power.hi g.l (2 ^ 122 / N))) y.number }
{
    let h = hi(g.l, 0x5c5_51d9_4ae0_bf85);
    if g.j < -4000 {
        return below(g.j.unsigned_abs(), h, y);
    }
    if g.j > 4000 {
        return above(g.j.unsigned_abs(), h, y);
    }
    let a = g.j * 0x4_0000_0000_0000;
    let b = h as i64;
    let s = a - b;
    near(s, y)
}
