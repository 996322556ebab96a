// x ^ y of singles, by the logarithm of x.
ghost use Rattle.std.specs.Prelude.{◌≡◌, ◌^◌, ◌<◌, pos, ◌*ℤ◌};
ghost use Rattle.std.specs.Int.Signed.{mag, shr_z};
ghost use Rattle.std.specs.Float.{binary32};
ghost use Rattle.kernels.specs.Power as Power;
ghost use Rattle.kernels.specs.Kernels.{pow_at_def};

use crate::binary::{Binary, Exponent};
use crate::power::power;
use crate::whole::signed;

// l * m / 2^s, rounded down.
fn product_down(l: i64, m: i64, s: u64) -> i64
    requires { (mag (l *ℤ m) < 2 ^ 63) × (s < 64) }
    ensures { result ≡ shr_z (l *ℤ m) (2 ^ s) }
{
    let p = l * m;
    p >> s
}

// The power of v in units of 8. Where v * 8 has no room in a word, the power is at its end.
fn eighths(v: i64) -> f32
    ensures { result ≡ Power.power binary32 (v *ℤ pos 8) }
{
    if v < -0xfc_0000_0000_0000 {
        return 0.0;
    }
    if v >= 0x100_0000_0000_0000 {
        return f32::INFINITY;
    }
    let z = v * 8;
    power(z)
}

// x ^ y, by the logarithm l of x. A y below 2^-59 leaves 1.
pub(crate) fn raised(l: i64, y: Exponent<f32>) -> f32
    requires { mag l < 2 ^ 38 }
    ensures { result ≡ pow_at_def binary32 l y.number }
{
    let b = y.number.fields();
    if b.exponent < 68 {
        return 1.0;
    }
    let digits = b.digits + 0x80_0000;
    let m = signed(b.negative, digits);
    let s = 131 - b.exponent;
    let v = product_down(l, m, s);
    eighths(v)
}
