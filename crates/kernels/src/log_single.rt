// The logarithm of a single, in units of 2^-56, and of 2^-22 of a step. Every product fits one word.
ghost use Rattle.std.specs.Prelude.{◌≡◌, ◌+◌, ◌*◌, ◌^◌, ◌<◌, ◌≤◌, true, false, from_bits, unsigned_abs};
ghost use Rattle.std.specs.Int.Signed.{mag};
ghost use Rattle.std.specs.Float.{binary32};
ghost use Rattle.std.specs.Float.Ieee.{round};
ghost use Rattle.kernels.specs.Kernels.{nearest_of};
ghost use Rattle.kernels.specs.Logarithm.{steps, gap63, low63, low22, cubic};
ghost use Rattle.kernels.specs.inner.Logs.{log_of, step_log_of};
ghost use Rattle.kernels.specs.inner.Single.{digits_of_def, place_of, index_of, step_log_at_def, log_at};

use crate::binary::Positive;
use soft::shifts::digits64;
use table::entry_at;
use table::index::index_at;

// 24 digits with the leading one, and that one's place.
#[derive(Clone, Copy, Debug)]
struct Digits {
    m: u64,
    k: i64,
    ghost least: { 2 ^ 23 ≤ m },
    ghost most: { m < 2 ^ 24 },
    ghost few: { unsigned_abs k ≤ 149 },
}

// How far m, of 24 digits, lies below the entry i, in units of 2^-63 of it.
fn gap_of(d: Digits, i: u64) -> u64
    requires { i ≡ index_of d.m }
    ensures { (result ≡ gap63 i d.m) × (result * 2560 ≤ 12 * 2 ^ 63) }
{
    let p = d.m * (entry_at(256 - i) >> 23);
    0x8000_0000_0000_0000 - p
}

// -ln(1 - g) in units of 2^-22 of a step, by three terms.
fn below_steps(g: u64) -> u64
    requires { g * 2560 ≤ 12 * 2 ^ 63 }
    ensures { (result ≡ low22 g) × (result < 2 ^ 23) }
{
    let e = g >> 24;
    let p = e * 8_068_135;
    let w = 1_549_082_004 + (p >> 32);
    let q = e * e;
    let s = (q >> 31) * w;
    let t = 3_098_164_009 * e;
    let l = t + (s >> 8);
    l >> 40
}

// The same in units of 2^-63, by four.
fn below_ln(g: u64) -> u64
    requires { g * 2560 ≤ 12 * 2 ^ 63 }
    ensures { (result ≡ low63 g) × (result < 2 ^ 56) }
{
    let e = g >> 24;
    let c = 0x2aaa_aaaa + (e >> 10);
    let p = e * c;
    let w = 0x4000_0000 + (p >> 39);
    let q = e * e;
    let s = (q >> 31) * w;
    g + (s >> 15)
}

// The steps of the entry i of the binade k.
fn steps_of(k: i64, i: u64) -> i64
    requires { (unsigned_abs k ≤ 149) × (i ≤ 256) }
    ensures { (result ≡ steps k i) × (unsigned_abs result ≤ 38400) }
{
    let j = k * 256;
    j + i as i64
}

// ln(m / 2^23 * 2^k) in units of 2^-22 of a step.
fn step_log_at(d: Digits) -> i64
    ensures { (result ≡ step_log_at_def d.m d.k) × (mag result < 2 ^ 38) }
{
    let i = index_at(d.m >> 14);
    let l = below_steps(gap_of(d, i));
    let j = steps_of(d.k, i) * 0x40_0000;
    j - l as i64
}

// The same in units of 2^-56, but for the numbers next to 1.
fn log_at(d: Digits) -> i64
    ensures { (result ≡ log_at d.m d.k) × (unsigned_abs result < 2 ^ 63) }
{
    let i = index_at(d.m >> 14);
    let l = below_ln(gap_of(d, i));
    let j = steps_of(d.k, i) * 0xb172_17f7_d1cf;
    j - (l >> 7) as i64
}

// ln(1 + n / 2^23).
fn log_one(n: u64) -> i64
    requires { n < 2 ^ 14 }
    ensures { (result ≡ cubic n) × (unsigned_abs result < 2 ^ 63) }
{
    let q = n * n;
    let c = q * n / 24_576;
    let a = 0x2_0000_0000 * n;
    let s = a + c;
    let t = 512 * q;
    s as i64 - t as i64
}

// A subnormal single is a normal double: these are the digits of any.
fn small(x: Positive<f32>) -> Digits
    ensures { (result.m ≡ digits_of_def x.number) × (result.k ≡ place_of x.number) }
{
    let b = f64::from(x.number).to_bits();
    let m = (0x10_0000_0000_0000 + b % 0x10_0000_0000_0000) >> 29;
    let k = (b >> 52) as i64 - 1023;
    Digits { m, k }
}

// A normal x has its digits and its exponent in its pattern.
fn digits_of(x: Positive<f32>) -> Digits
    ensures { (result.m ≡ digits_of_def x.number) × (result.k ≡ place_of x.number) }
{
    let b = x.number.to_bits() as u64;
    if b < 0x80_0000 {
        return small(x);
    }
    let m = 0x80_0000 + b % 0x80_0000;
    let k = (b >> 23) as i64 - 127;
    Digits { m, k }
}

pub(crate) fn step_log(x: Positive<f32>) -> i64
    ensures { (result ≡ step_log_of binary32 x.number) × (mag result < 2 ^ 38) }
{
    let d = digits_of(x);
    step_log_at(d)
}

pub(crate) fn log(x: Positive<f32>) -> i64
    ensures { (result ≡ log_of binary32 x.number) × (unsigned_abs result < 2 ^ 63) }
{
    let b = x.number.to_bits() as u64;
    if b >> 14 == 0xfe00 {
        return log_one(b % 0x4000);
    }
    let d = digits_of(x);
    log_at(d)
}

// ---- the nearest single

// The pattern, below the sign, of the nearest single to a / 2^56. The smallest a is a normal single's, and 39 of the 63 digits
// are lost: no case is left to test.
fn bits(a: u64) -> u64
    requires { (0 < a) × (a < 2 ^ 63) }
    ensures { (from_bits binary32 result ≡ round binary32 false a (2 ^ 56)) × (from_bits binary32 (2 ^ 31 + result) ≡ round binary32 true a (2 ^ 56)) × (result ≤ 134 * 2 ^ 23) }
{
    let z = digits64(a);
    let n = a << (63 - z);
    let q = (n + 0x3f_ffff_ffff + (n >> 39) % 2) >> 39;
    (z + 69) * 0x80_0000 + q
}

// The nearest single to s / 2^56.
pub(crate) fn nearest(s: i64) -> f32
    requires { unsigned_abs s < 2 ^ 63 }
    ensures { result ≡ nearest_of binary32 s 56 }
{
    if s == 0 {
        return 0.0;
    }
    let b = bits(s.unsigned_abs());
    if s < 0 {
        return f32::from_bits((0x8000_0000 + b) as u32);
    }
    f32::from_bits(b as u32)
}
