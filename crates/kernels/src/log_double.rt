// The logarithm of a double: ln x is j ln 2 / 256 less l / 2^64.
ghost use Rattle.std.specs.Prelude.{◌≡◌, ◌+◌, ◌*◌, ◌/◌, ◌^◌, ◌<◌, ◌≤◌, pos, ◌+ℤ◌, ◌-ℤ◌, ◌*ℤ◌};
ghost use Rattle.std.specs.Int.Signed.{mag, shr_z};
ghost use Rattle.std.specs.Float.{binary64};
ghost use Rattle.std.specs.Float.Ieee.{of_int};
ghost use Rattle.table.specs.Entry.{index_at_def};
ghost use Rattle.table.specs.Exact.{N};
ghost use Rattle.table.specs.Whole.{rest_z};
ghost use Rattle.kernels.specs.Kernels.{nearest_of};
ghost use Rattle.kernels.specs.Logarithm.{interval, steps, gap64, low64};
ghost use Rattle.kernels.specs.inner.Logs.{Logged};

use crate::binary::Positive;
use crate::high::hi;
use crate::log::Log;
use soft::shifts::digits64;
use soft::units::measure;
use table::entry_at;
use table::index::index_at;

// How far m / 2^63 lies below the entry i, in units of 2^-64 of it: the entry's partner is 2^125 / entry, cut.
fn gap(m: u64, i: u64) -> u64
    requires { (2 ^ 63 ≤ m) × (i ≡ index_at_def (interval m)) }
    ensures { (result ≡ gap64 i m) × (result * 2560 ≤ 12 * 2 ^ 64) }
{
    let t = entry_at(256 - i);
    let p = hi(m, 2 * t);
    let d = 0x8000_0000_0000_0000 - p;
    2 * d
}

// -ln(1 - g) by seven terms. The upper ones are of fewer digits, since their place in the sum asks for no more.
fn below(g: u64) -> u64
    requires { g * 2560 ≤ 12 * 2 ^ 64 }
    ensures { (result ≡ low64 g) × (result < 2 ^ 57) }
{
    let e = g >> 24;
    let p7 = e * 0x4924_9249;
    let h6 = 0x5555_5555 + (p7 >> 40);
    let p6 = e * h6;
    let h5 = 0x6666_6666 + (p6 >> 40);
    let p5 = e * h5;
    let h4 = 0x8000_0000 + (p5 >> 40);
    let p4 = e * h4;
    let h3 = 0x5555_5555_5555_5555 + (p4 >> 9);
    let h2 = 0x8000_0000_0000_0000 + hi(g, h3);
    g + hi(g, hi(g, h2))
}

// The logarithm of m / 2^63 * 2^k.
fn log_at(m: u64, k: i64) -> Log
    requires { (2 ^ 63 ≤ m) × (mag k < 1100) }
    ensures { (result.j ≡ steps k (index_at_def (interval m))) × (result.l ≡ low64 (gap64 (index_at_def (interval m)) m)) }
{
    let i = index_at(m >> 54);
    let g = gap(m, i);
    let l = below(g);
    let s = k * 256;
    let j = s + i as i64;
    Log { j, l }
}

// Of any x, by its digits and their places: of a subnormal one, whose digits do not start at the pattern's.
fn log_small(x: Positive<f64>) -> Log
    ensures { Logged x.number result }
{
    let u = measure(x.number);
    let z = digits64(u.digits);
    let n = u.places + z;
    let m = u.digits << (64 - z);
    let k = n as i64 - 1075;
    log_at(m, k)
}

// A normal x has its digits and its exponent in its pattern.
pub(crate) fn log(x: Positive<f64>) -> Log
    ensures { Logged x.number result }
{
    let b = x.number.to_bits();
    let field = b >> 52;
    if field == 0 {
        return log_small(x);
    }
    let m = 0x8000_0000_0000_0000 + b % 0x10_0000_0000_0000 * 2048;
    let k = field as i64 - 1023;
    log_at(m, k)
}

// ---- the nearest double

// What the last 22 digits of N64 add to j N64 - l.
fn rest(g: Log) -> i64
    ensures { (result ≡ g.j *ℤ pos 1167226 -ℤ pos g.l) × (mag result < 2 ^ 58) }
{
    let a = g.j * 1167226;
    let b = g.l as i64;
    a - b
}

// v / 2^32, rounded down, and what is left.
fn upper(v: i64) -> i64
    requires { mag v < 2 ^ 58 }
    ensures { (result ≡ shr_z v (2 ^ 32)) × (mag result < 2 ^ 26) }
{
    v >> 32
}

fn lower(v: i64) -> i64
    ensures { result ≡ pos (rest_z v (2 ^ 32)) }
{
    let h = v >> 32;
    let p = h * 0x1_0000_0000;
    v - p
}

// Nothing is lost.
fn cast(z: i64) -> f64
    requires { mag z < 2 ^ 52 }
    ensures { result ≡ of_int binary64 z }
{
    z as f64
}

// (j C 2^22 + h 2^32 + r) / 2^64, rounded once: the three doubles are exact, and so is the first sum.
fn sum(j: i64, h: i64, r: i64) -> f64
    requires { (mag j < 2 ^ 19) × (mag h < 2 ^ 26) × (mag r < 2 ^ 32) }
    ensures { result ≡ nearest_of binary64 ((j *ℤ pos 11908177887 +ℤ h *ℤ pos (2 ^ 10)) *ℤ pos (2 ^ 22) +ℤ r) 64 }
{
    let a = cast(j) * f64::from_bits(0x3f66_2e42_fef8_0000);
    let b = cast(h) * f64::from_bits(0x3df0_0000_0000_0000);
    let c = cast(r) * f64::from_bits(0x3bf0_0000_0000_0000);
    a + b + c
}

// The nearest to (j N64 - l) / 2^64, with N64 = C 2^22 + c: v = j c - l is h 2^32 + r.
pub(crate) fn nearest(g: Log) -> f64
    ensures { result ≡ nearest_of binary64 (g.j *ℤ pos ((N + 128) / 2 ^ 8) -ℤ pos g.l) 64 }
{
    let v = rest(g);
    let h = upper(v);
    let r = lower(v);
    sum(g.j, h, r)
}
