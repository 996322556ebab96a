// The kernels' steps for f64: products are cut to their upper word.
ghost use Rattle.std.specs.Prelude.{◌≡◌, ◌≤◌, refl, pos, negsuc};
ghost use Rattle.std.specs.Float.{binary64};
ghost use Rattle.kernels.specs.Power as Power;

use crate::binary::{Exponent, Positive};
use crate::high::hi;
use crate::kernel::{Kernel, PowerOfTwo};
use crate::log_double::{log, nearest};
use crate::parts::Parts;
use crate::pow_double::raised;
use table::entry_at;

// The terms of e^s - 1 from the second on, in words of 32 digits.
fn chain(parts: Parts) -> u64
    ensures { (result ≡ Power.double2 parts.f) × (result ≤ 0x3d8db3fa1d7c) }
{
    let e = parts.f >> 12;
    let p = e * 0x5761;
    let a = 0x276_556d + (p >> 32);
    let q = e * a;
    let b = 0xe_3584_6b82 + (q >> 32);
    let r = e * (b >> 8);
    0x3d7f_7bff_058b + (r >> 24)
}

// e^s - 1, in units of 2^-64.
fn part(parts: Parts) -> u64
    ensures { (result ≡ Power.part binary64 parts.f) × (result ≤ 0xb1afa5abcbecf5) }
{
    let x = 0x10_0000 * parts.f;
    let c = chain(parts);
    let h = 0xb1_7217_f7d1_cf79 + hi(x, c);
    hi(x, h)
}

impl PowerOfTwo for f64 {
    const FIRST: u64 = 970;

    const LAST: u64 = 1032;

    const ONES: u64 = 2047;

    const LEAST: i64 = -1022;

    const MOST: i64 = 1023;

    ghost FIRST = { 970 };

    ghost LAST = { 1032 };

    ghost ONES = { 2047 };

    ghost LEAST = { negsuc 1021 };

    ghost MOST = { pos 1023 };

    fn turns(digits: u64, exponent: u64) -> u64 {
        let m = (0x10_0000_0000_0000 + digits) * 2048;
        hi(m >> (1033 - exponent), 0xb8aa_3b29_5c17_f0bc)
    }

    // 63 digits.
    fn significand(parts: Parts) -> u64 {
        let t = entry_at(parts.i);
        let d = part(parts);
        t + hi(t, d)
    }

    // m / 2^62 * 2^k.
    fn assemble(k: i64, m: u64) -> f64 {
        let q = (m + 0x1ff + (m >> 10) % 2) >> 10;
        let field = (k + 1022) as u64;
        f64::from_bits(field * 0x10_0000_0000_0000 + q)
    }

    ghost ends = { (refl, refl, refl, refl, refl) };
}

impl Kernel for f64 {
    fn ln(x: f64) -> f64 {
        // x = 1
        if x.to_bits() == 0x3ff0_0000_0000_0000 {
            return 0.0;
        }
        nearest(log(Positive { number: x }))
    }

    fn pow(x: f64, y: f64) -> f64 {
        if x.to_bits() == 0x3ff0_0000_0000_0000 {
            return 1.0;
        }
        raised(log(Positive { number: x }), Exponent { number: y })
    }
}
