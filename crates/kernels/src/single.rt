// The kernels' steps for f32: every product fits one word.
ghost use Rattle.std.specs.Prelude.{◌≡◌, ◌≤◌, refl, pos, negsuc};
ghost use Rattle.std.specs.Float.{binary32};
ghost use Rattle.kernels.specs.Power as Power;

use crate::binary::{Exponent, Positive};
use crate::kernel::{Kernel, PowerOfTwo};
use crate::log_single::{log, nearest, step_log};
use crate::parts::Parts;
use crate::pow_single::raised;
use table::entry_at;

// e^s - 1 for s of f / 2^44 steps, in units of 2^-40.
fn part(parts: Parts) -> u64
    ensures { (result ≡ Power.part binary32 parts.f) × (result ≤ 0xb1af9770) }
{
    let e = parts.f >> 12;
    let p = e * 4030331;
    let h = 0xb172_17f7 + (p >> 32);
    let q = e * h;
    q >> 32
}

impl PowerOfTwo for f32 {
    const FIRST: u64 = 74;

    const LAST: u64 = 133;

    const ONES: u64 = 255;

    const LEAST: i64 = -126;

    const MOST: i64 = 127;

    ghost FIRST = { 74 };

    ghost LAST = { 133 };

    ghost ONES = { 255 };

    ghost LEAST = { negsuc 125 };

    ghost MOST = { pos 127 };

    fn turns(digits: u64, exponent: u64) -> u64 {
        let p = (0x80_0000 + digits) * 0xb8_aa3b_295c;
        p >> (137 - exponent)
    }

    // 32 digits. The table is read first, since the call would have the part saved.
    fn significand(parts: Parts) -> u64 {
        let t = entry_at(parts.i) >> 31;
        let d = part(parts);
        let v = t * d;
        t + (v >> 40)
    }

    // m / 2^31 * 2^k: a carry out of the digits moves the field up by one.
    fn assemble(k: i64, m: u64) -> f32 {
        let q = (m + 127 + (m >> 8) % 2) >> 8;
        let field = (k + 126) as u64;
        f32::from_bits((field * 0x80_0000 + q) as u32)
    }

    ghost ends = { (refl, refl, refl, refl, refl) };
}

impl Kernel for f32 {
    fn ln(x: f32) -> f32 {
        nearest(log(Positive { number: x }))
    }

    fn pow(x: f32, y: f32) -> f32 {
        raised(step_log(Positive { number: x }), Exponent { number: y })
    }
}
