// Whole numbers of either sign.
ghost use Rattle.std.specs.Prelude.{◌≡◌, ◌^◌, ◌<◌};
ghost use Rattle.table.specs.Whole as Whole;
ghost use Rattle.kernels.specs.inner.Power.{Split};

use crate::parts::Parts;

pub(crate) fn signed(negative: bool, n: u64) -> i64
    requires { n < 2 ^ 63 }
    ensures { result ≡ Whole.signed negative n }
{
    let z = n as i64;
    if negative { -z } else { z }
}

// A number of 2^52 units to a factor of 2, 2^44 to a step: a shift rounds down, so that no part but k is negative.
pub(crate) fn split(z: i64) -> Parts
    ensures { Split z result }
{
    let k = z >> 52;
    let j = z >> 44;
    let i = j - k * 256;
    let f = z - j * 0x1000_0000_0000;
    Parts {
        k,
        i: i as u64,
        f: f as u64,
    }
}
