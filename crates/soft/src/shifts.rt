// A number of 128 bits shifted to the right by any amount, and how many binary digits a word has. Both are total.
// Stays: the two are named in docs/CRATES.md, and std's `>>` and `leading_zeros` say neither in one call.
ghost use Rattle.std.specs.Prelude.{◌≡◌, ◌/◌, ◌^◌};
ghost use Rattle.std.specs.Float.Ieee.{size};

/// The whole part of `w / 2^n`, for any `n`: `>>` asks for one below 128.
pub fn shr(w: u128, n: u64) -> u128
    ensures { result ≡ w / 2 ^ n }
{
    if n < 128 { w >> n } else { 0 }
}

/// How many binary digits `x` has: none for 0.
pub fn digits64(x: u64) -> u64
    ensures { result ≡ size x }
{
    u64::from(u64::BITS - x.leading_zeros())
}
