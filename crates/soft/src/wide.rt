// The product of two words, whole. The function is total, and its contract is an equation of the numbers.
ghost use Rattle.std.specs.Prelude.{◌≡◌, ◌*◌, ◌/◌, ◌^◌};

// n where x is a difference below 0, so that its top bit is set, else 0.
fn negative(x: u64, n: u64) -> u64
    ensures { result ≡ x / 2 ^ 63 * n }
{
    (x >> 63).wrapping_neg() & n
}

// Stays: a rule of the project, that no product takes more than three of half a word: not `u128::from(u) * u128::from(v)`.

/// `u * v` whole, by three half-width products: the middle column `u1 * v0 + u0 * v1` is `p0 + p2 + x * y`, with `x = u1 - u0`
/// and `y = v0 - v1`. `d` is the product of their low halves; what it lacks where a difference is below 0 concerns only the
/// upper word, modulo 2^64.
pub fn product(u: u64, v: u64) -> u128
    ensures { result ≡ u * v }
{
    let u0 = u & 0xffff_ffff;
    let u1 = u >> 32;
    let v0 = v & 0xffff_ffff;
    let v1 = v >> 32;
    let p0 = u0 * v0;
    let p2 = u1 * v1;
    let x = u1.wrapping_sub(u0);
    let y = v0.wrapping_sub(v1);
    let b = y & 0xffff_ffff;
    let d = (x & 0xffff_ffff) * b;
    let t = (p0 >> 32) + p2;
    let w = (t & 0xffff_ffff) + p0;
    let c = (w & 0xffff_ffff) + d;
    let g = (t >> 32) + p2;
    let e = (w >> 32) + (c >> 32);
    let h = g.wrapping_add(e);
    let k = h.wrapping_sub(negative(x, b));
    let high = k.wrapping_sub(negative(y, x));
    let low = (c << 32) + (p0 & 0xffff_ffff);
    u128::from(high) * 0x1_0000_0000_0000_0000 + u128::from(low)
}
