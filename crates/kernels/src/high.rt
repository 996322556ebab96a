// The upper word of a product, cut.
ghost use Rattle.std.specs.Prelude.{◌≡◌};
ghost use Rattle.kernels.specs.Power as Power;

// a * b / 2^64 without the product of the lower halves: at most 2 less than the whole part.
pub(crate) fn hi(a: u64, b: u64) -> u64
    ensures { result ≡ Power.hi a b }
{
    let a0 = a % 0x1_0000_0000;
    let a1 = a >> 32;
    let b0 = b % 0x1_0000_0000;
    let b1 = b >> 32;
    let p = a1 * b1;
    let q = a1 * b0;
    let r = a0 * b1;
    let s = p + (q >> 32);
    s + (r >> 32)
}
