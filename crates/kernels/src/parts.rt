// The argument of a power of two, in parts.
ghost use Rattle.std.specs.Prelude.{◌^◌, ◌<◌};

// 2^k, i steps of 256 within a factor of 2, and f / 2^44 of a step.
#[derive(Clone, Copy, Debug)]
pub struct Parts {
    pub k: i64,
    pub i: u64,
    pub f: u64,
    ghost i_lt: { i < 256 },
    ghost f_lt: { f < 2 ^ 44 },
}
