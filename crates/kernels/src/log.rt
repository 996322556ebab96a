// The logarithm of a double.
ghost use Rattle.std.specs.Prelude.{◌^◌, ◌<◌};
ghost use Rattle.std.specs.Int.Signed.{mag};

// j ln 2 / 256 less l / 2^64.
#[derive(Clone, Copy, Debug)]
pub struct Log {
    pub j: i64,
    pub l: u64,
    ghost few: { mag j < 2 ^ 19 },
    ghost short: { l < 2 ^ 57 },
}
