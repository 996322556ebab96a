// A double as a whole number of the smallest one, 2^-1074: nothing here is negative but the sign.
ghost use Rattle.std.specs.Prelude.{◌≡◌};
ghost use Rattle.std.specs.Float.{binary64};
ghost use Rattle.std.specs.Float.Ieee.Scale.{finite};
ghost use Rattle.soft.specs.Units.{units_def};

/// `± digits * 2^places` smallest values.
#[derive(Clone, Copy, Debug, PartialEq, Eq, Hash)]
pub struct Units {
    pub negative: bool,
    pub digits: u64,
    pub places: u64,
}

/// `x` by the fields of its pattern. Where `x` is finite, it is `± digits * 2^places * 2^-1074`.
#[tactic(auto, unfolding(crate::specs::Units::split_def))]
pub fn measure(x: f64) -> Units
    ensures { result ≡ units_def binary64 x }
{
    let b = std::num::f64_to_bits_with_nan(x);
    let negative = 0x8000_0000_0000_0000 <= b;
    let field = b % 0x8000_0000_0000_0000 / 0x10_0000_0000_0000;
    let t = b % 0x10_0000_0000_0000;
    let (digits, places) = if field == 0 {
        (t, 0)
    } else {
        (0x10_0000_0000_0000 + t, field - 1)
    };
    Units {
        negative,
        digits,
        places,
    }
}

// Stays: `finite` of the definitions is its promise, by a lemma that each caller of std's `is_finite` would cite: no plainer.
/// Whether `x` is neither a NaN nor an infinity.
#[tactic(auto, using(crate::proofs::Tied::finite_is))]
pub fn is_finite(x: f64) -> bool
    ensures { result ≡ finite x }
{
    x.is_finite()
}
