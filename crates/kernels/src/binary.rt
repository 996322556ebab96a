// What f32 and f64 have in common: the fields of a pattern, and the tests of what has a logarithm or is raised to.
ghost use Rattle.std.specs.Prelude.{◌≡◌, Float, T, not, is_nan, is_some, IfSome};
ghost use Rattle.std.specs.Float.{Format, binary32, binary64};
ghost use Rattle.std.specs.Float.Ieee.{fits};
ghost use Rattle.std.specs.Float.Ieee.Positive.{positive};
ghost use Rattle.kernels.specs.Kernels.{powered};
ghost use Rattle.kernels.specs.inner.Fields.{sign, field, rest};

// A pattern by its fields: `digits` are those below the leading one.
#[derive(Clone, Copy, Debug, PartialEq, Eq, Hash)]
pub struct Fields {
    pub negative: bool,
    pub exponent: u64,
    pub digits: u64,
}

/// A binary format: `f32` or `f64`. To proofs both are IEEE's numbers, `float` of one and `of` back.
pub trait Binary: Copy {
    ghost format: { Format };

    ghost float: { Self → Float };

    ghost of: { Float → Self };

    /// The same number: every single is a double.
    fn exact(x: f32) -> Self
        ensures { result ≡ of x };

    fn is_no_number(self) -> bool
        ensures { result ≡ is_nan (float self) };

    /// Whether `self` has a logarithm: neither a NaN, nor an infinity, nor 0, nor below it.
    fn is_positive(self) -> bool
        ensures test { result ≡ positive (float self) }
        ensures holds { T (fits format (float self)) };

    /// Whether a power to `self` is asked for at all: from -16 to 16.
    fn is_powered(self) -> bool
        ensures test { result ≡ powered (float self) }
        ensures holds { T (fits format (float self)) };

    fn fields(self) -> Fields
        requires { T (not (is_nan (float self))) }
        ensures negative { result.negative ≡ sign format (float self) }
        ensures exponent { result.exponent ≡ field format (float self) }
        ensures digits { result.digits ≡ rest format (float self) }
        ensures holds { T (fits format (float self)) };
}

// The largest number is asked for, since LLVM makes a slow test of a comparison with infinity.
impl Binary for f32 {
    ghost format = { binary32 };

    ghost float = { λ x. x };

    ghost of = { λ x. x };

    fn exact(x: f32) -> f32 {
        x
    }

    fn is_no_number(self) -> bool {
        self.is_nan()
    }

    fn is_positive(self) -> bool {
        0.0 < self && self <= f32::MAX
    }

    fn is_powered(self) -> bool {
        -16.0 <= self && self <= 16.0
    }

    fn fields(self) -> Fields {
        let b = u64::from(self.to_bits());
        Fields {
            negative: 0x8000_0000 <= b,
            exponent: b % 0x8000_0000 / 0x80_0000,
            digits: b % 0x80_0000,
        }
    }
}

impl Binary for f64 {
    ghost format = { binary64 };

    ghost float = { λ x. x };

    ghost of = { λ x. x };

    fn exact(x: f32) -> f64 {
        f64::from(x)
    }

    fn is_no_number(self) -> bool {
        self.is_nan()
    }

    fn is_positive(self) -> bool {
        0.0 < self && self <= f64::MAX
    }

    fn is_powered(self) -> bool {
        -16.0 <= self && self <= 16.0
    }

    fn fields(self) -> Fields {
        let b = self.to_bits();
        Fields {
            negative: 0x8000_0000_0000_0000 <= b,
            exponent: b % 0x8000_0000_0000_0000 / 0x10_0000_0000_0000,
            digits: b % 0x10_0000_0000_0000,
        }
    }
}

// Stays: `Drop` alone, here and below, since `Clone` is refused over the ghost fields of a generic struct.
/// A number that has a logarithm.
#[derive(Drop)]
pub struct Positive<F: Binary> {
    pub number: F,
    ghost holds: { T (fits F.format (F.float number)) },
    ghost is_positive: { T (positive (F.float number)) },
}

impl<F: Binary> Positive<F> {
    pub fn new(number: F) -> Option<Positive<F>>
        ensures test { is_some result ≡ positive (F.float number) }
        ensures number { IfSome result (λ p. p.number ≡ number) }
    {
        if number.is_positive() {
            Some(Positive { number })
        } else {
            None
        }
    }
}

/// A number that a power is asked for.
#[derive(Drop)]
pub struct Exponent<F: Binary> {
    pub number: F,
    ghost holds: { T (fits F.format (F.float number)) },
    ghost is_powered: { T (powered (F.float number)) },
}

impl<F: Binary> Exponent<F> {
    pub fn new(number: F) -> Option<Exponent<F>>
        ensures test { is_some result ≡ powered (F.float number) }
        ensures number { IfSome result (λ p. p.number ≡ number) }
    {
        if number.is_powered() {
            Some(Exponent { number })
        } else {
            None
        }
    }
}
