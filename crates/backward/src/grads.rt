// The gradients that go back through a review.
ghost use Rattle.std.specs.Prelude.{◌≡◌};
ghost use Rattle.domain.specs.Doubles.{◌+ᵈ◌};

use std::ops::Add;

/// Gradients by the stability, the difficulty and the retrievability before the review. The default is three times +0.0: no gradient.
#[derive(Clone, Copy, Debug, Default, PartialEq)]
pub struct Grads {
    pub s: f64,
    pub d: f64,
    pub r: f64,
}

impl Add for Grads {
    type Output = Grads;

    ghost add_gives = { λ g h sum. sum ≡ record { s = g.s +ᵈ h.s; d = g.d +ᵈ h.d; r = g.r +ᵈ h.r } };

    fn add(self, other: Grads) -> Grads {
        Grads {
            s: self.s + other.s,
            d: self.d + other.d,
            r: self.r + other.r,
        }
    }
}
