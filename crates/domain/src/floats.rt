// Rust's `clamp`, `max`, `min` and `is_finite` of an f32. Each is total, and each NaN is accounted for.
ghost use Rattle.std.specs.Prelude.{◌≡◌};
ghost use Rattle.std.specs.Float.Ieee.Scale.{finite};
ghost use Rattle.domain.specs.Floats.{clamp_def, max_def, min_def, within};

/// The same where x lies outside: rare, so that an x within waits for nothing. No call of its own: each row of padding in front of a history comes here twice.
#[cold]
#[tactic(auto, unfolding(crate::specs::Floats::clamp_def))]
fn clamped(x: f32, low: f32, high: f32) -> f32
    ensures { result ≡ clamp_def x low high }
{
    if x < low {
        return low;
    }
    if x > high {
        return high;
    }
    x
}

// Stays: std's `clamp` asks for low <= high, and its `max` and `min` leave open which of two zeros they give: no bit may move.
/// `x.clamp(low, high)`; a NaN passes.
#[tactic(auto, using(crate::proofs::Inside::not_below), unfolding(crate::specs::Floats::clamp_def))]
pub fn clamp(x: f32, low: f32, high: f32) -> f32
    ensures { result ≡ clamp_def x low high }
{
    if low <= x && x <= high {
        return x;
    }
    clamped(x, low, high)
}

/// `x.max(y)`: where one is a NaN, the other. Of two zeros the second.
#[tactic(auto, using(crate::proofs::Nan::ne_self), unfolding(crate::specs::Floats::max_def))]
pub fn max(x: f32, y: f32) -> f32
    ensures { result ≡ max_def x y }
{
    if y != y {
        return x;
    }
    if x > y {
        return x;
    }
    y
}

/// `x.min(y)`: where one is a NaN, the other. Of two zeros the second.
#[tactic(auto, using(crate::proofs::Nan::ne_self), unfolding(crate::specs::Floats::min_def))]
pub fn min(x: f32, y: f32) -> f32
    ensures { result ≡ min_def x y }
{
    if y != y {
        return x;
    }
    if x < y {
        return x;
    }
    y
}

// Stays: `finite` of the definitions is its promise, by a lemma that each caller of std's `is_finite` would cite: no plainer.
/// Whether x is neither infinite nor a NaN.
#[tactic(auto, using(soft::proofs::Tied::finite_is))]
pub fn is_finite(x: f32) -> bool
    ensures { result ≡ finite x }
{
    x.is_finite()
}

/// Whether `low <= x <= high`: both ends belong, and a NaN is nowhere within.
pub fn is_within(x: f32, low: f32, high: f32) -> bool
    ensures { result ≡ within x low high }
{
    low <= x && x <= high
}
