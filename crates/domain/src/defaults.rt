// The 21 weights' defaults, and whether all of a set are finite.
ghost use Rattle.std.specs.Prelude.{◌≡◌};
ghost use Rattle.domain.specs.Weights.{FSRS6_DEFAULT_PARAMETERS, all_finite_def};

/// `inference_v6.rs`: `FSRS6_DEFAULT_PARAMETERS`; the last is `FSRS6_DEFAULT_DECAY`.
static DEFAULTS: [f32; 21] = [
    0.212, 1.2931, 2.3065, 8.2956, 6.4133, 0.8334, 3.0194, 0.001, 1.8722, 0.1666, 0.796, 1.4835,
    0.0614, 0.2629, 1.6483, 0.6014, 1.8729, 0.5425, 0.0912, 0.0658, 0.1542,
];

/// Whether no weight of a set, of any length, is infinite or a NaN.
pub fn all_finite(w: &[f32]) -> bool
    ensures { result ≡ all_finite_def w.now }
{
    w.iter().all(|x| x.is_finite())
}

/// The default weights of FSRS-6, as a value.
pub fn default_weights() -> [f32; 21]
    ensures { result ≡ FSRS6_DEFAULT_PARAMETERS }
{
    DEFAULTS
}
