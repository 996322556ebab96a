//! exp, ln, pow, the fused multiply-add and rounding to a whole number, single and double, and exp less 1 in single. exp, ln, pow
//! and expm1 answer a NaN, refusal 10, outside their domain and nowhere else.
ghost use Rattle.std.specs.Prelude.{◌≡◌};
ghost use Rattle.std.specs.Float.{binary32, binary64};
ghost use Rattle.kernels.specs.Kernels.{exp_def, expm1_def, ln_def, pow_def};
ghost use Rattle.soft.specs.Fma.{fma_def};
ghost use Rattle.soft.specs.HalfAway.{round_def};

#[unsafe(no_mangle)]
pub extern "C" fn fsrs_exp_f32(x: f32) -> f32
    ensures { result ≡ exp_def binary32 x }
{
    fsrs6::arithmetic::fsrs_exp_f32(x)
}

#[unsafe(no_mangle)]
pub extern "C" fn fsrs_exp_f64(x: f64) -> f64
    ensures { result ≡ exp_def binary64 x }
{
    fsrs6::arithmetic::fsrs_exp_f64(x)
}

#[unsafe(no_mangle)]
pub extern "C" fn fsrs_expm1_f32(x: f32) -> f32
    ensures { result ≡ expm1_def x }
{
    fsrs6::arithmetic::fsrs_expm1_f32(x)
}

#[unsafe(no_mangle)]
pub extern "C" fn fsrs_ln_f32(x: f32) -> f32
    ensures { result ≡ ln_def binary32 x }
{
    fsrs6::arithmetic::fsrs_ln_f32(x)
}

#[unsafe(no_mangle)]
pub extern "C" fn fsrs_ln_f64(x: f64) -> f64
    ensures { result ≡ ln_def binary64 x }
{
    fsrs6::arithmetic::fsrs_ln_f64(x)
}

#[unsafe(no_mangle)]
pub extern "C" fn fsrs_pow_f32(x: f32, y: f32) -> f32
    ensures { result ≡ pow_def binary32 x y }
{
    fsrs6::arithmetic::fsrs_pow_f32(x, y)
}

#[unsafe(no_mangle)]
pub extern "C" fn fsrs_pow_f64(x: f64, y: f64) -> f64
    ensures { result ≡ pow_def binary64 x y }
{
    fsrs6::arithmetic::fsrs_pow_f64(x, y)
}

#[unsafe(no_mangle)]
pub extern "C" fn fsrs_fma_f32(x: f32, y: f32, z: f32) -> f32
    ensures { result ≡ fma_def binary32 x y z }
{
    fsrs6::arithmetic::fsrs_fma_f32(x, y, z)
}

#[unsafe(no_mangle)]
pub extern "C" fn fsrs_fma_f64(x: f64, y: f64, z: f64) -> f64
    ensures { result ≡ fma_def binary64 x y z }
{
    fsrs6::arithmetic::fsrs_fma_f64(x, y, z)
}

#[unsafe(no_mangle)]
pub extern "C" fn fsrs_round_f32(x: f32) -> f32
    ensures { result ≡ round_def binary32 x }
{
    fsrs6::arithmetic::fsrs_round_f32(x)
}

#[unsafe(no_mangle)]
pub extern "C" fn fsrs_round_f64(x: f64) -> f64
    ensures { result ≡ round_def binary64 x }
{
    fsrs6::arithmetic::fsrs_round_f64(x)
}
