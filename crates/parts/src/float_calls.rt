// Document 01's helpers on f32, one by one. A yes or no is 1 or 0.
ghost use Rattle.std.specs.Prelude.{◌≡◌};
ghost use Rattle.std.specs.Float.Ieee.{is_nan};
ghost use Rattle.floats.specs.Helpers.{max_of, min_of, sign_of, abs_of, tol_of, near_zero};
ghost use Rattle.layout.specs.Words.{flag_of};

use layout::words;

#[unsafe(no_mangle)]
pub extern "C" fn peatcloak_max(a: f32, b: f32) -> f32
    ensures { result ≡ max_of a b }
{
    floats::max(a, b)
}

#[unsafe(no_mangle)]
pub extern "C" fn peatcloak_min(a: f32, b: f32) -> f32
    ensures { result ≡ min_of a b }
{
    floats::min(a, b)
}

#[unsafe(no_mangle)]
pub extern "C" fn peatcloak_tol(x: f32) -> f32
    ensures { result ≡ tol_of x }
{
    floats::tol(x)
}

#[unsafe(no_mangle)]
pub extern "C" fn peatcloak_abs(x: f32) -> f32
    ensures { result ≡ abs_of x }
{
    floats::abs(x)
}

#[unsafe(no_mangle)]
pub extern "C" fn peatcloak_is_sign_negative(x: f32) -> u32
    ensures { result ≡ flag_of (sign_of x) }
{
    words::word_of_flag(floats::is_sign_negative(x))
}

#[unsafe(no_mangle)]
pub extern "C" fn peatcloak_is_nan(x: f32) -> u32
    ensures { result ≡ flag_of (is_nan x) }
{
    words::word_of_flag(floats::is_nan(x))
}

#[unsafe(no_mangle)]
pub extern "C" fn peatcloak_is_near_zero(x: f32) -> u32
    ensures { result ≡ flag_of (near_zero x) }
{
    words::word_of_flag(floats::is_near_zero(x))
}
