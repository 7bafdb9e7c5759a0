// Document 01's helpers on f32, and the two tests of the Rust's that lean on the format. Names are the Rust's where it has one.
#![tactic(auto)]

ghost use Rattle.std.specs.Prelude.{◌≡◌, false};
ghost use Rattle.std.specs.Float.{inf};
ghost use Rattle.std.specs.Float.Ieee.{is_nan};
ghost use Rattle.floats.specs.Helpers.{max_of, min_of, sign_of, abs_of, tol_of, near_zero};

pub const EPSILON: f32 = 1.1920929e-7;

// Plus infinity.
pub fn infinity() -> f32
    ensures { result ≡ inf false }
{
    f32::from_bits(0x7f80_0000)
}

pub fn is_nan(x: f32) -> bool
    ensures { result ≡ is_nan x }
{
    x != x
}

pub fn max(a: f32, b: f32) -> f32
    ensures { result ≡ max_of a b }
{
    if is_nan(a) {
        return b;
    }
    if a < b { b } else { a }
}

pub fn min(a: f32, b: f32) -> f32
    ensures { result ≡ min_of a b }
{
    if is_nan(a) {
        return b;
    }
    if b < a { b } else { a }
}

// Whether the sign bit is set. Here a NaN has no sign, and answers false.
pub fn is_sign_negative(x: f32) -> bool
    ensures { result ≡ sign_of x }
{
    if is_nan(x) {
        return false;
    }
    let b = f32::to_bits(x);
    0x8000_0000 <= b
}

pub fn abs(x: f32) -> f32
    ensures { result ≡ abs_of x }
{
    if is_sign_negative(x) { -x } else { x }
}

// The tolerance of an amount.
pub fn tol(x: f32) -> f32
    ensures { result ≡ tol_of x }
{
    x * EPSILON * 1000.0
}

// The Rust's abs_diff_eq!(x, 0.0): whether a stack counts as nothing.
pub fn is_near_zero(x: f32) -> bool
    ensures { result ≡ near_zero x }
{
    abs(x) <= EPSILON
}
