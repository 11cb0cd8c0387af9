// REAL values: which are clean, how one is cleaned, and when two are the same value.
ghost use Rattle.std.specs.Prelude.{◌≡◌, false, Decides, from_bits, to_bits};
ghost use Rattle.std.specs.Float.{binary32};
ghost use Rattle.signals.specs.Real.{finite_real, negative_zero, clean_real, stand_in, cleaned_real};

use std::num::f32_to_bits_with_nan;

fn is_finite(x: f32) -> bool
    ensures { result ≡ finite_real x }
{
    x.is_finite()
}

fn is_negative_zero(x: f32) -> bool
    ensures { result ≡ negative_zero x }
{
    x == 0.0 && x.is_sign_negative()
}

// Finite, and not negative zero.
pub fn is_clean(x: f32) -> bool
    ensures { result ≡ clean_real x }
{
    is_finite(x) && !is_negative_zero(x)
}

// An infinity as the largest finite value of its sign, any other as 0.
fn stand_in(x: f32) -> f32
    requires { clean_real x ≡ false }
    ensures { result ≡ stand_in x }
{
    if x > f32::MAX {
        f32::MAX
    } else if x < f32::MIN {
        f32::MIN
    } else {
        0.0
    }
}

// A clean value as it is, and another by its stand-in.
pub fn clean(x: f32) -> f32
    ensures { result ≡ cleaned_real x }
{
    if is_clean(x) { x } else { stand_in(x) }
}

// The bits of a value, from which it can be read back. What is not a number has the one pattern 7FC00000.
fn pattern(x: f32) -> u32
    ensures bits { result ≡ to_bits binary32 x }
    ensures back { from_bits binary32 result ≡ x }
{
    f32_to_bits_with_nan(x)
}

// Whether two REALs are one value: 0 and negative zero are two, all that is not a number is one.
// Kept beside the `==` of f32, which says otherwise of both.
pub fn same(a: f32, b: f32) -> bool
    ensures { Decides result (a ≡ b) }
{
    pattern(a) == pattern(b)
}
