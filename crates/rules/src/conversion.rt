// Conversions and scaling: I_R, R_D and N2_R.
ghost use Rattle.rules.specs.Conversion.{real, whole, outside, scaled};
ghost use Rattle.std.specs.Prelude.{◌≡◌};

use std::num::{f32_to_f64_with_nan, saturating_f32_to_i32};

/// I_R: an INT as a REAL.
pub fn i_r(x: i16) -> f32
    ensures { result ≡ real x }
{
    x as f32
}

/// What R_D gives: Y and QF.
// Kept as a flag beside a number, as in DIV_D: both are outputs of the block.
#[derive(Clone, Copy)]
pub struct Whole {
    pub y: i32,
    pub qf: bool,
}

/// R_D: a REAL as a DINT, without its fraction.
pub fn r_d(x: f32) -> Whole
    ensures { result ≡ whole x }
{
    Whole {
        y: saturating_f32_to_i32(x),
        qf: is_outside(x),
    }
}

// The first whole numbers beyond the DINT range: exact at f64, which holds every f32 too.
const BELOW_DINT: f64 = -2147483649.0;

const ABOVE_DINT: f64 = 2147483648.0;

// Whether x without its fraction is no DINT.
fn is_outside(x: f32) -> bool
    ensures { result ≡ outside x }
{
    let wide = f32_to_f64_with_nan(x);
    !((BELOW_DINT < wide) & (wide < ABOVE_DINT))
}

/// The setting of N2_R: the factor NF and the reference value BV.
#[derive(Clone, Copy)]
pub struct Setting {
    pub factor: f32,
    pub reference: i16,
}

/// N2_R: an INT in the unit of its setting, X * NF / BV.
pub fn n2_r(x: i16, setting: Setting) -> f32
    ensures { result ≡ scaled x setting }
{
    i_r(x) * setting.factor / i_r(setting.reference)
}
