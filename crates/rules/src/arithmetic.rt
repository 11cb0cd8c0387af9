// Sums and the division: ADD, ADD_D and DIV_D.
ghost use Rattle.rules.specs.Arithmetic.{real_sum, dint_sum, divided, equal, furthest, least, quotient};
ghost use Rattle.std.specs.Prelude.{◌≡◌, false, ◌&&◌, pos, negsuc};

/// ADD: the sum of two REAL.
pub fn add(x1: f32, x2: f32) -> f32
    ensures { result ≡ real_sum x1 x2 }
{
    x1 + x2
}

/// ADD_D: the sum of two DINT, which stops at the ends of the range.
pub fn add_d(x1: i32, x2: i32) -> i32
    ensures { result ≡ dint_sum x1 x2 }
{
    x1.saturating_add(x2)
}

/// What DIV_D gives: Y, MOD and QF.
// Kept as a flag beside a number: QF is an output of the block, and Y holds a number beside a raised QF too.
#[derive(Clone, Copy)]
pub struct Divided {
    pub y: i32,
    pub rest: i32,
    pub qf: bool,
}

/// DIV_D: the quotient of two DINT and what is left, or the fault.
pub fn div_d(x1: i32, x2: i32) -> Divided
    ensures { result ≡ divided x1 x2 }
{
    if x2 == 0 {
        Divided {
            y: end_toward(x1),
            rest: 0,
            qf: true,
        }
    } else if (x1 == i32::MIN) & (x2 == -1) {
        Divided {
            y: i32::MAX,
            rest: 0,
            qf: true,
        }
    } else {
        whole_quotient(x1, x2)
    }
}

// The quotient without its fraction, where it is a DINT, and what is left.
fn whole_quotient(x1: i32, x2: i32) -> Divided
    requires divisor { equal x2 (pos 0) ≡ false }
    requires fits { (equal x1 least && equal x2 (negsuc 0)) ≡ false }
    ensures { result ≡ quotient x1 x2 }
{
    Divided {
        y: x1 / x2,
        rest: x1 % x2,
        qf: false,
    }
}

// The end of the DINT range on the side of x, and 0 for 0.
fn end_toward(x: i32) -> i32
    ensures { result ≡ furthest x }
{
    if x < 0 {
        i32::MIN
    } else if x > 0 {
        i32::MAX
    } else {
        0
    }
}
