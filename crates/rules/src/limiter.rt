// The limiter, one text for INT, DINT and REAL.
ghost use Rattle.rules.specs.Limiter.{limited};
ghost use Rattle.std.specs.Float.Ieee.{lt};
ghost use Rattle.std.specs.Prelude.{◌≡◌, Bool, int_lt};

/// A type whose values can tell the smaller.
// Kept beside std's `PartialOrd`: its `<` is stated by each type's order, and three lemmas would have to tie that to the `<` of the
// rules, in place of three lines here.
pub trait Smaller {
    ghost smaller: { Self → Self → Bool };

    fn is_smaller(&self, other: &Self) -> bool
        ensures { result ≡ smaller self.now other.now };
}

impl Smaller for i16 {
    ghost smaller = { int_lt };

    fn is_smaller(&self, int: &i16) -> bool {
        *self < *int
    }
}

impl Smaller for i32 {
    ghost smaller = { int_lt };

    fn is_smaller(&self, dint: &i32) -> bool {
        *self < *dint
    }
}

/// Where one of the two is not a number, neither is the smaller.
impl Smaller for f32 {
    ghost smaller = { lt };

    fn is_smaller(&self, real: &f32) -> bool {
        *self < *real
    }
}

/// What the limiter gives: Y, QU and QL.
// Kept as flags beside a number: all three are outputs of the block.
#[derive(Clone, Copy)]
pub struct Limited<T> {
    pub y: T,
    pub qu: bool,
    pub ql: bool,
}

/// The limiter: LIM at REAL, LIM_D at DINT, and the end of CTR at INT.
pub fn limit<T: Smaller + Copy>(x: T, lu: T, ll: T) -> Limited<T>
    ensures { result ≡ limited T.Smaller.smaller x lu ll }
{
    if !ll.is_smaller(&lu) {
        Limited {
            y: lu,
            qu: true,
            ql: true,
        }
    } else if !x.is_smaller(&lu) {
        Limited {
            y: lu,
            qu: true,
            ql: false,
        }
    } else if !ll.is_smaller(&x) {
        Limited {
            y: ll,
            qu: false,
            ql: true,
        }
    } else {
        Limited {
            y: x,
            qu: false,
            ql: false,
        }
    }
}
