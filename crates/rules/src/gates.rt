// Gates, memory and switches: AND, OR, NOT, RSR, NSW_D and HYS.
ghost use Rattle.rules.specs.Gates.{both, either, opposite, remembered, switched, hysteresis};
ghost use Rattle.std.specs.Prelude.{◌≡◌};

/// AND: both.
pub fn and(x1: bool, x2: bool) -> bool
    ensures { result ≡ both x1 x2 }
{
    x1 & x2
}

/// OR: either.
pub fn or(x1: bool, x2: bool) -> bool
    ensures { result ≡ either x1 x2 }
{
    x1 | x2
}

/// NOT: the other value.
pub fn not(x: bool) -> bool
    ensures { result ≡ opposite x }
{
    !x
}

/// RSR: a memory in which R wins over S.
pub fn rsr(s: bool, r: bool, kept: bool) -> bool
    ensures { result ≡ remembered s r kept }
{
    !r & (s | kept)
}

/// NSW_D: X2 where I is 1, else X1.
pub fn nsw_d(x1: i32, x2: i32, i: bool) -> i32
    ensures { result ≡ switched x1 x2 i }
{
    if i { x2 } else { x1 }
}

/// HYS: 1 from ON up, 0 from OFF down, and kept between.
pub fn hys(x: i32, on: i32, off: i32, kept: bool) -> bool
    ensures { result ≡ hysteresis x on off kept }
{
    (x >= on) | (!(x <= off) & kept)
}
