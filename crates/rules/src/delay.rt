// The switch-on delay PDE.
ghost use Rattle.rules.specs.Delay.{delayed};
ghost use Rattle.std.specs.Prelude.{◌≡◌};

/// What PDE gives: Q, and in N the cycles that I has been 1.
// Kept as a flag beside a number: both are cells of the block, and N counts on while Q is 0.
#[derive(Clone, Copy)]
pub struct Delayed {
    pub q: bool,
    pub n: i32,
}

/// PDE: on once I has been 1 for more than T cycles.
pub fn pde(i: bool, t: i32, n: i32) -> Delayed
    ensures { result ≡ delayed i t n }
{
    if i {
        let n = n.saturating_add(1);
        Delayed { q: n > t, n }
    } else {
        Delayed { q: false, n: 0 }
    }
}
