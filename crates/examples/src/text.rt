// Signals as text, and the verdict of a comparison.
ghost use Rattle.std.specs.Prelude.{◌≡◌, codes, ◌≢◌};
ghost use Rattle.examples.specs.Rows.{signal_text};

use signals::Signal;
use signals::coding::encode;
use std::fmt;

// BOOL as 0 or 1, a whole number in decimal, REAL with its bits.
#[derive(Clone, Copy)]
pub struct Shown(pub Signal);

impl fmt::Display for Shown {
    ghost output = { λ s. signal_text s.0 };

    fn fmt<W: fmt::Write>(&self, f: &mut fmt::Formatter<W>) -> fmt::Result {
        let signal = self.0;
        match signal {
            Signal::Bool(b) => write!(f, "{}", u8::from(b)),
            Signal::Int(n) => write!(f, "{n}"),
            Signal::Dint(n) => write!(f, "{n}"),
            Signal::Real(x) => write!(f, "{x:?} ({:08X})", u32::from_be_bytes(encode(signal))),
        }
    }
}

// Signals, one after another.
// Kept by hand: itertools gathers the items first, so that a line which needs no memory could fail for want of it.
#[derive(Clone, Copy)]
pub struct Listed<'a>(pub &'a [Signal]);

impl fmt::Display for Listed<'_> {
    fn fmt<W: fmt::Write>(&self, f: &mut fmt::Formatter<W>) -> fmt::Result {
        let mut gap = "";
        for signal in self.0 {
            let shown = Shown(*signal);
            write!(f, "{gap}{shown}")?;
            gap = " ";
        }
        Ok(())
    }
}

// `ok` exactly where both hold the same signals: 0 and negative zero differ, all that is not a number is one.
pub fn verdict(expected: &[Signal], got: &[Signal]) -> &'static str
    ensures ok { expected.now ≡ got.now → result.now ≡ codes "ok" }
    ensures differs { (expected.now ≢ got.now) → result.now ≡ codes "differs" }
{
    if expected == got { "ok" } else { "differs" }
}
