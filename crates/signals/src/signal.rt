// A signal and its type.
ghost use Rattle.std.specs.Prelude.{◌≡◌, Decides};
ghost use Rattle.signals.specs.Signals.{type_of, zero_of, one_of, lit, clean, cleaned, same_signal, Cleaning};
ghost use Rattle.signals.specs.Same.{same_signal_laws};

use crate::real;

// BOOL is 0 or 1, INT and DINT are whole numbers of 16 and 32 bits, REAL is binary32 of IEEE 754.
#[derive(Clone, Copy, Debug, PartialEq, Eq)]
pub enum SignalType {
    Bool,
    Int,
    Dint,
    Real,
}

// A value together with its type. What is not a number counts as one REAL value.
#[derive(Clone, Copy, Debug)]
pub enum Signal {
    Bool(bool),
    Int(i16),
    Dint(i32),
    Real(f32),
}

impl SignalType {
    pub fn zero(self) -> Signal
        ensures { result ≡ zero_of self }
    {
        match self {
            SignalType::Bool => Signal::Bool(false),
            SignalType::Int => Signal::Int(0),
            SignalType::Dint => Signal::Dint(0),
            SignalType::Real => Signal::Real(0.0),
        }
    }

    // Kept beside `zero`: the two differ in four constants, and one function that is told which is no plainer.
    pub fn one(self) -> Signal
        ensures { result ≡ one_of self }
    {
        match self {
            SignalType::Bool => Signal::Bool(true),
            SignalType::Int => Signal::Int(1),
            SignalType::Dint => Signal::Dint(1),
            SignalType::Real => Signal::Real(1.0),
        }
    }
}

impl Signal {
    pub fn signal_type(self) -> SignalType
        ensures { result ≡ type_of self }
    {
        match self {
            Signal::Bool(_) => SignalType::Bool,
            Signal::Int(_) => SignalType::Int,
            Signal::Dint(_) => SignalType::Dint,
            Signal::Real(_) => SignalType::Real,
        }
    }

    // Whether the value is unequal to zero. REAL is compared as IEEE 754 does: negative zero equals
    // zero, and what is not a number does not.
    pub fn is_lit(self) -> bool
        ensures { result ≡ lit self }
    {
        match self {
            Signal::Bool(b) => b,
            Signal::Int(n) => n != 0,
            Signal::Dint(n) => n != 0,
            Signal::Real(x) => x != 0.0,
        }
    }

    pub fn is_clean(self) -> bool
        ensures { result ≡ clean self }
    {
        match self {
            Signal::Real(x) => real::is_clean(x),
            _ => true,
        }
    }

    pub fn clean(self) -> Signal
        ensures { result ≡ cleaned self }
    {
        match self {
            Signal::Real(x) => Signal::Real(real::clean(x)),
            _ => self,
        }
    }
}

// Theorem: what cleaning does.
pub fn cleaning_is_sound()
    ensures { Cleaning }
{}

// Kept by hand: a derived equality is that of f32, to which what is not a number differs from itself and the two zeros are one.
impl PartialEq for Signal {
    ghost eq = { same_signal };

    ghost laws = { same_signal_laws };

    fn eq(&self, other: &Signal) -> bool
        ensures gives { result ≡ same_signal self.now other.now }
        ensures decides { Decides result (self.now ≡ other.now) }
    {
        match (*self, *other) {
            (Signal::Bool(a), Signal::Bool(b)) => a == b,
            (Signal::Int(a), Signal::Int(b)) => a == b,
            (Signal::Dint(a), Signal::Dint(b)) => a == b,
            (Signal::Real(a), Signal::Real(b)) => real::same(a, b),
            _ => false,
        }
    }
}
