// Why a call is refused; each case is its number.
ghost use Rattle.std.specs.Prelude.{◌≡◌};
ghost use Rattle.blocks.specs.Refusals.{number_of};

#[derive(Clone, Copy, Debug, PartialEq, Eq)]
pub enum Refusal {
    // The call names what is missing.
    Missing = 10,
    // A signal of another type, or too many or too few of them, or a REAL that is not clean.
    WrongSignal = 11,
    // A buffer shorter than what is to be written.
    ShortBuffer = 13,
    // The pin is wired.
    Wired = 14,
}

impl Refusal {
    // Kept as a method: the rules and the docs speak of a refusal's number.
    pub fn number(self) -> u8
        ensures { result ≡ number_of self }
    {
        self as u8
    }
}
