// The faults of a chart, each with its number.
ghost use Rattle.std.specs.Prelude.{◌≡◌, Ok, Err, MatchResult};
ghost use Rattle.loading.specs.FaultNumbers.{fault_number};
ghost use Rattle.loading.specs.declared.fault.LoadError.TheVariants.{Refused, Memory};

use std::alloc::{AllocError, AllocFailed};

#[derive(Clone, Copy, Debug, PartialEq, Eq)]
pub enum Fault {
    // A record is cut short.
    CutShort = 1,
    // A kind has no shape, 0 aside.
    UnknownKind = 2,
    // One block more than a page may have.
    TooManyBlocks = 3,
    // A tag above 2, or a fixed zero byte that is not 0.
    Malformed = 4,
    // A terminal, a block or an output is missing.
    Missing = 5,
    // Two types differ.
    TypesDiffer = 6,
    // A constant outside its type, or a REAL that is not clean.
    UnfitConstant = 7,
    // A block after an output record, or terminals that do not rise.
    OutOfOrder = 8,
    // No block.
    NoBlock = 9,
}

impl Fault {
    // Kept as a method: the rules and the docs speak of a fault's number.
    pub fn number(self) -> u8
        ensures { result ≡ fault_number self }
    {
        self as u8
    }
}

// Why a chart was not loaded.
#[derive(Clone, Copy, Debug, PartialEq, Eq)]
pub enum LoadError {
    // The chart's first fault, and the offset of its record's first byte.
    Refused { fault: Fault, place: usize },
    // There was no memory for the page. It has no number.
    Memory,
}

// Kept by hand, one for each error that `?` meets: a derived `From` has no clause, and load's promise names the case.
impl From<AllocError> for LoadError {
    ghost from_gives = { λ _ error. error ≡ Memory };

    fn from(_error: AllocError) -> LoadError {
        LoadError::Memory
    }
}

impl<T: Drop> From<AllocFailed<T>> for LoadError {
    ghost from_gives = { λ _ error. error ≡ Memory };

    fn from(_refused: AllocFailed<T>) -> LoadError {
        LoadError::Memory
    }
}

// A fault that a test finds refuses the chart, by the place of its record.
pub(crate) fn refuse<T>(tested: Result<T, Fault>, place: usize) -> Result<T, LoadError>
    ensures { MatchResult tested (λ x. result ≡ Ok x) (λ fault. result ≡ Err (Refused fault place)) }
{
    tested.map_err(|fault| LoadError::Refused { fault, place })
}
