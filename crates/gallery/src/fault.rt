// Why a sheet cannot be used.
use std::alloc::AllocError;
use std::num::ParseIntError;
use thiserror::Error;

#[derive(Clone, Copy, Debug, Error)]
pub enum SheetError {
    #[error("a line stands before the first heading")]
    NoHeading,
    // Something that is no number stands where a number is due.
    #[error("a number is due")]
    NoNumber,
    #[error("a trace is a block, a set and a number of lamps")]
    NoTrace,
    #[error("out of memory")]
    Memory(#[from(alloc)] AllocError),
}

// Kept by hand: the error of the number would not let a fault be copied.
impl From<ParseIntError> for SheetError {
    fn from(_error: ParseIntError) -> SheetError {
        SheetError::NoNumber
    }
}
