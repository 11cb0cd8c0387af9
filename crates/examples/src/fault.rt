// Why the program stops early.
use blocks::Refusal;
use std::alloc::AllocError;
use thiserror::Error;

#[derive(Clone, Copy, Debug, Error)]
pub enum Fault {
    // The library refused a call.
    #[error("refused: {}", .0.number())]
    Refused(#[from] Refusal),
    // A cell that a block should have is missing.
    #[error("no such cell")]
    NoCell,
    #[error("out of memory")]
    Memory(#[from(alloc)] AllocError),
}
