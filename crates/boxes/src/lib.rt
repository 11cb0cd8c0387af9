// Loaders and boxes over any library.
#![tactic(auto)]

pub mod gate_box;
pub mod loader;
mod making;
mod perform;
mod reading;
mod refusals;
mod sample;
mod save;
mod tune;
mod turning;

pub use gate_box::GateBox;
pub use loader::Loader;
