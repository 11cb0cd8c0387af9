// Signals: what pins, cells and terminals of a chart hold, and how a signal is written in four bytes.
#![tactic(auto)]

pub mod coding;
pub mod names;
pub mod real;
pub mod signal;
pub mod terminals;

pub use signal::{Signal, SignalType};
