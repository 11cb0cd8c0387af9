// Trace: which blocks a signal of one block can reach, over any library.
#![tactic(auto)]

mod dim;
mod lamps;
mod light;
mod run;
pub mod trace;

pub use trace::{Trace, TraceError};
