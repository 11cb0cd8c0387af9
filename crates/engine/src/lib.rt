// The engine: a whole run from a chart and a list of calls, and the trace of a block, over any library.
#![tactic(auto)]

pub mod run;

pub use run::BoxRun;
