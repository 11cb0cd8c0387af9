// Running a page: the terminals, the cycle and the restart, over any library.
#![tactic(auto)]

pub mod cycle;
pub mod restart;
pub mod terminals;
