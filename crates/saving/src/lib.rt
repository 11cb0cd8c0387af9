// Saving a page as the bytes of a chart, into a lent buffer.
#![tactic(auto)]

mod length;
pub mod save;
mod write;
