// Loading: from the bytes of a chart to a page with its starting cells, or the chart's first fault.
#![tactic(auto)]

pub mod build;
pub mod fault;
pub mod load;
pub mod lookup;
pub mod page;
mod record;
mod walk_one;
mod walk_two;

pub use fault::{Fault, LoadError};
pub use page::{Block, Page};
