// Charts and boxes: what a page is made of, and the calls on a box. The rules themselves are in specs/.
#![tactic(auto)]

pub mod call;
pub mod laws;
pub mod page;

pub use call::{Call, Reply};
pub use page::{OutputRecord, Source};
