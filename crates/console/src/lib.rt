// A box run from bytes: requests in, lines out.
#![tactic(auto)]

pub mod hexadecimal;
pub mod input;
pub mod laws;
pub mod line;
pub mod meaning;
pub mod read;
pub mod request;
pub mod session;
#[cfg(test)]
mod tests;

pub use line::Line;
pub use request::Request;
