// The numbering of the standard library.
pub use table::Standard;
