// The numbering of the house library.
pub use table::House;
