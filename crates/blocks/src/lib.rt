// Block libraries: the interface that every library keeps, and three layers over any libraries.
#![tactic(auto)]

pub mod cleaner;
pub mod lamps;
pub mod lent;
pub mod library;
pub mod list;
pub mod pair;
pub mod refusal;

pub use cleaner::Cleaner;
pub use lamps::Lamps;
pub use library::Library;
pub use pair::Pair;
pub use refusal::Refusal;
