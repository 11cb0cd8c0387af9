// A loader: it holds a library and a page until a box is made of them.
use loading::Page;
use std::alloc::Global;

// Kept without a model: a refused load leaves every field as it was, and its contract says so of the fields.
#[derive(Drop)]
pub struct Loader<L> {
    pub(crate) library: L,
    pub(crate) page: Page,
    pub(crate) heap: Global,
}
