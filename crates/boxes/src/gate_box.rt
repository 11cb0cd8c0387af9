// A box: it runs its page once a cycle.
use loading::Page;
use signals::Signal;
use std::alloc::Global;
use std::marker::Model;

// A page with its cells, and the input terminals, over a library.
// Kept beside Loader, and not with one inside: a box that held a loader could be loaded while it runs.
// Kept as an array: there are 32 terminals, and no call allocates.
#[derive(Drop)]
pub struct GateBox<L> {
    pub(crate) library: L,
    pub(crate) page: Page,
    pub(crate) terminals: [Signal; 32],
    pub(crate) heap: Global,
}

impl<L> Model for GateBox<L> {
    ghost use Rattle.loading.specs.Models.{page_model, cells_model};
    ghost use Rattle.boxes.specs.Values.{BoxOver};

    ghost Value = { BoxOver L };

    ghost view = { λ b. record { library = b.library; box = record { page = page_model b.page; cells = cells_model b.page; terminals = b.terminals } } };
}
