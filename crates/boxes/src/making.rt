// How a loader comes to be, takes a chart and becomes a box, and how a box ends.
ghost use Rattle.std.specs.Prelude.{◌≡◌, []};
ghost use Rattle.charts.specs.Pages.{no_page};
ghost use Rattle.loading.specs.Models.{page_model, cells_model};
ghost use Rattle.boxes.specs.States.{box_to_be, Reloaded};
ghost use Rattle.boxes.specs.Meant.{Meant};

use crate::gate_box::GateBox;
use crate::loader::Loader;
use blocks::Library;
use loading::{LoadError, Page, load};
use running::terminals::zero_terminals;
use std::alloc::Global;

impl<L: Library> Loader<L> {
    // A loader over a library, with no page.
    pub fn new(heap: Global, library: L) -> Loader<L>
        ensures page { page_model result.page ≡ no_page }
        ensures cells { cells_model result.page ≡ [] }
        ensures library { result.library ≡ library }
    {
        let page = empty_page(heap);
        Loader {
            library,
            page,
            heap,
        }
    }

    // Accepted, the page becomes the chart with its starting cells; refused, or without memory, the loader is as it was.
    pub fn load(&mut self, chart: &[u8]) -> Result<(), LoadError>
        ensures loaded { Reloaded (L.Library.meaning self.old.library) chart.now self.old result self.new }
        ensures means { Meant (L.Library.meaning self.old.library) chart.now result self.new }
    {
        self.page = load::load(self.heap, &self.library, chart)?;
        Ok(())
    }

    // Makes the box; it uses the loader up and cannot fail.
    pub fn make(self) -> GateBox<L>
        ensures made { result.box ≡ box_to_be self }
        ensures library { result.library ≡ self.library }
    {
        let Loader {
            library,
            page,
            heap,
        } = self;
        let terminals = zero_terminals();
        GateBox {
            library,
            page,
            terminals,
            heap,
        }
    }
}

impl<L: Library> GateBox<L> {
    // Ends the box and gives back a loader over its library, with no page.
    pub fn close(self) -> Loader<L>
        ensures page { page_model result.page ≡ no_page }
        ensures cells { cells_model result.page ≡ [] }
        ensures library { result.library ≡ self.library }
    {
        let GateBox {
            library,
            page,
            terminals: _,
            heap,
        } = self;
        drop(page);
        Loader::new(heap, library)
    }
}

fn empty_page(heap: Global) -> Page
    ensures page { page_model result ≡ no_page }
    ensures cells { cells_model result ≡ [] }
{
    Page {
        blocks: Vec::new(heap),
        outputs: Vec::new(heap),
    }
}
