// Load.
ghost use Rattle.loading.specs.Loaded.{Loaded, Means};

use crate::build::build;
use crate::fault::LoadError;
use crate::page::Page;
use crate::walk_one::walk_one;
use crate::walk_two::Wiring;
use blocks::Library;
use std::alloc::Global;

// The page of a chart with its starting cells, or the chart's first fault. No answer but that of the
// rules; want of memory is said by a case of its own.
// Kept: the heap goes beside the library, as every call of std that allocates takes it; a struct of both would be made anew in each call.
pub fn load<L: Library>(heap: Global, library: &L, chart: &[u8]) -> Result<Page, LoadError>
    ensures loaded { Loaded (L.Library.meaning library.now) chart.now result }
    ensures means { Means (L.Library.meaning library.now) chart.now result }
{
    let kinds = walk_one(heap, library, chart)?;
    let wiring = Wiring {
        library,
        kinds: &kinds,
    };
    wiring.walk_two(chart)?;
    let page = build(heap, library, chart)?;
    Ok(page)
}
