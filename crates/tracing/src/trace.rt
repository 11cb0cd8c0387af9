// Trace: which blocks a signal of one block can reach, found by lamps.
ghost use Rattle.std.specs.Prelude.{◌≡◌, ◌≤◌, length, count_ones};
ghost use Rattle.charts.specs.Tracing.{cycles, lamps, set_of};
ghost use Rattle.loading.specs.Models.{page_model};
ghost use Rattle.tracing.specs.Parts.{lit_box};
ghost use Rattle.tracing.specs.declared.trace.TraceError.TheVariants.{Load};
ghost use Rattle.tracing.specs.Traces.{Traced, TracedLaw};

use crate::dim::dim_page;
use crate::lamps::lit_set;
use crate::light::light;
use crate::run::run_cycles;
use blocks::{Lamps, Library};
use loading::load::load;
use loading::{LoadError, Page};
use running::terminals::zero_terminals;
use std::alloc::Global;

// The lit blocks, bit b for block b, and how many lamps are lit.
// Kept as a word and its count of ones: a rule of the project.
#[derive(Clone, Copy, Debug, PartialEq, Eq)]
pub struct Trace {
    pub set: u64,
    pub lamps: u32,
}

// Why a block was not traced.
#[derive(Clone, Copy, Debug, PartialEq, Eq)]
pub enum TraceError {
    // The chart was not loaded.
    Load(LoadError),
    // The chart has no such block: 10, with the place 0.
    Missing,
}

// Kept by hand: a derived `From` has no clause, and the trace's promise names the case.
impl From<LoadError> for TraceError {
    ghost from_gives = { λ error r. r ≡ Load error };

    fn from(error: LoadError) -> TraceError {
        TraceError::Load(error)
    }
}

// Traces a block of a chart: the chart is loaded over the lamp layer, constants and cells are zero,
// the block's cells are 1, and as many cycles run as there are blocks.
pub fn trace_block<L: Library>(
    heap: Global,
    library: &L,
    chart: &[u8],
    block: u8,
) -> Result<Trace, TraceError>
    ensures traced { Traced (L.Library.meaning library.now) chart.now block result }
    ensures law { TracedLaw (L.Library.meaning library.now) chart.now block result }
{
    let lamps = Lamps { below: library };
    let mut page = load(heap, &lamps, chart)?;
    if usize::from(block) < page.blocks.len() {
        Ok(trace_page(&lamps, &mut page, block))
    } else {
        Err(TraceError::Missing)
    }
}

// Lights one block of a page that is otherwise at zero, runs, and reads the lamps.
fn trace_page<L: Library>(library: &L, page: &mut Page, block: u8) -> Trace
    requires { length (page_model page.old).blocks ≤ 64 }
    ensures set { result.set ≡ set_of (lamps (cycles (L.Library.meaning library.now) (length (page_model page.old).blocks) (lit_box page.old block))) }
    ensures lamps { result.lamps ≡ count_ones result.set }
{
    dim_page(page);
    light(page, block);
    run_cycles(library, &zero_terminals(), page);
    let set = lit_set(&page.blocks);
    Trace {
        set,
        lamps: set.count_ones(),
    }
}
