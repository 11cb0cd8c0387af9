// The run of a trace.
ghost use Rattle.std.specs.Prelude.{◌≡◌, length};
ghost use Rattle.charts.specs.Tracing.{cycles};
ghost use Rattle.loading.specs.Models.{page_model};
ghost use Rattle.running.specs.Turns.{box_of};

use blocks::Library;
use loading::Page;
use running::cycle::step_page;
use signals::Signal;

// Runs as many cycles as there are blocks. A signal passes at least one more block in each cycle, so
// it reaches all that it can.
pub fn run_cycles<L: Library>(library: &L, terminals: &[Signal], page: &mut Page)
    ensures { box_of page.new terminals.now ≡ cycles (L.Library.meaning library.now) (length (page_model page.old).blocks) (box_of page.old terminals.now) }
{
    for _ in 0..page.blocks.len() {
        step_page(library, terminals, page);
    }
}
