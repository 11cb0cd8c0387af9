// The restart: all cells at their starting values.
ghost use Rattle.std.specs.Prelude.{◌≡◌};
ghost use Rattle.std.specs.Option.{unwrap_or};
ghost use Rattle.blocks.specs.Meanings.{start_of};
ghost use Rattle.charts.specs.Boxes.{starting, laid, restarted_cells};
ghost use Rattle.loading.specs.Models.{page_model, cells_model};

use blocks::Library;
use loading::Page;
use signals::Signal;

// Sets all cells of a page to their starting values.
pub fn restart_page<L: Library>(library: &L, page: &mut Page)
    ensures page { page_model page.new ≡ page_model page.old }
    ensures cells { cells_model page.new ≡ restarted_cells (L.Library.meaning library.now) (page_model page.old).blocks (cells_model page.old) }
{
    for block in page.blocks.iter_mut() {
        lay_start(library, block.kind, &mut block.cells);
    }
}

// Lays a kind's starting cells over the old ones.
fn lay_start<L: Library>(library: &L, kind: u8, cells: &mut [Signal])
    ensures { cells.new ≡ laid (starting (L.Library.meaning library.now) kind) cells.old }
{
    for (place, cell) in cells.iter_mut().enumerate() {
        *cell = start_or(library, kind, place, *cell);
    }
}

// What a cell starts at; the old signal where the kind has no such cell.
// Kept as a function: a wrong start is then refused by a clause of its own, and not by the proof of the loop.
fn start_or<L: Library>(library: &L, kind: u8, cell: usize, old: Signal) -> Signal
    ensures { result ≡ unwrap_or (start_of (L.Library.meaning library.now) kind cell) old }
{
    library.start(kind, cell).unwrap_or(old)
}
