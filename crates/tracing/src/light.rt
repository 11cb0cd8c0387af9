// The cells of one block at 1.
ghost use Rattle.std.specs.Prelude.{◌≡◌, [], slice_index_or, slice_set};
ghost use Rattle.charts.specs.Tracing.{lighted};
ghost use Rattle.loading.specs.Models.{page_model, cells_model};

use blocks::lamps::set_all;
use loading::Page;

// Sets the cells of a block to the one of their type, and alters nothing where there is no such block.
pub fn light(page: &mut Page, block: u8)
    ensures page { page_model page.new ≡ page_model page.old }
    ensures cells { cells_model page.new ≡ slice_set (cells_model page.old) block (lighted (slice_index_or (cells_model page.old) block [])) }
{
    if let Some(found) = page.blocks.get_mut(usize::from(block)) {
        set_all(&mut found.cells, true);
    }
}
