// The length of a page's chart, none where no usize holds it: the types of a page bound no sum of its lengths.
ghost use Rattle.std.specs.Prelude.{length};
ghost use Rattle.std.specs.List.{flat_map};
ghost use Rattle.charts.specs.Charts.{block_bytes, output_bytes, written};
ghost use Rattle.loading.specs.Models.{block_model, wiring, page_model};
ghost use Rattle.saving.specs.Lengths.{IsInUsize};

use charts::OutputRecord;
use loading::{Block, Page};

// The kind, and five bytes a pin.
// Kept beside Piece: a piece that is written fits a buffer, while a length may be one that no usize holds.
#[tactic(auto, using(crate::proofs::Lengths::sources_length))]
fn block_length(block: &Block) -> Option<usize>
    ensures { IsInUsize result (length (block_bytes (block_model block.now))) }
{
    block.pins.len().checked_mul(5)?.checked_add(1)
}

#[tactic(auto, using(crate::proofs::Pieces::blocks_room))]
fn blocks_length(blocks: &[Block]) -> Option<usize>
    ensures { IsInUsize result (length (flat_map block_bytes (wiring blocks.now))) }
{
    let mut total = 0usize;
    for block in blocks {
        total = total.checked_add(block_length(block)?)?;
    }
    Some(total)
}

// Four bytes a record.
#[tactic(auto, using(crate::proofs::Lengths::outputs_length))]
fn outputs_length(outputs: &[OutputRecord]) -> Option<usize>
    ensures { IsInUsize result (length (flat_map output_bytes outputs.now)) }
{
    outputs.len().checked_mul(4)
}

pub(crate) fn page_length(page: &Page) -> Option<usize>
    ensures { IsInUsize result (length (written (page_model page.now))) }
{
    let blocks = blocks_length(page.blocks.as_slice())?;
    let outputs = outputs_length(page.outputs.as_slice())?;
    blocks.checked_add(outputs)
}
