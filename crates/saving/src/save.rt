// Saving: a page with its present constants, as the bytes of a chart.
ghost use Rattle.std.specs.Prelude.{◌≡◌};
ghost use Rattle.blocks.specs.Refusals.{numbered};
ghost use Rattle.loading.specs.Models.{page_model};
ghost use Rattle.saving.specs.Saving.{room_for, saved};

use crate::length::page_length;
use crate::write::Piece;
use blocks::Refusal;
use loading::Page;

// The length of the chart, or the refusal of so much room where it is too little.
pub fn length_within(page: &Page, room: usize) -> Result<usize, Refusal>
    ensures { numbered result ≡ room_for (page_model page.now) room }
{
    page_length(page)
        .filter(|length| *length <= room)
        .ok_or(Refusal::ShortBuffer)
}

// Writes the chart at the front of a buffer, spares the bytes behind, and answers its length; leaves
// the buffer where it is shorter than the chart.
pub fn save_page(page: &Page, buffer: &mut [u8]) -> Result<usize, Refusal>
    ensures { (numbered result, buffer.new) ≡ saved (page_model page.now) buffer.old }
{
    length_within(page, buffer.len())?;
    Ok(page.write(buffer))
}
