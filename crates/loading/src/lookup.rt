// Looks into a page that may lack what is asked for.
ghost use Rattle.std.specs.Prelude.{◌≡◌, Some};
ghost use Rattle.std.specs.List.{slice_get};
ghost use Rattle.charts.specs.Pages.{kinds_of, source, output_of_kind};
ghost use Rattle.charts.specs.Boxes.{cell_at};
ghost use Rattle.loading.specs.Models.{page_model, all_cells};

use crate::page::{Block, Page};
use blocks::Library;
use charts::Source;
use signals::{Signal, SignalType};

impl Page {
    // The kind of a block, none where the block is missing.
    pub fn kind(&self, block: u8) -> Option<u8>
        ensures { result ≡ slice_get (kinds_of (page_model self.now)) block }
    {
        let found = self.blocks.get(usize::from(block))?;
        Some(found.kind)
    }

    // The source of a pin, none where the block or the pin is missing.
    pub fn source(&self, block: u8, pin: u8) -> Option<Source>
        ensures { result ≡ source (page_model self.now) block pin }
    {
        let found = self.blocks.get(usize::from(block))?;
        found.pins.get(usize::from(pin)).copied()
    }
}

// A cell, and a false BOOL where there is none; on a sound page there is one behind each output.
pub fn cell_at(blocks: &[Block], block: u8, output: u8) -> Signal
    ensures { result ≡ cell_at (all_cells blocks.now) block output }
{
    blocks
        .get(usize::from(block))
        .and_then(|found| found.cells.get(usize::from(output)).copied())
        .unwrap_or(Signal::Bool(false))
}

// The type of an output of a kind, none where the kind or the output is missing; hidden cells are no outputs.
pub fn output_type<L: Library>(library: &L, kind: u8, output: u8) -> Option<SignalType>
    ensures { result ≡ output_of_kind (L.Library.meaning library.now).shape (Some kind) output }
{
    let (_, _, outputs) = library.shape(kind)?;
    if usize::from(output) < outputs {
        library.cell_type(kind, usize::from(output))
    } else {
        None
    }
}
