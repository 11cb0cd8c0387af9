// Save: the page of a box with its present constants, as the bytes of a chart.
ghost use Rattle.std.specs.Prelude.{◌≡◌, length};
ghost use Rattle.blocks.specs.Refusals.{numbered};
ghost use Rattle.charts.specs.declared.call.Call.{Call};
ghost use Rattle.charts.specs.Calls.{perform};
ghost use Rattle.saving.specs.Saving.{saved};
ghost use Rattle.boxes.specs.Answers.{length_or};
ghost use Rattle.boxes.specs.LoadsAgain.{LoadsAgain};

use crate::gate_box::GateBox;
use blocks::{Library, Refusal};
use saving::save::{length_within, save_page};

impl<L: Library> GateBox<L> {
    // Writes the chart with its present constants at the front of a buffer, spares the bytes
    // behind, and answers its length; leaves the buffer where it is shorter than the chart.
    pub fn save(&self, buffer: &mut [u8]) -> Result<usize, Refusal>
        ensures saved { (numbered result, buffer.new) ≡ saved self.now.box.page buffer.old }
        ensures performed { (length_or result, self.now.box) ≡ perform (L.Library.meaning self.now.library) self.now.box (Call.Save (length buffer.old)) }
        ensures loads { LoadsAgain (L.Library.meaning self.now.library) self.now.box }
    {
        save_page(&self.page, buffer)
    }

    // What save would answer with so much room: the chart's length, or the refusal.
    pub fn chart_length(&self, room: usize) -> Result<usize, Refusal>
        ensures { (length_or result, self.now.box) ≡ perform (L.Library.meaning self.now.library) self.now.box (Call.Save room) }
    {
        length_within(&self.page, room)
    }
}
