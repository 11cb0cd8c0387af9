// Tune: sets the constant of a pin.
ghost use Rattle.std.specs.Prelude.{◌≡◌, slice_set};
ghost use Rattle.std.specs.List.{slice_get};
ghost use Rattle.charts.specs.declared.call.Call.{Call};
ghost use Rattle.charts.specs.declared.page.Source.{Source};
ghost use Rattle.charts.specs.Calls.{tuned_page, pin_type_at};
ghost use Rattle.charts.specs.Pages.{kinds_of};
ghost use Rattle.loading.specs.Models.{page_model, cells_model};
ghost use Rattle.boxes.specs.Answers.{done_or, IsPerformed};

use crate::gate_box::GateBox;
use crate::refusals::check_tune;
use blocks::{Library, Refusal};
use charts::Source;
use loading::{Block, Page};
use signals::{Signal, SignalType};

impl<L: Library> GateBox<L> {
    // Refuses a missing block or pin, then a wired pin, then a signal of another type or a REAL that is not clean.
    pub fn tune(&mut self, block: u8, pin: u8, signal: Signal) -> Result<(), Refusal>
        ensures { IsPerformed L.Library.meaning self.old (Call.Tune block pin signal) (done_or result) self.new }
    {
        let source = self.page.source(block, pin);
        let pin_type = self.pin_type(block, pin);
        check_tune(source, pin_type, signal)?;
        put_constant(&mut self.page, block, pin, signal);
        Ok(())
    }

    // The type of a pin, none where the block or the pin is missing.
    pub fn pin_type(&self, block: u8, pin: u8) -> Option<SignalType>
        ensures { result ≡ pin_type_at (L.Library.meaning self.now.library) (slice_get (kinds_of self.now.box.page) block) pin }
    {
        let kind = self.page.kind(block)?;
        self.library.pin_type(kind, usize::from(pin))
    }
}

// Puts a constant at a pin, and alters nothing where there is no such pin.
fn put_constant(page: &mut Page, block: u8, pin: u8, signal: Signal)
    ensures page { page_model page.new ≡ tuned_page block pin signal (page_model page.old) }
    ensures cells { cells_model page.new ≡ cells_model page.old }
{
    if let Some(found) = page.blocks.get_mut(block as usize) {
        put_source(found, pin, Source::Constant(signal));
    }
}

fn put_source(block: &mut Block, pin: u8, source: Source)
    ensures kind { block.new.kind ≡ block.old.kind }
    ensures pins { block.new.pins.items ≡ slice_set block.old.pins.items pin source }
    ensures cells { block.new.cells ≡ block.old.cells }
{
    if let Some(place) = block.pins.get_mut(pin as usize) {
        *place = source;
    }
}
