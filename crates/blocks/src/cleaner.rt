// The cleaner over a library.
ghost use Rattle.std.specs.Prelude.{◌≡◌, map};
ghost use Rattle.blocks.specs.Layers.{cleaned_meaning};
ghost use Rattle.blocks.specs.Kept.{cleaned_lawful};
ghost use Rattle.signals.specs.Signals.{cleaned};
ghost use Rattle.std.specs.Option.{option_map};

use crate::library::Library;
use crate::refusal::Refusal;
use signals::{Signal, SignalType, real};

// The shapes are those below; every REAL cell is cleaned, starting and new.
// Kept: each layer hands the questions on that it does not alter, since no layer can stand for the library below it.
#[derive(Drop)]
pub struct Cleaner<L> {
    pub below: L,
}

impl<L: Library> Library for Cleaner<L> {
    ghost meaning = { λ p. cleaned_meaning (L.Library.meaning p.below) };

    ghost lawful = { λ p. cleaned_lawful (L.Library.lawful p.below) };

    fn shape(&self, kind: u8) -> Option<(usize, usize, usize)> {
        self.below.shape(kind)
    }

    fn pin_type(&self, kind: u8, pin: usize) -> Option<SignalType> {
        self.below.pin_type(kind, pin)
    }

    fn cell_type(&self, kind: u8, cell: usize) -> Option<SignalType> {
        self.below.cell_type(kind, cell)
    }

    fn start(&self, kind: u8, cell: usize) -> Option<Signal> {
        self.below.start(kind, cell).map(Signal::clean)
    }

    fn step(&self, kind: u8, pins: &[Signal], cells: &mut [Signal]) -> Result<(), Refusal> {
        self.below.step(kind, pins, cells)?;
        clean_all(cells);
        Ok(())
    }
}

// Kept beside `lamps::set_all`: a loop of one line each, and a closure for its body would need a longer contract than both.
fn clean_all(cells: &mut [Signal])
    ensures { cells.new ≡ map cleaned cells.old }
{
    for cell in cells.iter_mut() {
        clean_cell(cell);
    }
}

// Cleans a REAL in place and touches no other cell, a rule of the project; so it is kept beside `Signal::clean`.
fn clean_cell(cell: &mut Signal)
    ensures { cell.new ≡ cleaned cell.old }
{
    if let Signal::Real(x) = cell {
        *x = real::clean(*x);
    }
}
