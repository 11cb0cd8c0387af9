// The lamp layer over a library: it shows what a signal can reach.
ghost use Rattle.std.specs.Prelude.{◌≡◌, ◌||◌, map};
ghost use Rattle.blocks.specs.Layers.{lamp_meaning, any_lit, lamp};
ghost use Rattle.blocks.specs.Kept.{lamp_lawful};
ghost use Rattle.signals.specs.Signals.{zero_of};
ghost use Rattle.std.specs.Option.{option_map};

use crate::library::Library;
use crate::refusal::Refusal;
use signals::{Signal, SignalType};

// The shapes are those below and all cells start at zero. A step sets all cells to 1 if any pin or
// cell is unequal to zero, else all to zero.
#[derive(Drop)]
pub struct Lamps<L> {
    pub below: L,
}

impl<L: Library> Library for Lamps<L> {
    ghost meaning = { λ p. lamp_meaning (L.Library.meaning p.below) };

    ghost lawful = { λ p. lamp_lawful (L.Library.lawful p.below) };

    fn shape(&self, kind: u8) -> Option<(usize, usize, usize)> {
        self.below.shape(kind)
    }

    fn pin_type(&self, kind: u8, pin: usize) -> Option<SignalType> {
        self.below.pin_type(kind, pin)
    }

    fn cell_type(&self, kind: u8, cell: usize) -> Option<SignalType> {
        self.below.cell_type(kind, cell)
    }

    fn start(&self, kind: u8, cell: usize) -> Option<Signal> {
        self.cell_type(kind, cell).map(SignalType::zero)
    }

    // The library below makes all the tests; its new cells have the types of the old ones.
    fn step(&self, kind: u8, pins: &[Signal], cells: &mut [Signal]) -> Result<(), Refusal> {
        let lit = is_reached(pins, cells);
        self.below.step(kind, pins, cells)?;
        set_all(cells, lit);
        Ok(())
    }
}

fn is_reached(pins: &[Signal], cells: &[Signal]) -> bool
    ensures { result ≡ (any_lit pins.now || any_lit cells.now) }
{
    is_any_lit(pins) | is_any_lit(cells)
}

fn is_any_lit(signals: &[Signal]) -> bool
    ensures { result ≡ any_lit signals.now }
{
    signals.iter().any(|signal| signal.is_lit())
}

// Each cell becomes the one or the zero of its type.
pub fn set_all(cells: &mut [Signal], lit: bool)
    ensures { cells.new ≡ map (lamp lit) cells.old }
{
    for cell in cells.iter_mut() {
        *cell = lamp_of(*cell, lit);
    }
}

fn lamp_of(cell: Signal, lit: bool) -> Signal
    ensures { result ≡ lamp lit cell }
{
    let signal_type = cell.signal_type();
    if lit {
        signal_type.one()
    } else {
        signal_type.zero()
    }
}
