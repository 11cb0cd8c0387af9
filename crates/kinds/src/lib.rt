// The libraries of kinds that have numbers: shapes, starting cells and steps of their kinds.
#![tactic(auto)]

ghost use Rattle.kinds.specs.Libraries.{meaning_of_listed, listed_lawful};

use blocks::list::item;
use blocks::{Library, Refusal};
use signals::{Signal, SignalType};
use steps::step;
pub use table::{House, Numbering, Standard};

pub mod house;
pub mod standard;

// The library of the kinds that a numbering lists: `Standard` or `House`.
#[derive(Clone, Copy)]
pub struct Kinds<N>(pub N);

impl<N: Numbering> Library for Kinds<N> {
    ghost meaning = { λ _. meaning_of_listed N.Numbering.listed };

    ghost lawful = { λ _. listed_lawful N.Numbering.listed N.Numbering.few };

    fn shape(&self, kind: u8) -> Option<(usize, usize, usize)> {
        let kind = self.0.kind(kind)?;
        Some((kind.pins().len(), kind.cells().len(), kind.outputs()))
    }

    fn pin_type(&self, kind: u8, pin: usize) -> Option<SignalType> {
        item(self.0.kind(kind)?.pins(), pin)
    }

    fn cell_type(&self, kind: u8, cell: usize) -> Option<SignalType> {
        self.start(kind, cell).map(Signal::signal_type)
    }

    fn start(&self, kind: u8, cell: usize) -> Option<Signal> {
        item(self.0.kind(kind)?.cells(), cell)
    }

    fn step(&self, kind: u8, pins: &[Signal], cells: &mut [Signal]) -> Result<(), Refusal> {
        let kind = self.0.kind(kind).ok_or(Refusal::Missing)?;
        step(kind, pins, cells)
    }
}
