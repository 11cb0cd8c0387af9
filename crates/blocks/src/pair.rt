// The pair of two libraries.
ghost use Rattle.blocks.specs.Layers.{paired};
ghost use Rattle.blocks.specs.Kept.{paired_lawful};

use crate::library::Library;
use crate::refusal::Refusal;
use signals::{Signal, SignalType};

// The first kind of the second library.
const BORDER: u8 = 128;

// Kept: the same choice in each of the five questions, since the two sides are of two types and no value can be either.
// Kinds 0 to 127 are those of the first library, kinds 128 to 255 those of the second as 0 to 127.
#[derive(Drop)]
pub struct Pair<A, B> {
    pub first: A,
    pub second: B,
}

impl<A: Library, B: Library> Library for Pair<A, B> {
    ghost meaning = { λ p. paired (A.Library.meaning p.first) (B.Library.meaning p.second) };

    ghost lawful = { λ p. paired_lawful (A.Library.lawful p.first) (B.Library.lawful p.second) };

    fn shape(&self, kind: u8) -> Option<(usize, usize, usize)> {
        if kind < BORDER {
            self.first.shape(kind)
        } else {
            self.second.shape(kind - BORDER)
        }
    }

    fn pin_type(&self, kind: u8, pin: usize) -> Option<SignalType> {
        if kind < BORDER {
            self.first.pin_type(kind, pin)
        } else {
            self.second.pin_type(kind - BORDER, pin)
        }
    }

    fn cell_type(&self, kind: u8, cell: usize) -> Option<SignalType> {
        if kind < BORDER {
            self.first.cell_type(kind, cell)
        } else {
            self.second.cell_type(kind - BORDER, cell)
        }
    }

    fn start(&self, kind: u8, cell: usize) -> Option<Signal> {
        if kind < BORDER {
            self.first.start(kind, cell)
        } else {
            self.second.start(kind - BORDER, cell)
        }
    }

    fn step(&self, kind: u8, pins: &[Signal], cells: &mut [Signal]) -> Result<(), Refusal> {
        if kind < BORDER {
            self.first.step(kind, pins, cells)
        } else {
            self.second.step(kind - BORDER, pins, cells)
        }
    }
}
