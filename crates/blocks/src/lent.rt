// A lent library is a library: what it answers is what the library behind the reference answers.
use crate::library::Library;
use crate::refusal::Refusal;
use signals::{Signal, SignalType};

impl<'a, L: Library> Library for &'a L {
    ghost meaning = { λ p. L.Library.meaning p.now };

    ghost lawful = { λ p. L.Library.lawful p.now };

    fn shape(&self, kind: u8) -> Option<(usize, usize, usize)> {
        (**self).shape(kind)
    }

    fn pin_type(&self, kind: u8, pin: usize) -> Option<SignalType> {
        (**self).pin_type(kind, pin)
    }

    fn cell_type(&self, kind: u8, cell: usize) -> Option<SignalType> {
        (**self).cell_type(kind, cell)
    }

    fn start(&self, kind: u8, cell: usize) -> Option<Signal> {
        (**self).start(kind, cell)
    }

    fn step(&self, kind: u8, pins: &[Signal], cells: &mut [Signal]) -> Result<(), Refusal> {
        (**self).step(kind, pins, cells)
    }
}
