// What a block library is: its meaning, the law that the meaning keeps, and the five questions put to it.
ghost use Rattle.std.specs.Prelude.{◌≡◌};
ghost use Rattle.blocks.specs.Meanings.{Meaning, Lawful, counts_of, pin_type_of, cell_type_of, start_of, stepped};
ghost use Rattle.blocks.specs.Refusals.{numbered};

use crate::refusal::Refusal;
use signals::{Signal, SignalType};

// No call takes the library by `&mut`, so none alters what it means.
// Kept: a kind is a number, the byte that a chart holds, since any library may number kinds of its own.
pub trait Library {
    // For each kind a shape or none, the starting cells, and the new cells for all pins and cells.
    ghost meaning: { Self → Meaning };

    // What each library owes: shapes of the right size, and cells of the shape's types.
    ghost lawful: { (s : Self) → Lawful (meaning s) };

    // The numbers of pins, cells and outputs of a kind, or none for a kind without a shape.
    // Kept as a tuple: a rule of the project is that this question answers a tuple of three counts.
    fn shape(&self, kind: u8) -> Option<(usize, usize, usize)>
        ensures { result ≡ counts_of (meaning self.now) kind };

    // The type of a pin, or none where the kind or the pin is missing.
    fn pin_type(&self, kind: u8, pin: usize) -> Option<SignalType>
        ensures { result ≡ pin_type_of (meaning self.now) kind pin };

    // The type of a cell, or none where the kind or the cell is missing.
    fn cell_type(&self, kind: u8, cell: usize) -> Option<SignalType>
        ensures { result ≡ cell_type_of (meaning self.now) kind cell };

    // What a cell starts at, or none where the kind or the cell is missing.
    fn start(&self, kind: u8, cell: usize) -> Option<Signal>
        ensures { result ≡ start_of (meaning self.now) kind cell };

    // Kept: pins and cells go as two slices, one read and one written; a struct of the two would be taken apart at once.
    // Replaces the cells by the new ones. Refuses an absent kind, then a wrong count or type of
    // signals, and leaves the cells then; refuses nothing else.
    fn step(&self, kind: u8, pins: &[Signal], cells: &mut [Signal]) -> Result<(), Refusal>
        ensures { (numbered result, cells.new) ≡ stepped (meaning self.now) kind pins.now cells.old };
}
