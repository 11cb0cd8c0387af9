// A block: a kind and its cells, which a library steps.
ghost use Rattle.std.specs.Prelude.{◌≡◌, take, IfOk, Ok};
ghost use Rattle.blocks.specs.Meanings.{stepped};
ghost use Rattle.blocks.specs.Refusals.{numbered};
ghost use Rattle.signals.specs.declared.signal.Signal.{Signal};
ghost use Rattle.examples.specs.Blocks.{AtStart, Went, out};

use crate::fault::Fault;
use blocks::{Library, Refusal};
use signals::Signal;
use std::alloc::Global;

#[derive(Drop)]
pub struct Block {
    kind: u8,
    cells: Vec<Signal>,
}

impl Block {
    // A block of a kind at its starting cells.
    pub fn new<L: Library>(heap: Global, library: &L, kind: u8) -> Result<Block, Fault>
        ensures { IfOk result (λ b. AtStart (L.Library.meaning library.now) kind b) }
    {
        let (_, count, _) = library.shape(kind).ok_or(Refusal::Missing)?;
        let cells = first_cells(heap, library, kind, count)?;
        Ok(Block { kind, cells })
    }

    // One step over the pins. A refused step leaves the cells.
    pub fn step<L: Library>(&mut self, library: &L, pins: &[Signal]) -> Result<(), Refusal>
        ensures stepped { (numbered result, self.new.cells.items) ≡ stepped (L.Library.meaning library.now) self.old.kind pins.now self.old.cells.items }
        ensures kind { self.new.kind ≡ self.old.kind }
    {
        library.step(self.kind, pins, self.cells.as_mut_slice())
    }

    pub fn cells(&self) -> &[Signal]
        ensures { result.now ≡ self.now.cells.items }
    {
        self.cells.as_slice()
    }

    pub fn first_output(&self) -> Result<Signal, Fault>
        ensures { (s : Signal) → result ≡ Ok s → s ≡ out self.now }
    {
        self.cells().first().copied().ok_or(Fault::NoCell)
    }

    // One step, and then the first output.
    pub fn advance<L: Library>(&mut self, library: &L, pins: &[Signal]) -> Result<Signal, Fault>
        ensures went { (s : Signal) → result ≡ Ok s → Went (L.Library.meaning library.now) pins.now self.old self.new }
        ensures first { (s : Signal) → result ≡ Ok s → s ≡ out self.new }
    {
        self.step(library, pins)?;
        self.first_output()
    }
}

// What the first cells of a kind start at.
// Kept: tried `(0..count).map(..).try_collect(heap)`, and the proof did not close: std says its values place by place.
fn first_cells<L: Library>(
    heap: Global,
    library: &L,
    kind: u8,
    count: usize,
) -> Result<Vec<Signal>, Fault>
    ensures { IfOk result (λ v. v.items ≡ take count ((L.Library.meaning library.now).start kind)) }
{
    let mut cells = Vec::new(heap);
    for cell in 0..count {
        let signal = library.start(kind, cell).ok_or(Fault::NoCell)?;
        cells.push(signal)?;
    }
    Ok(cells)
}
