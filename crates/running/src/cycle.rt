// The cycle: each block steps once, in run order.
ghost use Rattle.std.specs.Prelude.{◌≡◌, ◌+◌, ◌<◌, List, map, length};
ghost use Rattle.charts.specs.Boxes.{signal_at, taken, cycled};
ghost use Rattle.loading.specs.Models.{all_cells};
ghost use Rattle.running.specs.Turns.{box_of, Turned, SoundCycle};

use blocks::Library;
use charts::Source;
use loading::lookup::cell_at;
use loading::{Block, Page};
use signals::Signal;

// Steps each block of a page once, in run order. A pin takes its constant, its terminal or the
// named cell as it then stands.
pub fn step_page<L: Library>(library: &L, terminals: &[Signal], page: &mut Page)
    ensures cycled { box_of page.new terminals.now ≡ cycled (L.Library.meaning library.now) (box_of page.old terminals.now) }
    ensures law { SoundCycle (L.Library.meaning library.now) (box_of page.old terminals.now) (box_of page.new terminals.now) }
{
    step_all(library, terminals, &mut page.blocks);
}

// Kept: library, terminals and blocks go as three, since the blocks alone are lent to be changed.
fn step_all<L: Library>(library: &L, terminals: &[Signal], blocks: &mut [Block])
    ensures { Turned (L.Library.meaning library.now) terminals.now blocks.old blocks.new (length blocks.old) }
{
    // Kept: by place, since a block's pins read all blocks, itself among them; no cycle copies or allocates.
    for i in 0..blocks.len() {
        step_block(library, terminals, blocks, i);
    }
}

// Block i has its turn: where the i blocks before it have stepped, i + 1 have stepped then. No kind
// has more than 8 pins, so the library would refuse a block with more sources; a refused step leaves
// the cells.
fn step_block<L: Library>(library: &L, terminals: &[Signal], blocks: &mut [Block], i: usize)
    requires { i < length blocks.old }
    ensures { (old : List Block) → Turned (L.Library.meaning library.now) terminals.now old blocks.old i → Turned (L.Library.meaning library.now) terminals.now old blocks.new (i + 1) }
{
    // Kept: fixed room, since no cycle allocates.
    let mut room = [Signal::Bool(false); 8];
    let page = &*blocks;
    let sources = &page[i].pins;
    if let Some(pins) = room.get_mut(..sources.len()) {
        gather(terminals, page, sources, pins);
        let block = &mut blocks[i];
        let _ = library.step(block.kind, pins, &mut block.cells);
    }
}

// Lays down what each pin takes.
fn gather(terminals: &[Signal], blocks: &[Block], sources: &[Source], pins: &mut [Signal])
    requires { length pins.old ≡ length sources.now }
    ensures { pins.new ≡ map (taken terminals.now (all_cells blocks.now)) sources.now }
{
    // Kept: tried `pins.iter_mut().zip(sources)`, and the proof did not close: it knows no item that is written through a zip.
    for (place, pin) in pins.iter_mut().enumerate() {
        *pin = take_source(terminals, blocks, sources[place]);
    }
}

// What a pin takes: its constant, its terminal or the named cell.
fn take_source(terminals: &[Signal], blocks: &[Block], source: Source) -> Signal
    ensures { result ≡ taken terminals.now (all_cells blocks.now) source }
{
    match source {
        Source::Constant(signal) => signal,
        Source::Terminal(terminal) => signal_at(terminals, usize::from(terminal)),
        Source::Output { block, output } => cell_at(blocks, block, output),
    }
}

// The signal at a place, and a false BOOL where nothing stands.
fn signal_at(signals: &[Signal], place: usize) -> Signal
    ensures { result ≡ signal_at signals.now place }
{
    signals.get(place).copied().unwrap_or(Signal::Bool(false))
}
