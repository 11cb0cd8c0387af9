// A page in memory.
use charts::{OutputRecord, Source};
use signals::Signal;

// A block: its kind, a source for each pin, and its cells.
#[derive(Drop)]
pub struct Block {
    pub kind: u8,
    pub pins: Vec<Source>,
    pub cells: Vec<Signal>,
}

// Blocks in run order, and the output records.
// Kept without a model: plain data, whose fields those who load, run, save and trace read and write.
#[derive(Drop)]
pub struct Page {
    pub blocks: Vec<Block>,
    pub outputs: Vec<OutputRecord>,
}
