// What a page is made of.
use signals::Signal;

// Where a pin takes its signal: a constant, an input terminal, or an output of a block.
// Kept as numbers of blocks: a chart holds them, and charts feed back, so no block can own another.
#[derive(Clone, Copy, Debug)]
pub enum Source {
    Constant(Signal),
    Terminal(u8),
    Output { block: u8, output: u8 },
}

// Sets an output terminal: it shows the named output.
// Kept: a block and an output of it go as two bytes, as a chart and the calls have them.
#[derive(Clone, Copy, Debug)]
pub struct OutputRecord {
    pub terminal: u8,
    pub block: u8,
    pub output: u8,
}
