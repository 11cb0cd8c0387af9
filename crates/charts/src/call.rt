// The calls on a box.
use signals::Signal;

#[derive(Clone, Copy, Debug)]
pub enum Call {
    // Sets an input terminal.
    Sample { terminal: u8, signal: Signal },
    // Sets the constant of a pin.
    Tune { block: u8, pin: u8, signal: Signal },
    // Steps each block once, in run order.
    Cycle,
    // Sets all cells to their starting values.
    Restart,
    // Asks for an output of a block.
    Read { block: u8, output: u8 },
    // Asks for the signal at an output terminal.
    Show { terminal: u8 },
    // Asks for the chart, to be written into a buffer of so many bytes.
    Save { room: usize },
}

// What a call answers where it is not refused.
#[derive(Clone, Copy, Debug, PartialEq)]
pub enum Reply {
    // It is done, and there is nothing to say.
    Done,
    // The signal that was asked for.
    Signal(Signal),
    // How many bytes were written.
    Bytes(usize),
}
