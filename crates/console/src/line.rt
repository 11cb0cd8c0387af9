// The lines that a run prints.
ghost use Rattle.std.specs.Prelude.{Some};
ghost use Rattle.console.specs.Lines.{line_text};

use crate::hexadecimal::HexCode;
use signals::Signal;
use signals::coding::encode;
use std::fmt;

// Kept with numbers: a line is what is printed, and 7 is the number of no refusal of a box. Kept beside the Result of a call: what a
// save answers is never printed, and two of the cases answer no call.
#[derive(Clone, Copy)]
pub enum Line {
    // A call was done, and there is nothing to say.
    Done,
    // The signal that a call answered.
    Signal(Signal),
    // A call was refused, with this number.
    Refused(u8),
    // The next call is unknown or cut.
    Stop,
    // The chart was refused, with the number and the place of its fault.
    Chart { number: u8, place: usize },
}

impl fmt::Display for Line {
    ghost output = { λ line. Some (line_text line) };

    fn fmt<W: fmt::Write>(&self, f: &mut fmt::Formatter<W>) -> fmt::Result {
        match *self {
            Line::Done => write!(f, "ok"),
            Line::Signal(signal) => {
                let signal_type = signal.signal_type();
                let code = HexCode(encode(signal));
                write!(f, "{signal_type} {code}")
            }
            Line::Refused(number) => write!(f, "refused {number}"),
            Line::Stop => write!(f, "stop"),
            Line::Chart { number, place } => write!(f, "chart {number} {place}"),
        }
    }
}
