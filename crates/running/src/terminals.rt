// The input terminals as a box starts with them.
ghost use Rattle.std.specs.Prelude.{◌≡◌};
ghost use Rattle.signals.specs.Terminals.{terminal_type};
ghost use Rattle.charts.specs.Boxes.{zero_at, zeros_from};

use signals::terminals::type_of_terminal;
use signals::{Signal, SignalType};

// The input terminals, each at the zero of its type.
pub fn zero_terminals() -> [Signal; 32]
    ensures { result ≡ zeros_from 0 32 }
{
    std::array::from_fn(|terminal| zero_of_terminal(terminal as u8))
}

fn zero_of_terminal(terminal: u8) -> Signal
    ensures { result ≡ zero_at (terminal_type terminal) }
{
    type_of_terminal(terminal).map_or(Signal::Bool(false), SignalType::zero)
}
