// The types of the terminals.
ghost use Rattle.std.specs.Prelude.{◌≡◌};
ghost use Rattle.signals.specs.Terminals.{terminal_type, TerminalsByType};

use crate::signal::SignalType;

// The type of an input or output terminal, by its number: none from 32 on.
pub fn type_of_terminal(terminal: u8) -> Option<SignalType>
    ensures { result ≡ terminal_type terminal }
{
    match terminal {
        0..=7 => Some(SignalType::Bool),
        8..=15 => Some(SignalType::Int),
        16..=23 => Some(SignalType::Dint),
        24..=31 => Some(SignalType::Real),
        _ => None,
    }
}

// Theorem: each type has eight terminals.
pub fn terminals_go_by_type()
    ensures { TerminalsByType }
{}
