// The names of the types.
ghost use Rattle.std.specs.Prelude.{Some};
ghost use Rattle.signals.specs.Names.{type_name};

use crate::signal::SignalType;
use std::fmt;

impl fmt::Display for SignalType {
    ghost output = { λ signal_type. Some (type_name signal_type) };

    fn fmt<W: fmt::Write>(&self, f: &mut fmt::Formatter<W>) -> fmt::Result {
        match *self {
            SignalType::Bool => write!(f, "BOOL"),
            SignalType::Int => write!(f, "INT"),
            SignalType::Dint => write!(f, "DINT"),
            SignalType::Real => write!(f, "REAL"),
        }
    }
}
