// A signal in four bytes, high byte first.
ghost use Rattle.std.specs.Prelude.{◌≡◌};
ghost use Rattle.signals.specs.Coding.{encoded, decoded, CodingFaithful};

use crate::signal::{Signal, SignalType};
use std::num::{f32_from_bits_with_nan, f32_to_bits_with_nan};

// Kept as a pair of functions: decoding is told the type, which no conversion trait can be, and a `From` for the one half would part them.
// A 32-bit two's complement number, for REAL the bits. What is not a number has the one pattern 7FC00000.
pub fn encode(signal: Signal) -> [u8; 4]
    ensures { result ≡ encoded signal }
{
    match signal {
        Signal::Bool(b) => i32::from(b).to_be_bytes(),
        Signal::Int(n) => i32::from(n).to_be_bytes(),
        Signal::Dint(n) => n.to_be_bytes(),
        Signal::Real(x) => f32_to_bits_with_nan(x).to_be_bytes(),
    }
}

// The signal of a type that four bytes stand for, none where the number lies outside the type.
pub fn decode(signal_type: SignalType, bytes: [u8; 4]) -> Option<Signal>
    ensures { result ≡ decoded signal_type bytes }
{
    let number = i32::from_be_bytes(bytes);
    match signal_type {
        SignalType::Bool => match number {
            0 => Some(Signal::Bool(false)),
            1 => Some(Signal::Bool(true)),
            _ => None,
        },
        SignalType::Int => i16::try_from(number).ok().map(Signal::Int),
        SignalType::Dint => Some(Signal::Dint(number)),
        SignalType::Real => Some(Signal::Real(f32_from_bits_with_nan(u32::from_be_bytes(bytes)))),
    }
}

// Theorem: no signal is lost in its coding.
pub fn coding_is_faithful()
    ensures { CodingFaithful }
{}
