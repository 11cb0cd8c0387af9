// What a request asks of a box.
ghost use Rattle.std.specs.Prelude.{◌≡◌};
ghost use Rattle.blocks.specs.Refusals.{numbered};
ghost use Rattle.console.specs.Asked.{signal_of, outside as is_outside, call_of, code_outside, line_of, asked};

use crate::line::Line;
use crate::request::Request;
use blocks::{Library, Refusal};
use boxes::GateBox;
use charts::{Call, Reply};
use signals::coding::decode;
use signals::terminals::type_of_terminal;
use signals::{Signal, SignalType};

// Makes the call of a request and gives the line that says what it answered.
pub fn ask<L: Library>(gate_box: &mut GateBox<L>, request: Request) -> Line
    ensures asked { (result, gate_box.new.box) ≡ asked (L.Library.meaning gate_box.old.library) gate_box.old.box request }
    ensures library { gate_box.new.library ≡ gate_box.old.library }
{
    let outside = is_code_outside(gate_box, request);
    let call = call_of(gate_box, request);
    answer_line(outside, gate_box.perform(call))
}

// The call of a request. A code outside its type brings a signal of another type, which the box refuses.
fn call_of<L: Library>(gate_box: &GateBox<L>, request: Request) -> Call
    ensures { result ≡ call_of (L.Library.meaning gate_box.now.library) gate_box.now.box request }
{
    match request {
        Request::Sample { terminal, code } => Call::Sample {
            terminal,
            signal: signal_of(type_of_terminal(terminal), code),
        },
        Request::Tune { block, pin, code } => Call::Tune {
            block,
            pin,
            signal: signal_of(gate_box.pin_type(block, pin), code),
        },
        Request::Cycle => Call::Cycle,
        Request::Restart => Call::Restart,
        Request::Read { block, output } => Call::Read { block, output },
        Request::Show { terminal } => Call::Show { terminal },
    }
}

// Whether a request brings a code outside the type of its terminal or pin.
// Kept beside the call that it makes: the box is asked in any case, since only it knows whether 10 or 14 comes first.
fn is_code_outside<L: Library>(gate_box: &GateBox<L>, request: Request) -> bool
    ensures { result ≡ code_outside (L.Library.meaning gate_box.now.library) gate_box.now.box request }
{
    match request {
        Request::Sample { terminal, code } => is_outside(type_of_terminal(terminal), code),
        Request::Tune { block, pin, code } => is_outside(gate_box.pin_type(block, pin), code),
        _ => false,
    }
}

// The signal of a code at a type; a REAL where there is none, which is then of another type, since every code is one of a REAL.
fn signal_of(signal_type: Option<SignalType>, code: [u8; 4]) -> Signal
    ensures { result ≡ signal_of signal_type code }
{
    signal_type
        .and_then(|signal_type| decode(signal_type, code))
        .unwrap_or(Signal::Real(0.0))
}

fn is_outside(signal_type: Option<SignalType>, code: [u8; 4]) -> bool
    ensures { result ≡ is_outside signal_type code }
{
    signal_type.is_some_and(|signal_type| decode(signal_type, code).is_none())
}

// The line of an answer: 7 stands in the place of 11 where the code was outside its type.
fn answer_line(outside: bool, answer: Result<Reply, Refusal>) -> Line
    ensures { result ≡ line_of outside (numbered answer) }
{
    match answer {
        Ok(Reply::Signal(signal)) => Line::Signal(signal),
        Ok(_) => Line::Done,
        Err(Refusal::WrongSignal) if outside => Line::Refused(7),
        Err(refusal) => Line::Refused(refusal.number()),
    }
}
