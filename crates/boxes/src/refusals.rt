// Why sample and tune refuse.
ghost use Rattle.std.specs.Prelude.{◌≡◌};
ghost use Rattle.charts.specs.Calls.{refusal_of_signal, sample_refusal, tune_refusal};
ghost use Rattle.boxes.specs.Answers.{refusal_in};

use blocks::Refusal;
use charts::Source;
use signals::{Signal, SignalType};

pub(crate) fn check_sample(terminal_type: Option<SignalType>, signal: Signal) -> Result<(), Refusal>
    ensures { refusal_in result ≡ sample_refusal terminal_type signal }
{
    check_signal(terminal_type.ok_or(Refusal::Missing)?, signal)
}

pub(crate) fn check_tune(
    source: Option<Source>,
    pin_type: Option<SignalType>,
    signal: Signal,
) -> Result<(), Refusal>
    ensures { refusal_in result ≡ tune_refusal source pin_type signal }
{
    match source {
        Some(Source::Constant(_)) => check_signal(pin_type.ok_or(Refusal::WrongSignal)?, signal),
        Some(_) => Err(Refusal::Wired),
        None => Err(Refusal::Missing),
    }
}

// A signal of the type, and clean.
fn check_signal(signal_type: SignalType, signal: Signal) -> Result<(), Refusal>
    ensures { refusal_in result ≡ refusal_of_signal signal_type signal }
{
    if signal_type == signal.signal_type() && signal.is_clean() {
        Ok(())
    } else {
        Err(Refusal::WrongSignal)
    }
}
