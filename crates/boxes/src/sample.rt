// Sample: sets an input terminal.
ghost use Rattle.charts.specs.declared.call.Call.{Call};
ghost use Rattle.boxes.specs.Answers.{done_or, IsPerformed};

use crate::gate_box::GateBox;
use crate::refusals::check_sample;
use blocks::{Library, Refusal};
use signals::Signal;
use signals::terminals::type_of_terminal;

impl<L: Library> GateBox<L> {
    // Refuses a missing terminal, then a signal of another type or a REAL that is not clean.
    pub fn sample(&mut self, terminal: u8, signal: Signal) -> Result<(), Refusal>
        ensures { IsPerformed L.Library.meaning self.old (Call.Sample terminal signal) (done_or result) self.new }
    {
        check_sample(type_of_terminal(terminal), signal)?;
        self.terminals[usize::from(terminal)] = signal;
        Ok(())
    }
}
