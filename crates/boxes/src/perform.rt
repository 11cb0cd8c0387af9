// Any call on a box, as one function.
ghost use Rattle.blocks.specs.Refusals.{numbered};
ghost use Rattle.boxes.specs.Answers.{IsPerformed};

use crate::gate_box::GateBox;
use blocks::{Library, Refusal};
use charts::{Call, Reply};

impl<L: Library> GateBox<L> {
    // Makes a call. A save is answered as one into a buffer with that much room.
    // Kept: calls are a closed enum, and a match over it is the plain form.
    pub fn perform(&mut self, call: Call) -> Result<Reply, Refusal>
        ensures { IsPerformed L.Library.meaning self.old call (numbered result) self.new }
    {
        match call {
            Call::Sample { terminal, signal } => self
                .sample(terminal, signal)
                .map(|()| Reply::Done),
            Call::Tune { block, pin, signal } => self
                .tune(block, pin, signal)
                .map(|()| Reply::Done),
            Call::Cycle => {
                self.cycle();
                Ok(Reply::Done)
            }
            Call::Restart => {
                self.restart();
                Ok(Reply::Done)
            }
            Call::Read { block, output } => self.read(block, output).map(Reply::Signal),
            Call::Show { terminal } => self.show(terminal).map(Reply::Signal),
            Call::Save { room } => self.chart_length(room).map(Reply::Bytes),
        }
    }
}
