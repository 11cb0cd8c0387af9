// Read and show: they alter nothing.
ghost use Rattle.std.specs.Prelude.{◌≡◌, ◌==◌};
ghost use Rattle.std.specs.List.{find};
ghost use Rattle.charts.specs.declared.call.Call.{Call};
ghost use Rattle.charts.specs.Calls.{perform, shown_by};
ghost use Rattle.boxes.specs.Answers.{signal_or};

use crate::gate_box::GateBox;
use blocks::{Library, Refusal};
use charts::OutputRecord;
use loading::lookup::{cell_at, output_type};
use signals::terminals::type_of_terminal;
use signals::{Signal, SignalType};

impl<L: Library> GateBox<L> {
    // An output of a block. Refuses a missing block or output; hidden cells are no outputs.
    pub fn read(&self, block: u8, output: u8) -> Result<Signal, Refusal>
        ensures { (signal_or result, self.now.box) ≡ perform (L.Library.meaning self.now.library) self.now.box (Call.Read block output) }
    {
        let kind = self.page.kind(block).ok_or(Refusal::Missing)?;
        output_type(&self.library, kind, output).ok_or(Refusal::Missing)?;
        Ok(cell_at(&self.page.blocks, block, output))
    }

    // The cell behind an output terminal, or its type's zero without a record. Refuses a missing terminal.
    pub fn show(&self, terminal: u8) -> Result<Signal, Refusal>
        ensures { (signal_or result, self.now.box) ≡ perform (L.Library.meaning self.now.library) self.now.box (Call.Show terminal) }
    {
        let signal_type = type_of_terminal(terminal).ok_or(Refusal::Missing)?;
        Ok(self.shown(terminal, signal_type))
    }

    #[tactic(auto, using(crate::proofs::Shows::shown_by_find))]
    fn shown(&self, terminal: u8, signal_type: SignalType) -> Signal
        ensures { result ≡ shown_by self.now.box.page.outputs self.now.box terminal signal_type }
    {
        self.record_of(terminal)
            .map_or(signal_type.zero(), |record| {
                cell_at(&self.page.blocks, record.block, record.output)
            })
    }

    // The first record of an output terminal, none where it has none.
    fn record_of(&self, terminal: u8) -> Option<OutputRecord>
        ensures { result ≡ find (λ r. r.terminal == terminal) self.now.box.page.outputs }
    {
        let mut records = self.page.outputs.iter().copied();
        records.find(|record| record.terminal == terminal)
    }
}
