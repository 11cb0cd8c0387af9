// Walk two: each pin and each output record.
ghost use Rattle.std.specs.Prelude.{◌≡◌};
ghost use Rattle.signals.specs.Coding.{decoded};
ghost use Rattle.blocks.specs.Meanings.{pin_type_of};
ghost use Rattle.charts.specs.Pages.{wire_type};
ghost use Rattle.charts.specs.Loading.{fault_of_type, fault_of_constant, fault_of_pin};
ghost use Rattle.loading.specs.FaultNumbers.{fault_in};
ghost use Rattle.loading.specs.Walks.{WalkedTwo, fault_of_output_record, fault_before_pins, pin_of, fault_at_pin};

use crate::fault::{Fault, LoadError};
use crate::lookup::output_type;
use crate::record::{Record, output_record, split_record};
use blocks::Library;
use charts::OutputRecord;
use signals::SignalType;
use signals::coding::decode;
use signals::terminals::type_of_terminal;

// What a wire may come from: the kinds of the chart's blocks in their order, and the library that knows the kinds.
// Kept without a model: its clauses speak of both parts, and a view would be the two again.
#[derive(Drop)]
pub(crate) struct Wiring<'a, L> {
    pub(crate) library: &'a L,
    pub(crate) kinds: &'a [u8],
}

impl<L: Library> Wiring<'_, L> {
    // Refuses a chart for the first fault of walk two, record by record and pin by pin.
    pub(crate) fn walk_two(&self, chart: &[u8]) -> Result<(), LoadError>
        ensures { WalkedTwo (L.Library.meaning self.now.library.now) self.now.kinds.now chart.now result }
    {
        let mut tested = Ok(());
        let mut rest = chart;
        // Kept: both loops are left by a label at the first fault, a rule of the project.
        'walk: while let Some((found, behind)) = split_record(self.library, rest) {
            let place = chart.len() - rest.len();
            if let Err(fault) = self.test_output(&found) {
                tested = Err(LoadError::Refused { fault, place });
                break 'walk;
            }
            let (pins, _) = found.body.as_chunks::<5>();
            for (number, pin) in pins.iter().enumerate() {
                if let Err(fault) = self.test_pin(found.kind, number, *pin) {
                    tested = Err(LoadError::Refused { fault, place });
                    break 'walk;
                }
            }
            rest = behind;
        }
        tested
    }

    // An output record is tested before any pins; of a block nothing is.
    fn test_output(&self, found: &Record<'_>) -> Result<(), Fault>
        ensures { fault_in result ≡ fault_before_pins (L.Library.meaning self.now.library.now).shape self.now.kinds.now found.now.kind found.now.body.now }
    {
        if found.kind == 0 {
            self.test_output_record(output_record(found.body))
        } else {
            Ok(())
        }
    }

    // The terminal, the block and the output are there, and the two types are one.
    fn test_output_record(&self, found: OutputRecord) -> Result<(), Fault>
        ensures { fault_in result ≡ fault_of_output_record (L.Library.meaning self.now.library.now).shape self.now.kinds.now found }
    {
        let wanted = type_of_terminal(found.terminal).ok_or(Fault::Missing)?;
        test_type(wanted, self.output_type(found.block, found.output))
    }

    // A pin by its number; past the pins of the kind nothing is tested.
    fn test_pin(&self, kind: u8, number: usize, pin: [u8; 5]) -> Result<(), Fault>
        ensures { fault_in result ≡ fault_at_pin (L.Library.meaning self.now.library.now).shape self.now.kinds.now (pin_type_of (L.Library.meaning self.now.library.now) kind number) (pin_of pin) }
    {
        match self.library.pin_type(kind, number) {
            Some(wanted) => self.test_source(wanted, pin),
            None => Ok(()),
        }
    }

    // What a pin of a type takes its signal from.
    fn test_source(&self, wanted: SignalType, pin: [u8; 5]) -> Result<(), Fault>
        ensures { fault_in result ≡ fault_of_pin (L.Library.meaning self.now.library.now).shape self.now.kinds.now wanted (pin_of pin) }
    {
        match pin {
            [0, a, b, c, d] => test_constant(wanted, [a, b, c, d]),
            [1, 0, 0, 0, terminal] => test_type(wanted, type_of_terminal(terminal)),
            [2, 0, 0, block, output] => test_type(wanted, self.output_type(block, output)),
            _ => Err(Fault::Malformed),
        }
    }

    // The type of an output of a block, none where the block or the output is missing.
    fn output_type(&self, block: u8, output: u8) -> Option<SignalType>
        ensures { result ≡ wire_type (L.Library.meaning self.now.library.now).shape self.now.kinds.now block output }
    {
        let kind = self.kinds.get(usize::from(block)).copied()?;
        output_type(self.library, kind, output)
    }
}

// A constant is within its type, and a REAL is clean.
fn test_constant(wanted: SignalType, bytes: [u8; 4]) -> Result<(), Fault>
    ensures { fault_in result ≡ fault_of_constant (decoded wanted bytes) }
{
    match decode(wanted, bytes) {
        Some(signal) if signal.is_clean() => Ok(()),
        _ => Err(Fault::UnfitConstant),
    }
}

// What is wired is there, and has the type that is wanted.
fn test_type(wanted: SignalType, found: Option<SignalType>) -> Result<(), Fault>
    ensures { fault_in result ≡ fault_of_type wanted found }
{
    match found {
        Some(signal_type) if signal_type == wanted => Ok(()),
        Some(_) => Err(Fault::TypesDiffer),
        None => Err(Fault::Missing),
    }
}
