// The step of the counter.
ghost use Rattle.std.specs.Prelude.{◌≡◌};
ghost use Rattle.blocks.specs.Refusals.{numbered};
ghost use Rattle.steps.specs.Rules.{stepped_kind, counter_pins, counter_memory};
ghost use Rattle.table.specs.declared.Kind.TheVariants.{Ctr};

use crate::cells::put;
use blocks::Refusal;
use rules::counter;
use rules::counter::{CounterMemory, CounterPins};
use signals::Signal;

pub(crate) fn step_ctr(pins: &[Signal], cells: &mut [Signal]) -> Result<(), Refusal>
    ensures { (numbered result, cells.new) ≡ stepped_kind Ctr pins.now cells.old }
{
    let (Some(pins), Some(memory)) = (pins_of(pins), memory_of(cells)) else {
        return Err(Refusal::WrongSignal);
    };
    let new = counter::ctr(pins, memory);
    put(
        cells,
        [
            Signal::Int(new.count.y),
            Signal::Bool(new.count.qu),
            Signal::Bool(new.count.ql),
            Signal::Bool(new.pu),
            Signal::Bool(new.pd),
        ],
    )
}

// The pins by name, none where they are not a counter's.
// Kept as functions, this and the next: `TryFrom` cannot stand here, since their types are of `rules`, which knows no signals.
fn pins_of(pins: &[Signal]) -> Option<CounterPins>
    ensures { result ≡ counter_pins pins.now }
{
    match pins {
        [
            Signal::Bool(iu),
            Signal::Bool(id),
            Signal::Bool(r),
            Signal::Int(lu),
            Signal::Int(ll),
        ] => Some(CounterPins {
            iu: *iu,
            id: *id,
            r: *r,
            lu: *lu,
            ll: *ll,
        }),
        _ => None,
    }
}

// What the cells remember, none where they are not a counter's.
fn memory_of(cells: &[Signal]) -> Option<CounterMemory>
    ensures { result ≡ counter_memory cells.now }
{
    match cells {
        [
            Signal::Int(y),
            Signal::Bool(_),
            Signal::Bool(_),
            Signal::Bool(pu),
            Signal::Bool(pd),
        ] => Some(CounterMemory {
            y: *y,
            pu: *pu,
            pd: *pd,
        }),
        _ => None,
    }
}
