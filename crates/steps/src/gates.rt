// The steps of the gates, the memory and the switches.
ghost use Rattle.std.specs.Prelude.{◌≡◌};
ghost use Rattle.blocks.specs.Refusals.{numbered};
ghost use Rattle.steps.specs.Rules.{stepped_kind};
ghost use Rattle.table.specs.declared.Kind.TheVariants.{And, Or, Not, Rsr, NswD, Hys};

use crate::cells::put;
use blocks::Refusal;
use rules::gates;
use signals::Signal;

// Kept, here and in the other files: steps that differ in their pattern and their rule. With the rule passed as a closure the contract is longer than the body.
pub(crate) fn step_and(pins: &[Signal], cells: &mut [Signal]) -> Result<(), Refusal>
    ensures { (numbered result, cells.new) ≡ stepped_kind And pins.now cells.old }
{
    match pins {
        [Signal::Bool(i1), Signal::Bool(i2)] => put(cells, [Signal::Bool(gates::and(*i1, *i2))]),
        _ => Err(Refusal::WrongSignal),
    }
}

pub(crate) fn step_or(pins: &[Signal], cells: &mut [Signal]) -> Result<(), Refusal>
    ensures { (numbered result, cells.new) ≡ stepped_kind Or pins.now cells.old }
{
    match pins {
        [Signal::Bool(i1), Signal::Bool(i2)] => put(cells, [Signal::Bool(gates::or(*i1, *i2))]),
        _ => Err(Refusal::WrongSignal),
    }
}

pub(crate) fn step_not(pins: &[Signal], cells: &mut [Signal]) -> Result<(), Refusal>
    ensures { (numbered result, cells.new) ≡ stepped_kind Not pins.now cells.old }
{
    match pins {
        [Signal::Bool(i)] => put(cells, [Signal::Bool(gates::not(*i))]),
        _ => Err(Refusal::WrongSignal),
    }
}

pub(crate) fn step_rsr(pins: &[Signal], cells: &mut [Signal]) -> Result<(), Refusal>
    ensures { (numbered result, cells.new) ≡ stepped_kind Rsr pins.now cells.old }
{
    match (pins, &*cells) {
        ([Signal::Bool(s), Signal::Bool(r)], [Signal::Bool(kept)]) => {
            let q = gates::rsr(*s, *r, *kept);
            put(cells, [Signal::Bool(q)])
        }
        _ => Err(Refusal::WrongSignal),
    }
}

pub(crate) fn step_nsw_d(pins: &[Signal], cells: &mut [Signal]) -> Result<(), Refusal>
    ensures { (numbered result, cells.new) ≡ stepped_kind NswD pins.now cells.old }
{
    match pins {
        [Signal::Dint(x1), Signal::Dint(x2), Signal::Bool(i)] => put(
            cells,
            [Signal::Dint(gates::nsw_d(*x1, *x2, *i))],
        ),
        _ => Err(Refusal::WrongSignal),
    }
}

pub(crate) fn step_hys(pins: &[Signal], cells: &mut [Signal]) -> Result<(), Refusal>
    ensures { (numbered result, cells.new) ≡ stepped_kind Hys pins.now cells.old }
{
    match (pins, &*cells) {
        ([Signal::Dint(x), Signal::Dint(on), Signal::Dint(off)], [Signal::Bool(kept)]) => {
            let q = gates::hys(*x, *on, *off, *kept);
            put(cells, [Signal::Bool(q)])
        }
        _ => Err(Refusal::WrongSignal),
    }
}
