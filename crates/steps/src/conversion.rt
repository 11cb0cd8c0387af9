// The steps of the conversions and the scaling.
ghost use Rattle.std.specs.Prelude.{◌≡◌};
ghost use Rattle.blocks.specs.Refusals.{numbered};
ghost use Rattle.steps.specs.Rules.{stepped_kind};
ghost use Rattle.table.specs.declared.Kind.TheVariants.{IR, RD, N2R};

use crate::cells::put;
use blocks::Refusal;
use rules::conversion;
use rules::conversion::{Setting, Whole};
use signals::Signal;

pub(crate) fn step_i_r(pins: &[Signal], cells: &mut [Signal]) -> Result<(), Refusal>
    ensures { (numbered result, cells.new) ≡ stepped_kind IR pins.now cells.old }
{
    match pins {
        [Signal::Int(x)] => put(cells, [Signal::Real(conversion::i_r(*x))]),
        _ => Err(Refusal::WrongSignal),
    }
}

pub(crate) fn step_r_d(pins: &[Signal], cells: &mut [Signal]) -> Result<(), Refusal>
    ensures { (numbered result, cells.new) ≡ stepped_kind RD pins.now cells.old }
{
    match pins {
        [Signal::Real(x)] => {
            let Whole { y, qf } = conversion::r_d(*x);
            put(cells, [Signal::Dint(y), Signal::Bool(qf)])
        }
        _ => Err(Refusal::WrongSignal),
    }
}

pub(crate) fn step_n2_r(pins: &[Signal], cells: &mut [Signal]) -> Result<(), Refusal>
    ensures { (numbered result, cells.new) ≡ stepped_kind N2R pins.now cells.old }
{
    match pins {
        [Signal::Int(x), Signal::Real(factor), Signal::Int(reference)] => {
            let setting = Setting {
                factor: *factor,
                reference: *reference,
            };
            put(cells, [Signal::Real(conversion::n2_r(*x, setting))])
        }
        _ => Err(Refusal::WrongSignal),
    }
}
