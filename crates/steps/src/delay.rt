// The step of the on-delay.
ghost use Rattle.std.specs.Prelude.{◌≡◌};
ghost use Rattle.blocks.specs.Refusals.{numbered};
ghost use Rattle.steps.specs.Rules.{stepped_kind};
ghost use Rattle.table.specs.declared.Kind.TheVariants.{Pde};

use crate::cells::put;
use blocks::Refusal;
use rules::delay;
use rules::delay::Delayed;
use signals::Signal;

pub(crate) fn step_pde(pins: &[Signal], cells: &mut [Signal]) -> Result<(), Refusal>
    ensures { (numbered result, cells.new) ≡ stepped_kind Pde pins.now cells.old }
{
    match (pins, &*cells) {
        ([Signal::Bool(i), Signal::Dint(t)], [Signal::Bool(_), Signal::Dint(kept)]) => {
            let Delayed { q, n } = delay::pde(*i, *t, *kept);
            put(cells, [Signal::Bool(q), Signal::Dint(n)])
        }
        _ => Err(Refusal::WrongSignal),
    }
}
