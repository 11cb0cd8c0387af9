// The steps of the sums, the division and the limiters.
ghost use Rattle.std.specs.Prelude.{◌≡◌, [], ◌∷◌};
ghost use Rattle.signals.specs.declared.signal.Signal.{Signal};
ghost use Rattle.blocks.specs.Refusals.{numbered};
ghost use Rattle.steps.specs.Rules.{stepped_kind};
ghost use Rattle.table.specs.declared.Kind.TheVariants.{Add, AddD, DivD, Lim, LimD};

use crate::cells::put;
use blocks::Refusal;
use rules::arithmetic::Divided;
use rules::limiter::Limited;
use rules::{arithmetic, limiter};
use signals::Signal;

pub(crate) fn step_add(pins: &[Signal], cells: &mut [Signal]) -> Result<(), Refusal>
    ensures { (numbered result, cells.new) ≡ stepped_kind Add pins.now cells.old }
{
    match pins {
        [Signal::Real(x1), Signal::Real(x2)] => put(
            cells,
            [Signal::Real(arithmetic::add(*x1, *x2))],
        ),
        _ => Err(Refusal::WrongSignal),
    }
}

pub(crate) fn step_add_d(pins: &[Signal], cells: &mut [Signal]) -> Result<(), Refusal>
    ensures { (numbered result, cells.new) ≡ stepped_kind AddD pins.now cells.old }
{
    match pins {
        [Signal::Dint(x1), Signal::Dint(x2)] => put(
            cells,
            [Signal::Dint(arithmetic::add_d(*x1, *x2))],
        ),
        _ => Err(Refusal::WrongSignal),
    }
}

pub(crate) fn step_div_d(pins: &[Signal], cells: &mut [Signal]) -> Result<(), Refusal>
    ensures { (numbered result, cells.new) ≡ stepped_kind DivD pins.now cells.old }
{
    match pins {
        [Signal::Dint(x1), Signal::Dint(x2)] => {
            let Divided { y, rest, qf } = arithmetic::div_d(*x1, *x2);
            put(
                cells,
                [Signal::Dint(y), Signal::Dint(rest), Signal::Bool(qf)],
            )
        }
        _ => Err(Refusal::WrongSignal),
    }
}

pub(crate) fn step_lim(pins: &[Signal], cells: &mut [Signal]) -> Result<(), Refusal>
    ensures { (numbered result, cells.new) ≡ stepped_kind Lim pins.now cells.old }
{
    match pins {
        [Signal::Real(x), Signal::Real(lu), Signal::Real(ll)] => {
            let new = limiter::limit(*x, *lu, *ll);
            put(cells, limited_cells(new, Signal::Real))
        }
        _ => Err(Refusal::WrongSignal),
    }
}

// Kept: beside step_lim, since the pattern of the pins names the type in each; what they share is limited_cells.
pub(crate) fn step_lim_d(pins: &[Signal], cells: &mut [Signal]) -> Result<(), Refusal>
    ensures { (numbered result, cells.new) ≡ stepped_kind LimD pins.now cells.old }
{
    match pins {
        [Signal::Dint(x), Signal::Dint(lu), Signal::Dint(ll)] => {
            let new = limiter::limit(*x, *lu, *ll);
            put(cells, limited_cells(new, Signal::Dint))
        }
        _ => Err(Refusal::WrongSignal),
    }
}

// The cells of a limiter: Y as a signal of its type, QU and QL.
fn limited_cells<T, F: FnOnce(T) -> Signal>(new: Limited<T>, signal: F) -> [Signal; 3]
    requires { F.IsAlwaysCallable signal }
    ensures { (y : Signal) × F.post signal new.y y × (result ≡ y ∷ Signal.Bool new.qu ∷ Signal.Bool new.ql ∷ []) }
{
    [signal(new.y), Signal::Bool(new.qu), Signal::Bool(new.ql)]
}
