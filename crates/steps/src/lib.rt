// A step of a kind: takes its pins apart, works out its rule and writes the new cells.
#![tactic(auto)]

ghost use Rattle.std.specs.Prelude.{◌≡◌};
ghost use Rattle.blocks.specs.Refusals.{numbered};
ghost use Rattle.steps.specs.Rules.{stepped_kind};

use blocks::Refusal;
use signals::Signal;
use table::Kind;

mod arithmetic;
mod cells;
mod conversion;
mod counter;
mod delay;
mod gates;

// Refuses a wrong count or type of signals, and leaves the cells then.
// Kept: kinds are a closed enum, and a match over it is the plain form of a choice among their steps.
pub fn step(kind: Kind, pins: &[Signal], cells: &mut [Signal]) -> Result<(), Refusal>
    ensures { (numbered result, cells.new) ≡ stepped_kind kind pins.now cells.old }
{
    match kind {
        Kind::And => gates::step_and(pins, cells),
        Kind::Or => gates::step_or(pins, cells),
        Kind::Not => gates::step_not(pins, cells),
        Kind::Rsr => gates::step_rsr(pins, cells),
        Kind::NswD => gates::step_nsw_d(pins, cells),
        Kind::Hys => gates::step_hys(pins, cells),
        Kind::Add => arithmetic::step_add(pins, cells),
        Kind::AddD => arithmetic::step_add_d(pins, cells),
        Kind::DivD => arithmetic::step_div_d(pins, cells),
        Kind::Lim => arithmetic::step_lim(pins, cells),
        Kind::LimD => arithmetic::step_lim_d(pins, cells),
        Kind::Pde => delay::step_pde(pins, cells),
        Kind::Ctr => counter::step_ctr(pins, cells),
        Kind::IR => conversion::step_i_r(pins, cells),
        Kind::RD => conversion::step_r_d(pins, cells),
        Kind::N2R => conversion::step_n2_r(pins, cells),
    }
}
