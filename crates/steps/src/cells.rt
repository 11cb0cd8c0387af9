// New cells in place of the old ones.
ghost use Rattle.std.specs.Prelude.{◌≡◌, map};
ghost use Rattle.blocks.specs.Meanings.{typed};
ghost use Rattle.blocks.specs.Refusals.{numbered};
ghost use Rattle.signals.specs.Signals.{type_of};
ghost use Rattle.steps.specs.Rules.{replaced};

use blocks::Refusal;
use signals::Signal;

// Replaces the cells by as many of the same types, and refuses any other cells.
pub(crate) fn put<const N: usize>(cells: &mut [Signal], new: [Signal; N]) -> Result<(), Refusal>
    ensures { (numbered result, cells.new) ≡ replaced new.entry cells.old }
{
    if !are_same_types(&new, cells) {
        return Err(Refusal::WrongSignal);
    }
    cells.copy_from_slice(&new);
    Ok(())
}

// Whether there are as many new cells as old ones, each of the type of the old one.
// Kept as a length and pairs: `Iterator::eq` over two mapped lists says it in one word, and its contract in more than these two.
fn are_same_types(new: &[Signal], old: &[Signal]) -> bool
    ensures { result ≡ typed (map type_of new.now) old.now }
{
    new.len() == old.len()
        && new
            .iter()
            .zip(old)
            .all(|(new, old)| new.signal_type() == old.signal_type())
}
