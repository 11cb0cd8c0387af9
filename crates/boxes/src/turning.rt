// The cycle and the restart of a box. Neither is ever refused.
// Kept: that the library stays is a clause of its own here, where no answer goes with it; the calls that answer say both as one fact.
ghost use Rattle.std.specs.Prelude.{◌≡◌, ℕ};
ghost use Rattle.charts.specs.Boxes.{cycled, restarted, CycleLaw};
ghost use Rattle.charts.specs.Laws.{SoundBox, NoStepRefused};

use crate::gate_box::GateBox;
use blocks::Library;
use running::cycle::step_page;
use running::restart::restart_page;

impl<L: Library> GateBox<L> {
    // Steps each block once, in run order. A pin takes its constant, its terminal or the named cell
    // as it then stands.
    pub fn cycle(&mut self)
        ensures cycled { self.new.box ≡ cycled (L.Library.meaning self.old.library) self.old.box }
        ensures library { self.new.library ≡ self.old.library }
        ensures law { (limit : ℕ) → SoundBox (L.Library.meaning self.old.library) limit self.old.box → CycleLaw (L.Library.meaning self.old.library) self.old.box self.new.box × NoStepRefused (L.Library.meaning self.old.library) self.old.box }
    {
        step_page(&self.library, &self.terminals, &mut self.page);
    }

    // Sets all cells to their starting values, and nothing else.
    pub fn restart(&mut self)
        ensures restarted { self.new.box ≡ restarted (L.Library.meaning self.old.library) self.old.box }
        ensures library { self.new.library ≡ self.old.library }
    {
        restart_page(&self.library, &mut self.page);
    }
}
