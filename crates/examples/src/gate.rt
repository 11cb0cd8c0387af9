// A gate: six blocks, wired by hand, that open it while the water stands high.
ghost use Rattle.std.specs.Prelude.{◌≡◌, IfOk, Ok};
ghost use Rattle.examples.specs.Gates.{Fresh, Cycled};
ghost use Rattle.examples.specs.Rows.{row_text};
ghost use Rattle.examples.specs.declared.gate.Row.{Row};

use crate::block::Block;
use crate::fault::Fault;
use crate::numbers::{ADD_D, CTR, HYS, LIM_D, NSW_D, PDE};
use crate::text::Shown;
use blocks::Library;
use signals::Signal;
use std::alloc::Global;
use std::fmt;

// The water calls for the gate from the first level up, and until it is down to the second, in mm.
const HIGH_WATER: i32 = 1200;

const LOW_WATER: i32 = 1000;

// A call counts once it has lasted for more cycles than this.
const SHORT_CALL: i32 = 2;

const MOST_OPENINGS: i16 = 99;

// How far the gate goes in a cycle, and between which positions, in cm. It never shuts off the ditches.
const TRAVEL: i32 = 10;

const WIDEST: i32 = 40;

const NARROWEST: i32 = 10;

#[derive(Drop)]
pub struct Gate {
    call: Block,
    delay: Block,
    openings: Block,
    travel: Block,
    aim: Block,
    position: Block,
}

// What a cycle shows: the level, and then the first output of four of the blocks.
#[derive(Clone, Copy)]
pub struct Row {
    hour: u8,
    level: Signal,
    call: Signal,
    delayed: Signal,
    openings: Signal,
    position: Signal,
}

impl Gate {
    pub fn new<L: Library>(heap: Global, library: &L) -> Result<Gate, Fault>
        ensures { IfOk result (λ gate. Fresh (L.Library.meaning library.now) gate) }
    {
        Ok(Gate {
            call: Block::new(heap, library, HYS)?,
            delay: Block::new(heap, library, PDE)?,
            openings: Block::new(heap, library, CTR)?,
            travel: Block::new(heap, library, NSW_D)?,
            aim: Block::new(heap, library, ADD_D)?,
            position: Block::new(heap, library, LIM_D)?,
        })
    }

    // Steps each block once, over what the blocks before it put out.
    pub fn cycle<L: Library>(&mut self, library: &L, hour: u8, level: i32) -> Result<Row, Fault>
        ensures { (row : Row) → result ≡ Ok row → Cycled (L.Library.meaning library.now) hour level self.old self.new row }
    {
        let level = Signal::Dint(level);
        let pins = [level, Signal::Dint(HIGH_WATER), Signal::Dint(LOW_WATER)];
        let call = self.call.advance(library, &pins)?;
        let pins = [call, Signal::Dint(SHORT_CALL)];
        let delayed = self.delay.advance(library, &pins)?;
        let no = Signal::Bool(false);
        let pins = [delayed, no, no, Signal::Int(MOST_OPENINGS), Signal::Int(0)];
        let openings = self.openings.advance(library, &pins)?;
        let pins = [Signal::Dint(-TRAVEL), Signal::Dint(TRAVEL), delayed];
        let travel = self.travel.advance(library, &pins)?;
        let pins = [self.position.first_output()?, travel];
        let aim = self.aim.advance(library, &pins)?;
        let pins = [aim, Signal::Dint(WIDEST), Signal::Dint(NARROWEST)];
        let position = self.position.advance(library, &pins)?;
        Ok(Row {
            hour,
            level,
            call,
            delayed,
            openings,
            position,
        })
    }
}

impl fmt::Display for Row {
    ghost output = { λ row. row_text row };

    fn fmt<W: fmt::Write>(&self, f: &mut fmt::Formatter<W>) -> fmt::Result {
        // Kept as two digits: with `{:02}` the text of a row would be stated by what padding does, which is no plainer.
        let tens = self.hour / 10;
        let ones = self.hour % 10;
        let level = Shown(self.level);
        let call = Shown(self.call);
        let delayed = Shown(self.delayed);
        let openings = Shown(self.openings);
        let position = Shown(self.position);
        write!(
            f,
            "{tens}{ones}:00  level {level}  call {call}  delayed {delayed}  openings {openings}  gate {position}"
        )
    }
}
