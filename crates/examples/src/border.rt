// Rules at their borders: one step of a block, held to what its rule must give.
ghost use Rattle.std.specs.Prelude.{IfOk};
ghost use Rattle.examples.specs.Blocks.{SteppedOnce};

use crate::block::Block;
use crate::fault::Fault;
use crate::numbers::{ADD, ADD_D, DIV_D, LIM_D, N2_R, R_D};
use crate::text::{Listed, verdict};
use blocks::Library;
use signals::Signal;
use std::alloc::Global;

// A first step of a kind over some pins, and the cells that its rule gives.
struct Case<'a> {
    what: &'a str,
    kind: u8,
    pins: &'a [Signal],
    expected: &'a [Signal],
}

const CASES: [Case<'static>; 10] = [
    // N2_R with X = BV: the product is rounded first, so it may leave the range where the answer would not.
    Case {
        what: "N2_R 16384 * 1.5 / 16384",
        kind: N2_R,
        pins: &[Signal::Int(16384), Signal::Real(1.5), Signal::Int(16384)],
        expected: &[Signal::Real(1.5)],
    },
    Case {
        what: "N2_R 16384 * 3E38 / 16384",
        kind: N2_R,
        pins: &[Signal::Int(16384), Signal::Real(3e38), Signal::Int(16384)],
        expected: &[Signal::Real(f32::MAX)],
    },
    Case {
        what: "N2_R 0 * 1.5 / 0",
        kind: N2_R,
        pins: &[Signal::Int(0), Signal::Real(1.5), Signal::Int(0)],
        expected: &[Signal::Real(0.0)],
    },
    // Sums that leave their range, and the sum of two negative zeros.
    Case {
        what: "ADD 3E38 + 3E38",
        kind: ADD,
        pins: &[Signal::Real(3e38), Signal::Real(3e38)],
        expected: &[Signal::Real(f32::MAX)],
    },
    Case {
        what: "ADD -0.0 + -0.0",
        kind: ADD,
        pins: &[Signal::Real(-0.0), Signal::Real(-0.0)],
        expected: &[Signal::Real(0.0)],
    },
    Case {
        what: "ADD_D 2147483647 + 1",
        kind: ADD_D,
        pins: &[Signal::Dint(2147483647), Signal::Dint(1)],
        expected: &[Signal::Dint(2147483647)],
    },
    // Quotients, a limit and a conversion, each with its flags.
    Case {
        what: "DIV_D -7 by 2",
        kind: DIV_D,
        pins: &[Signal::Dint(-7), Signal::Dint(2)],
        expected: &[Signal::Dint(-3), Signal::Dint(-1), Signal::Bool(false)],
    },
    Case {
        what: "DIV_D -7 by 0",
        kind: DIV_D,
        pins: &[Signal::Dint(-7), Signal::Dint(0)],
        expected: &[
            Signal::Dint(-2147483648),
            Signal::Dint(0),
            Signal::Bool(true),
        ],
    },
    Case {
        what: "LIM_D 5 between 0 and 5",
        kind: LIM_D,
        pins: &[Signal::Dint(5), Signal::Dint(5), Signal::Dint(0)],
        expected: &[Signal::Dint(5), Signal::Bool(true), Signal::Bool(false)],
    },
    Case {
        what: "R_D 2147483648.0",
        kind: R_D,
        pins: &[Signal::Real(2147483648.0)],
        expected: &[Signal::Dint(2147483647), Signal::Bool(true)],
    },
];

pub fn print_all<L: Library>(rt: &HostRuntime, library: &L) -> anyhow::Result<()> {
    for case in &CASES {
        print_case(rt, library, case)?;
    }
    Ok(())
}

fn print_case<L: Library>(rt: &HostRuntime, library: &L, case: &Case) -> anyhow::Result<()> {
    let block = stepped_once(rt.alloc(), library, case.kind, case.pins)?;
    let what = case.what;
    let verdict = verdict(case.expected, block.cells());
    let expected = Listed(case.expected);
    let got = Listed(block.cells());
    println!(rt; "{what}: expected {expected}, got {got}, {verdict}")?;
    Ok(())
}

fn stepped_once<L: Library>(
    heap: Global,
    library: &L,
    kind: u8,
    pins: &[Signal],
) -> Result<Block, Fault>
    ensures { IfOk result (λ b. SteppedOnce (L.Library.meaning library.now) kind pins.now b) }
{
    let mut block = Block::new(heap, library, kind)?;
    block.step(library, pins)?;
    Ok(block)
}
