// Every refusal of every call on a box, in the order of the tests, and that a refused call alters nothing.
use crate::expected::{CYCLE, DONE, RESTART, held, is, read, sample, save, show, tune};
use charts::Reply;
use signals::Signal;
use std::test::Fail;

// Block 0, ADD_D, adds its own output and the constant 5. Block 1, NOT, reads terminal 0. Block 2, R_D, reads the constant 1.0.
// Terminal 16 shows block 0, terminal 17 the DINT of block 2.
const CHART: [u8; LENGTH] = [
    0x05, 0x02, 0, 0, 0, 0, 0x00, 0, 0, 0, 5, 0x03, 0x01, 0, 0, 0, 0, 0x0E, 0x00, 0x3F, 0x80, 0, 0,
    0x00, 16, 0, 0, 0x00, 17, 2, 0,
];

const LENGTH: usize = 31;

#[test]
fn samples(rt: HostRuntime) -> Result<(), Fail> {
    let wrong = Err(11);
    held(
        &rt,
        &CHART,
        &[
            sample(32, Signal::Bool(true), Err(10)),
            sample(255, Signal::Real(-0.0), Err(10)),
            sample(0, Signal::Int(1), wrong),
            sample(7, Signal::Dint(1), wrong),
            sample(8, Signal::Bool(true), wrong),
            sample(31, Signal::Real(-0.0), wrong),
            sample(31, Signal::Real(f32::INFINITY), wrong),
            sample(31, Signal::Real(f32::NAN), wrong),
            CYCLE,
            read(1, 0, is(Signal::Bool(true))),
            sample(31, Signal::Real(f32::MAX), DONE),
            sample(0, Signal::Bool(true), DONE),
            read(1, 0, is(Signal::Bool(true))),
            CYCLE,
            read(1, 0, is(Signal::Bool(false))),
        ],
    )
}

#[test]
fn tunes(rt: HostRuntime) -> Result<(), Fail> {
    let missing = Err(10);
    let wired = Err(14);
    let wrong = Err(11);
    held(
        &rt,
        &CHART,
        &[
            tune(3, 0, Signal::Dint(1), missing),
            tune(0, 2, Signal::Dint(1), missing),
            tune(0, 0, Signal::Dint(1), wired),
            tune(0, 0, Signal::Bool(true), wired),
            tune(1, 0, Signal::Bool(true), wired),
            tune(1, 0, Signal::Real(-0.0), wired),
            tune(0, 1, Signal::Int(7), wrong),
            tune(2, 0, Signal::Real(f32::NEG_INFINITY), wrong),
            CYCLE,
            read(0, 0, is(Signal::Dint(5))),
            read(2, 0, is(Signal::Dint(1))),
            tune(0, 1, Signal::Dint(-2), DONE),
            tune(2, 0, Signal::Real(7.75), DONE),
            read(0, 0, is(Signal::Dint(5))),
            CYCLE,
            read(0, 0, is(Signal::Dint(3))),
            read(2, 0, is(Signal::Dint(7))),
        ],
    )
}

#[test]
fn reads_and_shows(rt: HostRuntime) -> Result<(), Fail> {
    let missing = Err(10);
    held(
        &rt,
        &CHART,
        &[
            read(3, 0, missing),
            read(0, 1, missing),
            read(2, 2, missing),
            read(2, 1, is(Signal::Bool(false))),
            show(32, missing),
            show(15, is(Signal::Int(0))),
            show(31, is(Signal::Real(0.0))),
            CYCLE,
            show(16, is(Signal::Dint(5))),
            show(17, is(Signal::Dint(1))),
            show(18, is(Signal::Dint(0))),
            show(0, is(Signal::Bool(false))),
        ],
    )
}

// The counter of a PDE is hidden, and cannot be read.
#[test]
fn hidden_cells_are_missing(rt: HostRuntime) -> Result<(), Fail> {
    held(
        &rt,
        &[0x09, 0x00, 0, 0, 0, 1, 0x00, 0, 0, 0, 0],
        &[
            CYCLE,
            read(0, 0, is(Signal::Bool(true))),
            read(0, 1, Err(10)),
        ],
    )
}

// A restart leaves terminals and constants.
#[test]
fn restarts(rt: HostRuntime) -> Result<(), Fail> {
    held(
        &rt,
        &CHART,
        &[
            sample(0, Signal::Bool(true), DONE),
            tune(0, 1, Signal::Dint(9), DONE),
            CYCLE,
            CYCLE,
            read(0, 0, is(Signal::Dint(18))),
            RESTART,
            read(0, 0, is(Signal::Dint(0))),
            read(1, 0, is(Signal::Bool(false))),
            CYCLE,
            read(0, 0, is(Signal::Dint(9))),
            read(1, 0, is(Signal::Bool(false))),
        ],
    )
}

#[test]
fn answers_of_save(rt: HostRuntime) -> Result<(), Fail> {
    let short = Err(13);
    held(
        &rt,
        &CHART,
        &[
            save(0, short),
            save(LENGTH - 1, short),
            save(LENGTH, Ok(Reply::Bytes(LENGTH))),
            save(4096, Ok(Reply::Bytes(LENGTH))),
        ],
    )
}
