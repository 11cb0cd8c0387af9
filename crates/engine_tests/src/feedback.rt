// Charts that feed back.
use crate::expected::{CYCLE, DONE, RESTART, held, is, read, sample};
use signals::Signal;
use std::test::Fail;

#[test]
fn a_not_wired_to_itself(rt: HostRuntime) -> Result<(), Fail> {
    held(
        &rt,
        &[0x03, 0x02, 0, 0, 0, 0],
        &[
            read(0, 0, is(Signal::Bool(false))),
            CYCLE,
            read(0, 0, is(Signal::Bool(true))),
            CYCLE,
            read(0, 0, is(Signal::Bool(false))),
            CYCLE,
            read(0, 0, is(Signal::Bool(true))),
            RESTART,
            read(0, 0, is(Signal::Bool(false))),
        ],
    )
}

// Block 0 takes block 1 as it stood in the last cycle, block 1 takes block 0 as it stands in this one, so they always differ.
#[test]
fn a_ring_of_two(rt: HostRuntime) -> Result<(), Fail> {
    held(
        &rt,
        &[0x03, 0x02, 0, 0, 1, 0, 0x03, 0x02, 0, 0, 0, 0],
        &[
            CYCLE,
            read(0, 0, is(Signal::Bool(true))),
            read(1, 0, is(Signal::Bool(false))),
            CYCLE,
            read(0, 0, is(Signal::Bool(true))),
            read(1, 0, is(Signal::Bool(false))),
        ],
    )
}

// Two ORs with a NOT behind each, crosswise: a flip-flop, set by terminal 0 and reset by terminal 1.
// Block 0 = terminal 0 or block 3; block 1 = not block 0; block 2 = terminal 1 or block 1; block 3 = not block 2.
#[test]
fn a_flip_flop_of_four(rt: HostRuntime) -> Result<(), Fail> {
    held(
        &rt,
        &[
            0x02, 0x01, 0, 0, 0, 0, 0x02, 0, 0, 3, 0, 0x03, 0x02, 0, 0, 0, 0, 0x02, 0x01, 0, 0, 0,
            1, 0x02, 0, 0, 1, 0, 0x03, 0x02, 0, 0, 2, 0,
        ],
        &[
            sample(0, Signal::Bool(true), DONE),
            CYCLE,
            read(0, 0, is(Signal::Bool(true))),
            read(2, 0, is(Signal::Bool(false))),
            sample(0, Signal::Bool(false), DONE),
            CYCLE,
            CYCLE,
            read(0, 0, is(Signal::Bool(true))),
            sample(1, Signal::Bool(true), DONE),
            CYCLE,
            sample(1, Signal::Bool(false), DONE),
            read(2, 0, is(Signal::Bool(true))),
            CYCLE,
            read(0, 0, is(Signal::Bool(false))),
            read(2, 0, is(Signal::Bool(true))),
            CYCLE,
            read(0, 0, is(Signal::Bool(false))),
        ],
    )
}

// An RSR whose reset is its own output: it is set for one cycle and then lets itself go.
#[test]
fn a_memory_that_resets_itself(rt: HostRuntime) -> Result<(), Fail> {
    held(
        &rt,
        &[0x0B, 0x01, 0, 0, 0, 0, 0x02, 0, 0, 0, 0],
        &[
            sample(0, Signal::Bool(true), DONE),
            CYCLE,
            read(0, 0, is(Signal::Bool(true))),
            CYCLE,
            read(0, 0, is(Signal::Bool(false))),
            CYCLE,
            read(0, 0, is(Signal::Bool(true))),
            sample(0, Signal::Bool(false), DONE),
            CYCLE,
            read(0, 0, is(Signal::Bool(false))),
        ],
    )
}

// Block 0, NOT of itself, beats. Block 1, CTR, counts its rises up to 3 and is reset by its own upper flag.
#[test]
fn a_counter_that_resets_itself(rt: HostRuntime) -> Result<(), Fail> {
    held(
        &rt,
        &[
            0x03, 0x02, 0, 0, 0, 0, 0x0A, 0x02, 0, 0, 0, 0, 0x00, 0, 0, 0, 0, 0x02, 0, 0, 1, 1,
            0x00, 0, 0, 0, 3, 0x00, 0, 0, 0, 0,
        ],
        &[
            CYCLE,
            read(1, 0, is(Signal::Int(1))),
            read(1, 1, is(Signal::Bool(false))),
            CYCLE,
            read(1, 0, is(Signal::Int(1))),
            CYCLE,
            read(1, 0, is(Signal::Int(2))),
            CYCLE,
            CYCLE,
            read(1, 0, is(Signal::Int(3))),
            read(1, 1, is(Signal::Bool(true))),
            CYCLE,
            read(1, 0, is(Signal::Int(0))),
            read(1, 1, is(Signal::Bool(false))),
            read(1, 2, is(Signal::Bool(true))),
            CYCLE,
            read(1, 0, is(Signal::Int(1))),
        ],
    )
}
