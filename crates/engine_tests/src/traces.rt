// Trace: which blocks a signal of one block can reach.
use loading::{Fault, LoadError};
use std::process::Abort;
use tracing::trace::trace_block;
use tracing::{Trace, TraceError};

fn traced(
    rt: &(impl Abort + AllocGlobal),
    chart: &[u8],
    block: u8,
    expected: Result<Trace, TraceError>,
) {
    assert_eq!(rt;
        trace_block(rt.alloc(), &shipped::library(), chart, block),
        expected
    );
}

fn lit(set: u64, lamps: u32) -> Result<Trace, TraceError> {
    Ok(Trace { set, lamps })
}

// Block 0, AND, reads block 1 and the constant 1; block 1, NOT, reads terminal 0.
const TWO: [u8; 17] = [
    0x01, 0x02, 0, 0, 1, 0, 0x00, 0, 0, 0, 1, 0x03, 0x01, 0, 0, 0, 0,
];

#[test]
fn two_blocks(rt: HostRuntime) {
    traced(&rt, &TWO, 0, lit(1, 1));
    traced(&rt, &TWO, 1, lit(3, 2));
}

// Block 0 feeds block 1, which feeds block 2, which feeds block 0; block 3 reads block 1 and feeds nobody.
#[test]
fn a_ring_with_a_tail(rt: HostRuntime) {
    let chart = [
        0x03, 0x02, 0, 0, 2, 0, 0x03, 0x02, 0, 0, 0, 0, 0x03, 0x02, 0, 0, 1, 0, 0x03, 0x02, 0, 0,
        1, 0,
    ];
    traced(&rt, &chart, 0, lit(15, 4));
    traced(&rt, &chart, 2, lit(15, 4));
    traced(&rt, &chart, 3, lit(8, 1));
}

// Wires that lead only back: block 3 reaches block 0 in as many cycles as it takes to pass the others.
#[test]
fn wires_against_the_run_order(rt: HostRuntime) {
    let chart = [
        0x03, 0x02, 0, 0, 1, 0, 0x03, 0x02, 0, 0, 2, 0, 0x03, 0x02, 0, 0, 3, 0, 0x03, 0x01, 0, 0,
        0, 0,
    ];
    traced(&rt, &chart, 3, lit(15, 4));
    traced(&rt, &chart, 1, lit(3, 2));
    traced(&rt, &chart, 0, lit(1, 1));
}

#[test]
fn refusals(rt: HostRuntime) {
    traced(&rt, &TWO, 2, Err(TraceError::Missing));
    traced(&rt, &TWO, 255, Err(TraceError::Missing));
    traced(
        &rt,
        &[0x03, 0x02, 0, 0, 1, 0],
        9,
        Err(TraceError::Load(LoadError::Refused {
            fault: Fault::Missing,
            place: 0,
        })),
    );
    traced(
        &rt,
        &[],
        0,
        Err(TraceError::Load(LoadError::Refused {
            fault: Fault::NoBlock,
            place: 0,
        })),
    );
}
