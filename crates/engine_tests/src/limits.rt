// The limit of blocks, boxes without blocks, and loaders that load again.
use crate::expected::{fault, is_accepted};
use blocks::Refusal;
use boxes::Loader;
use loading::{Fault, LoadError};
use signals::Signal;
use std::alloc::{AllocError, Global};
use std::iter::repeat_n;
use std::test::Fail;

// A NOT that reads terminal 0.
const NOT: [u8; 6] = [0x03, 0x01, 0, 0, 0, 0];

// So many NOTs, and the bytes of `end` behind them.
fn nots(heap: Global, count: usize, end: &[u8]) -> Result<Vec<u8>, AllocError> {
    repeat_n(NOT, count)
        .flatten()
        .chain(end.iter().copied())
        .collect(heap)
}

#[test]
fn sixty_four_blocks_and_no_more(rt: HostRuntime) -> Result<(), Fail> {
    let heap = rt.alloc();
    assert!(rt; is_accepted(heap, &nots(heap, 64, &[])?));
    assert!(rt; is_accepted(heap, &nots(heap, 64, &[0x00, 0, 63, 0])?));
    assert_eq!(rt; fault(heap, &nots(heap, 65, &[])?), Some((3, 384)));
    assert_eq!(rt; fault(heap, &nots(heap, 70, &[])?), Some((3, 384)));
    Ok(())
}

// At the 65th block the tests stand in their order: 2, 1, 8, 3.
#[test]
fn the_tests_at_the_limit(rt: HostRuntime) -> Result<(), Fail> {
    let heap = rt.alloc();
    assert_eq!(rt; fault(heap, &nots(heap, 64, &[0x10])?), Some((2, 384)));
    assert_eq!(rt;
        fault(heap, &nots(heap, 64, &[0x03, 0x01])?),
        Some((1, 384))
    );
    assert_eq!(rt;
        fault(
            heap,
            &nots(heap, 64, &[0x00, 0, 0, 0, 0x03, 0x01, 0, 0, 0, 0])?,
        ),
        Some((8, 388))
    );
    Ok(())
}

#[test]
fn a_box_without_blocks(rt: HostRuntime) {
    let heap = rt.alloc();
    let mut gate_box = Loader::new(heap, shipped::library()).make();
    gate_box.cycle();
    gate_box.restart();
    assert_eq!(rt; gate_box.read(0, 0), Err(Refusal::Missing));
    assert_eq!(rt; gate_box.show(31), Ok(Signal::Real(0.0)));
    assert_eq!(rt; gate_box.show(32), Err(Refusal::Missing));
    assert_eq!(rt; gate_box.sample(16, Signal::Dint(3)), Ok(()));
    assert_eq!(rt; gate_box.tune(0, 0, Signal::Dint(3)), Err(Refusal::Missing));
    assert_eq!(rt; gate_box.save(&mut []), Ok(0));
    let mut buffer = [7u8; 2];
    assert_eq!(rt; gate_box.save(&mut buffer), Ok(0));
    assert_eq!(rt; buffer, [7, 7]);
}

// A refused load leaves the page of the load before it.
#[test]
fn a_refused_load_leaves_the_page(rt: HostRuntime) {
    let mut loader = Loader::new(rt.alloc(), shipped::library());
    assert_eq!(rt; loader.load(&[0x03, 0x02, 0, 0, 0, 0]), Ok(()));
    assert_eq!(rt;
        loader.load(&[0x03, 0x02, 0, 0, 1, 0]),
        Err(LoadError::Refused {
            fault: Fault::Missing,
            place: 0
        })
    );
    let mut gate_box = loader.make();
    gate_box.cycle();
    assert_eq!(rt; gate_box.read(0, 0), Ok(Signal::Bool(true)));
}

// The last chart that was accepted counts, and a closed box gives back a loader without a page.
#[test]
fn loading_again(rt: HostRuntime) -> Result<(), Fail> {
    let mut loader = Loader::new(rt.alloc(), shipped::library());
    loader.load(&[0x03, 0x02, 0, 0, 0, 0])?;
    loader.load(&[0x05, 0x02, 0, 0, 0, 0, 0x00, 0, 0, 0, 4])?;
    let mut gate_box = loader.make();
    gate_box.cycle();
    assert_eq!(rt; gate_box.read(0, 0), Ok(Signal::Dint(4)));
    let mut loader = gate_box.close();
    loader.load(&[0x03, 0x02, 0, 0, 0, 0])?;
    let gate_box = loader.make();
    assert_eq!(rt; gate_box.read(0, 0), Ok(Signal::Bool(false)));
    let emptied = gate_box.close().make();
    assert_eq!(rt; emptied.read(0, 0), Err(Refusal::Missing));
    Ok(())
}
