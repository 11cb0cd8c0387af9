// Input is taken up to its limit, and the whole of a shorter one.
use crate::input::{INPUT_LIMIT, fill, read_limited};
use std::io;

#[test]
fn a_long_input_is_cut(rt: HostRuntime) -> io::Result<()> {
    let mut long = [7u8; INPUT_LIMIT + 1];
    long[0] = 1;
    let taken = read_limited(rt.alloc(), &long[..], INPUT_LIMIT)?;
    assert!(rt; taken.as_slice() == &long[..INPUT_LIMIT]);
    Ok(())
}

#[test]
fn a_short_input_is_whole(rt: HostRuntime) -> io::Result<()> {
    let taken = read_limited(rt.alloc(), &b"CR"[..], INPUT_LIMIT)?;
    assert!(rt; taken.as_slice() == b"CR".as_slice());
    Ok(())
}

#[test]
fn a_buffer_is_filled(rt: HostRuntime) -> io::Result<()> {
    let mut buffer = [0u8; 4];
    let count = fill(&mut &b"CRCRC"[..], &mut buffer)?;
    assert!(rt; &buffer[..count] == b"CRCR".as_slice());
    let count = fill(&mut &b"CR"[..], &mut buffer)?;
    assert!(rt; &buffer[..count] == b"CR".as_slice());
    Ok(())
}
