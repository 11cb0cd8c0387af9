// Input of a limited length.
ghost use Rattle.std.specs.Prelude.{◌≡◌, ◌≤◌, length, take, IfOk, IfSome, vec_len};

use std::alloc::Global;
use std::io;
use std::io::Read;

// The most bytes that are taken of a chart and of the requests.
pub const INPUT_LIMIT: usize = 4096;

// Reads until the buffer is full or the input ends, and answers how many bytes came: the first that the reader gives. It takes no
// memory of its own, so it fails on input alone.
pub fn fill<R: Read>(reader: &mut R, buffer: &mut [u8]) -> io::Result<usize>
    ensures count { IfOk result (λ n. n ≤ length buffer.old) }
    ensures first { IfOk result (λ n. IfSome (R.remaining reader.old) (λ given. take n buffer.new ≡ take (length buffer.old) given)) }
{
    let mut filled = 0;
    while filled < buffer.len() {
        let count = reader.read(&mut buffer[filled..])?;
        if count == 0 {
            break;
        }
        filled += count;
    }
    Ok(filled)
}

// The first bytes that a reader gives, up to a limit.
pub fn read_limited<R: Read + Drop>(heap: Global, reader: R, limit: usize) -> io::Result<Vec<u8>>
    ensures limit { IfOk result (λ bytes. vec_len bytes ≤ limit) }
    ensures first { IfOk result (λ bytes. IfSome (R.remaining reader) (λ given. bytes.items ≡ take limit given)) }
{
    let mut bytes = Vec::new(heap);
    reader.take(limit as u64).read_to_end(&mut bytes)?;
    // `read_to_end` promises no length where it is not known what the reader gives.
    bytes.truncate(limit);
    Ok(bytes)
}
