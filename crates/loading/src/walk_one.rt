// Walk one: each record for an unknown kind, a cut, a misplaced record and one block too many.
ghost use Rattle.std.specs.Prelude.{◌≡◌, ◌≤◌, if◌then◌else◌, length, Some, IfOk, MatchResult, slice_index};
ghost use Rattle.charts.specs.Pages.{block_limit};
ghost use Rattle.charts.specs.Loading.{is_block, body_length, met_output, reached, fault_one};
ghost use Rattle.loading.specs.FaultNumbers.{fault_in};
ghost use Rattle.loading.specs.Loaded.{WalkedOne};
ghost use Rattle.loading.specs.Walks.{with_kind};

use crate::fault::{Fault, LoadError, refuse};
use crate::record::{body_length, byte_at};
use blocks::Library;
use std::alloc::Global;

// The most blocks that a page may have.
const BLOCK_LIMIT: usize = 64;

// The kinds of the blocks, in their order, or the first fault that walk one finds; a chart without a block is refused here too.
pub(crate) fn walk_one<L: Library>(
    heap: Global,
    library: &L,
    chart: &[u8],
) -> Result<Vec<u8>, LoadError>
    ensures { WalkedOne (L.Library.meaning library.now) chart.now result }
{
    let mut kinds = Vec::new(heap);
    let mut last = None;
    let mut rest = chart;
    while let [kind, after @ ..] = rest {
        let place = chart.len() - rest.len();
        let length = refuse(measure(library, kinds.len(), last, *kind, after), place)?;
        keep_kind(&mut kinds, *kind)?;
        last = last_terminal(last, *kind, after);
        rest = &after[length..];
    }
    if kinds.is_empty() {
        return refuse(Err(Fault::NoBlock), 0);
    }
    Ok(kinds)
}

// The length of a record's body, or the first test of walk one that the record fails, given the blocks before it and the last output terminal.
// Kept: kind and bytes go as two, since no record is known before its length is tested, and what the walk has met goes as the two
// locals that it is; a struct of either would be taken apart here at once.
fn measure<L: Library>(
    library: &L,
    blocks: usize,
    last: Option<u8>,
    kind: u8,
    after: &[u8],
) -> Result<usize, Fault>
    ensures fault { fault_in result ≡ fault_one block_limit (record { blocks = blocks; last = last }) kind after.now (body_length (L.Library.meaning library.now).shape kind) }
    ensures length { IfOk result (λ n. body_length (L.Library.meaning library.now).shape kind ≡ Some n) }
    ensures within { IfOk result (λ n. n ≤ length after.now) }
{
    let length = body_length(library, kind).ok_or(Fault::UnknownKind)?;
    if after.len() < length {
        Err(Fault::CutShort)
    } else if is_misplaced(last, kind, after) {
        Err(Fault::OutOfOrder)
    } else if kind != 0 && blocks >= BLOCK_LIMIT {
        Err(Fault::TooManyBlocks)
    } else {
        Ok(length)
    }
}

// A block after an output record, or terminals that do not rise.
fn is_misplaced(last: Option<u8>, kind: u8, after: &[u8]) -> bool
    ensures { result ≡ (if is_block kind then met_output last else reached last (slice_index after.now 0)) }
{
    match last {
        Some(terminal) => kind != 0 || byte_at(after, 0) <= terminal,
        None => false,
    }
}

// Keeps the kind of a block.
fn keep_kind(kinds: &mut Vec<u8>, kind: u8) -> Result<(), LoadError>
    ensures { MatchResult result (λ _. kinds.new.items ≡ with_kind kinds.old.items kind) (λ e. e ≡ LoadError.Memory) }
{
    if kind != 0 {
        kinds.push(kind)?;
    }
    Ok(())
}

// The terminal of the last output record, behind one record more.
fn last_terminal(last: Option<u8>, kind: u8, after: &[u8]) -> Option<u8>
    ensures { result ≡ (if is_block kind then last else Some (slice_index after.now 0)) }
{
    if kind == 0 {
        Some(byte_at(after, 0))
    } else {
        last
    }
}
