// The records of a chart, one after the other.
ghost use Rattle.std.specs.Prelude.{◌≡◌, ℕ, List, MatchOption, slice_index};
ghost use Rattle.charts.specs.Loading.{Raw, body_length, output_in};
ghost use Rattle.loading.specs.Walks.{Begins};

use blocks::Library;
use charts::OutputRecord;

// A record: its kind, and a body whose length the kind fixes.
// Kept as a byte: the format has one byte of kind and then the body, and kind 0 is the output record.
#[derive(Clone, Copy)]
pub(crate) struct Record<'a> {
    pub(crate) kind: u8,
    pub(crate) body: &'a [u8],
}

// The record that bytes begin with, and the bytes behind it; none where they begin with no whole record.
pub(crate) fn split_record<'a, L: Library>(
    library: &L,
    bytes: &'a [u8],
) -> Option<(Record<'a>, &'a [u8])>
    ensures { MatchOption result ((r : Raw) (rest : List ℕ) → Begins (L.Library.meaning library.now).shape bytes.now r rest → ⊥) (λ p. Begins (L.Library.meaning library.now).shape bytes.now (record { kind = p.0.kind; body = p.0.body.now }) p.1.now) }
{
    let [kind, after @ ..] = bytes else {
        return None;
    };
    let length = body_length(library, *kind)?;
    let (body, rest) = after.split_at_checked(length)?;
    Some((Record { kind: *kind, body }, rest))
}

// The length of a kind's body, none for a kind without a shape: an output record has three bytes, a block five a pin.
pub(crate) fn body_length<L: Library>(library: &L, kind: u8) -> Option<usize>
    ensures { result ≡ body_length (L.Library.meaning library.now).shape kind }
{
    if kind == 0 {
        return Some(3);
    }
    let (pins, _, _) = library.shape(kind)?;
    Some(5 * pins)
}

// The terminal, the block and the output of an output record's body.
pub(crate) fn output_record(body: &[u8]) -> OutputRecord
    ensures { result ≡ output_in body.now }
{
    OutputRecord {
        terminal: byte_at(body, 0),
        block: byte_at(body, 1),
        output: byte_at(body, 2),
    }
}

// The byte at a place, 0 past the end.
// Kept as a function, as running's for signals: each names what stands for nothing, and the rest is the library's.
pub(crate) fn byte_at(bytes: &[u8], place: usize) -> u8
    ensures { result ≡ slice_index bytes.now place }
{
    bytes.get(place).copied().unwrap_or(0)
}
