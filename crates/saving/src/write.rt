// Writes the pieces of a page's chart into a lent buffer.
ghost use Rattle.std.specs.Prelude.{◌≡◌, ℕ, ◌≤◌, List, length};
ghost use Rattle.std.specs.List.{flat_map};
ghost use Rattle.charts.specs.Charts.{source_bytes, block_bytes, output_bytes, written};
ghost use Rattle.loading.specs.Models.{block_model, page_model};
ghost use Rattle.saving.specs.Saving.{at_front};

use charts::{OutputRecord, Source};
use loading::{Block, Page};
use signals::coding::encode;

// A piece of a chart.
pub(crate) trait Piece {
    // Its bytes in the chart.
    ghost bytes: { Self → List ℕ };

    // Writes the bytes at the front of a buffer, spares those behind, and answers how many there are.
    fn write(&self, buffer: &mut [u8]) -> usize
        requires { length (bytes self.now) ≤ length buffer.old }
        ensures count { result ≡ length (bytes self.now) }
        ensures writes { buffer.new ≡ at_front (bytes self.now) buffer.old };
}

// A tag, and four bytes.
// Kept as a function: source and bytes are of other crates, so no `From` can stand here.
fn source_bytes(source: Source) -> [u8; 5]
    ensures { result ≡ source_bytes source }
{
    match source {
        Source::Constant(signal) => {
            let [a, b, c, d] = encode(signal);
            [0, a, b, c, d]
        }
        Source::Terminal(terminal) => [1, 0, 0, 0, terminal],
        Source::Output { block, output } => [2, 0, 0, block, output],
    }
}

// Bytes at the front of a buffer, and how many there are.
fn put(buffer: &mut [u8], bytes: &[u8]) -> usize
    requires { length bytes.now ≤ length buffer.old }
    ensures count { result ≡ length bytes.now }
    ensures writes { buffer.new ≡ at_front bytes.now buffer.old }
{
    buffer[..bytes.len()].copy_from_slice(bytes);
    bytes.len()
}

impl Piece for Source {
    ghost bytes = { source_bytes };

    fn write(&self, buffer: &mut [u8]) -> usize {
        put(buffer, &source_bytes(*self))
    }
}

// The kind 0, then terminal, block and output.
impl Piece for OutputRecord {
    ghost bytes = { output_bytes };

    fn write(&self, buffer: &mut [u8]) -> usize {
        put(buffer, &[0, self.terminal, self.block, self.output])
    }
}

// One piece behind the other.
fn write_all<P: Piece>(pieces: &[P], buffer: &mut [u8]) -> usize
    requires { length (flat_map P.bytes pieces.now) ≤ length buffer.old }
    ensures count { result ≡ length (flat_map P.bytes pieces.now) }
    ensures writes { buffer.new ≡ at_front (flat_map P.bytes pieces.now) buffer.old }
{
    // Kept: where the next piece begins is what the last one answered, and a closure would have to lend the buffer anew each time.
    let mut end = 0;
    for piece in pieces {
        end += piece.write(&mut buffer[end..]);
    }
    end
}

// The kind, and the sources.
impl Piece for Block {
    ghost bytes = { λ block. block_bytes (block_model block) };

    fn write(&self, buffer: &mut [u8]) -> usize {
        buffer[0] = self.kind;
        1 + write_all(self.pins.as_slice(), &mut buffer[1..])
    }
}

// The blocks, and the output records.
impl Piece for Page {
    ghost bytes = { λ page. written (page_model page) };

    #[tactic(auto, using(crate::proofs::Pieces::chart_length))]
    fn write(&self, buffer: &mut [u8]) -> usize {
        let behind = write_all(self.blocks.as_slice(), buffer);
        behind + write_all(self.outputs.as_slice(), &mut buffer[behind..])
    }
}
