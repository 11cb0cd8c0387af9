// The page of a chart without a fault.
ghost use Rattle.std.specs.Prelude.{◌≡◌, List, [], ◌∷◌, ◌++◌, length, IfOk, Some, Ok, OnOk};
ghost use Rattle.charts.specs.Boxes.{starting};
ghost use Rattle.charts.specs.Loading.{Raw, nothing_met, walk_one, body_length, source_of};
ghost use Rattle.charts.specs.Pages.{block_limit};
ghost use Rattle.loading.specs.Built.{sources_in, BuiltBlock, Built};
ghost use Rattle.loading.specs.Walks.{pin_of};

use crate::page::{Block, Page};
use crate::record::{Record, output_record, split_record};
use blocks::Library;
use charts::Source;
use signals::coding::decode;
use signals::{Signal, SignalType};
use std::alloc::{AllocError, Global};

// The page of a chart that walk one has passed, with its starting cells.
pub(crate) fn build<L: Library>(heap: Global, library: &L, chart: &[u8]) -> Result<Page, AllocError>
    ensures { (rs : List Raw) → walk_one (L.Library.meaning library.now).shape block_limit nothing_met 0 0 chart.now ≡ Ok rs → IfOk result (Built (L.Library.meaning library.now) rs) }
{
    // Kept as a literal, here and where a loader begins: two empty vectors are no longer than a call.
    let mut page = Page {
        blocks: Vec::new(heap),
        outputs: Vec::new(heap),
    };
    let mut rest = chart;
    while let Some((found, behind)) = split_record(library, rest) {
        add_record(heap, library, &mut page, &found)?;
        rest = behind;
    }
    Ok(page)
}

// One whole record more.
fn add_record<L: Library>(
    heap: Global,
    library: &L,
    page: &mut Page,
    found: &Record<'_>,
) -> Result<(), AllocError>
    requires { body_length (L.Library.meaning library.now).shape found.now.kind ≡ Some (length found.now.body.now) }
    ensures { (rs : List Raw) → Built (L.Library.meaning library.now) rs page.old → OnOk result (Built (L.Library.meaning library.now) (rs ++ record { kind = found.now.kind; body = found.now.body.now } ∷ []) page.new) }
{
    if found.kind == 0 {
        page.outputs.push(output_record(found.body))?;
    } else {
        page.blocks.push(read_block(heap, library, found)?)?;
    }
    Ok(())
}

fn read_block<L: Library>(
    heap: Global,
    library: &L,
    found: &Record<'_>,
) -> Result<Block, AllocError>
    ensures { IfOk result (BuiltBlock (L.Library.meaning library.now) found.now.kind found.now.body.now) }
{
    Ok(Block {
        kind: found.kind,
        pins: read_pins(heap, library, found)?,
        cells: start_cells(heap, library, found.kind)?,
    })
}

// A source for each pin of the kind, from its five bytes.
fn read_pins<L: Library>(
    heap: Global,
    library: &L,
    found: &Record<'_>,
) -> Result<Vec<Source>, AllocError>
    ensures { IfOk result (λ sources. sources.items ≡ sources_in (L.Library.meaning library.now) found.now.kind found.now.body.now) }
{
    let mut sources = Vec::new(heap);
    let (pins, _) = found.body.as_chunks::<5>();
    for (number, pin) in pins.iter().enumerate() {
        let Some(signal_type) = library.pin_type(found.kind, number) else {
            break;
        };
        sources.push(source_of(signal_type, *pin))?;
    }
    Ok(sources)
}

// The source that five bytes stand for, at a pin of a type.
fn source_of(signal_type: SignalType, pin: [u8; 5]) -> Source
    ensures { result ≡ source_of signal_type (pin_of pin) }
{
    match pin {
        [0, a, b, c, d] => Source::Constant(decode(signal_type, [a, b, c, d]).unwrap_or(
            signal_type.zero(),
        )),
        [1, _, _, _, terminal] => Source::Terminal(terminal),
        [_, _, _, block, output] => Source::Output { block, output },
    }
}

fn start_cells<L: Library>(heap: Global, library: &L, kind: u8) -> Result<Vec<Signal>, AllocError>
    ensures { IfOk result (λ cells. cells.items ≡ starting (L.Library.meaning library.now) kind) }
{
    let mut cells = Vec::new(heap);
    // Kept: asks on until the library has no further cell, since no count of them is known here.
    while let Some(signal) = library.start(kind, cells.len()) {
        cells.push(signal)?;
    }
    Ok(cells)
}
