// What a chart does, held to what its sheet says.
use crate::sheet::{Lit, Sheet};
use blocks::Library;
use std::alloc::Global;
use std::fmt;
use thiserror::Error;
use tracing::trace::trace_block;

// As many lines were printed and as many blocks traced, all as the sheet says.
#[derive(Clone, Copy, Debug, PartialEq, Eq)]
pub struct Agreement {
    pub lines: usize,
    pub traces: usize,
}

impl fmt::Display for Agreement {
    fn fmt<W: fmt::Write>(&self, f: &mut fmt::Formatter<W>) -> fmt::Result {
        let Agreement { lines, traces } = *self;
        write!(f, "{lines} lines and {traces} traces, as written")
    }
}

// The first that is not as the sheet says.
#[derive(Clone, Copy, Debug, Error)]
pub enum Difference {
    // A line, by its number, counted from 1.
    #[error("line {0} differs")]
    Line(usize),
    // The trace of a block.
    #[error("the trace of block {0} differs")]
    Trace(u8),
}

pub fn judge<L: Library>(
    heap: Global,
    library: &L,
    sheet: &Sheet,
    printed: &str,
) -> Result<Agreement, Difference> {
    let lines = compare_lines(printed, &sheet.prints)?;
    let traces = compare_traces(heap, library, sheet)?;
    Ok(Agreement { lines, traces })
}

// How many lines two texts have, where they are the same.
fn compare_lines(text: &str, expected: &str) -> Result<usize, Difference> {
    if text == expected {
        return Ok(text.lines().count());
    }
    let same = text
        .lines()
        .zip(expected.lines())
        .take_while(|(line, other)| line == other)
        .count();
    Err(Difference::Line(same + 1))
}

// How many blocks were traced, where each trace is as the sheet says.
fn compare_traces<L: Library>(
    heap: Global,
    library: &L,
    sheet: &Sheet,
) -> Result<usize, Difference> {
    for Lit { block, trace } in sheet.traces.iter().copied() {
        if trace_block(heap, library, &sheet.chart, block) != Ok(trace) {
            return Err(Difference::Trace(block));
        }
    }
    Ok(sheet.traces.len())
}
