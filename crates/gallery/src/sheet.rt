// A sheet: a chart and calls in hexadecimal bytes, what must be printed, and what must be lit.
use crate::fault::SheetError;
use std::alloc::Global;
use std::str::FromStr;
use tracing::Trace;

// The block that is traced, and what must be lit.
#[derive(Clone, Copy)]
pub struct Lit {
    pub block: u8,
    pub trace: Trace,
}

impl FromStr for Lit {
    type Err = SheetError;

    fn from_str(line: &str) -> Result<Lit, SheetError> {
        let mut words = line.split_whitespace();
        let (Some(block), Some(set), Some(lamps)) = (words.next(), words.next(), words.next())
        else {
            return Err(SheetError::NoTrace);
        };
        let block = block.parse()?;
        let set = set.parse()?;
        let lamps = lamps.parse()?;
        Ok(Lit {
            block,
            trace: Trace { set, lamps },
        })
    }
}

#[derive(Drop)]
pub struct Sheet {
    pub chart: Vec<u8>,
    pub calls: Vec<u8>,
    pub prints: String,
    pub traces: Vec<Lit>,
}

// What the lines below a heading are.
#[derive(Clone, Copy)]
enum Heading {
    Chart,
    Calls,
    Prints,
    Traces,
}

impl Sheet {
    // What stands behind a `#` is a comment, and empty lines are passed over.
    pub fn parse(heap: Global, text: &str) -> Result<Sheet, SheetError> {
        let mut sheet = Sheet::empty(heap);
        let mut heading = None;
        for line in text.lines() {
            let line = without_comment(line).trim();
            match heading_of(line) {
                Some(next) => heading = Some(next),
                None => sheet.take_line(heading, line)?,
            }
        }
        Ok(sheet)
    }

    fn empty(heap: Global) -> Sheet {
        Sheet {
            chart: Vec::new(heap),
            calls: Vec::new(heap),
            prints: String::new(heap),
            traces: Vec::new(heap),
        }
    }

    // Kept: headings are a closed enum, and a match over it is the plain form.
    fn take_line(&mut self, heading: Option<Heading>, line: &str) -> Result<(), SheetError> {
        if line.is_empty() {
            return Ok(());
        }
        match heading {
            Some(Heading::Chart) => take_bytes(&mut self.chart, line),
            Some(Heading::Calls) => take_bytes(&mut self.calls, line),
            Some(Heading::Prints) => take_print(&mut self.prints, line),
            Some(Heading::Traces) => take_trace(&mut self.traces, line),
            None => Err(SheetError::NoHeading),
        }
    }
}

fn without_comment(line: &str) -> &str {
    line.split_once('#').map_or(line, |(front, _)| front)
}

// Kept beside `FromStr`: that a line is no heading is no error.
fn heading_of(line: &str) -> Option<Heading> {
    match line {
        "chart" => Some(Heading::Chart),
        "calls" => Some(Heading::Calls),
        "prints" => Some(Heading::Prints),
        "traces" => Some(Heading::Traces),
        _ => None,
    }
}

fn take_bytes(bytes: &mut Vec<u8>, line: &str) -> Result<(), SheetError> {
    for word in line.split_whitespace() {
        bytes.push(u8::from_str_radix(word, 16)?)?;
    }
    Ok(())
}

fn take_print(prints: &mut String, line: &str) -> Result<(), SheetError> {
    prints.push_str(line)?;
    prints.push('\n')?;
    Ok(())
}

fn take_trace(traces: &mut Vec<Lit>, line: &str) -> Result<(), SheetError> {
    traces.push(line.parse::<Lit>()?)?;
    Ok(())
}
