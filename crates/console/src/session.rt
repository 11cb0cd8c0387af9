// A whole session: from a chart and requests in bytes to the text that is printed.
ghost use Rattle.std.specs.Prelude.{◌≡◌, [], ◌∷◌, ◌++◌, IfOk, string_bytes, OnOk};
ghost use Rattle.console.specs.Lines.{line_text};
ghost use Rattle.console.specs.Sessions.{Held, Talked, Transcribed, ending_text, printed_line};

use crate::line::Line;
use crate::meaning::ask;
use crate::read::{Ending, read_requests};
use crate::request::Request;
use blocks::Library;
use boxes::GateBox;
use engine::run::start;
use loading::LoadError;
use std::alloc::{AllocError, Global};

// The box after the requests, and a line for each of them.
#[derive(Drop)]
pub struct Session<L> {
    pub gate_box: GateBox<L>,
    pub text: String,
}

// Makes the calls of requests, one after the other, and writes a line for each.
pub fn hold<L: Library + Drop>(
    heap: Global,
    mut gate_box: GateBox<L>,
    requests: &[Request],
) -> Result<Session<L>, AllocError>
    ensures { IfOk result (Held (L.Library.meaning gate_box.library) gate_box requests.now) }
{
    let mut text = String::new(heap);
    for request in requests {
        append(&mut text, ask(&mut gate_box, *request))?;
    }
    Ok(Session { gate_box, text })
}

// Adds a line and its line feed.
fn append(text: &mut String, line: Line) -> Result<(), AllocError>
    ensures { OnOk result (string_bytes text.new ≡ string_bytes text.old ++ (line_text line ++ 10 ∷ [])) }
{
    writeln!(text, "{line}")
}

// What is printed for a chart and requests in bytes: a line for each request, `stop` before one that is
// unknown or cut; of a chart that is refused its fault.
pub fn transcript<L: Library + Drop>(
    heap: Global,
    library: L,
    chart: &[u8],
    bytes: &[u8],
) -> Result<String, AllocError>
    ensures { IfOk result (λ text. Transcribed (L.Library.meaning library) chart.now bytes.now (string_bytes text)) }
{
    match start(heap, library, chart) {
        Ok(gate_box) => talk(heap, gate_box, bytes),
        Err(LoadError::Refused { fault, place }) => {
            let number = fault.number();
            one_line(heap, Line::Chart { number, place })
        }
        Err(LoadError::Memory) => Err(AllocError),
    }
}

// A line for each request that the bytes hold, and `stop` before one that is unknown or cut.
fn talk<L: Library + Drop>(
    heap: Global,
    gate_box: GateBox<L>,
    bytes: &[u8],
) -> Result<String, AllocError>
    ensures { IfOk result (λ text. Talked (L.Library.meaning gate_box.library) gate_box.box bytes.now (string_bytes text)) }
{
    let requests = read_requests(heap, bytes)?;
    let Session { gate_box, mut text } = hold(heap, gate_box, &requests.items)?;
    drop(gate_box);
    end(&mut text, requests.ending)?;
    Ok(text)
}

fn end(text: &mut String, ending: Ending) -> Result<(), AllocError>
    ensures { OnOk result (string_bytes text.new ≡ string_bytes text.old ++ ending_text ending) }
{
    match ending {
        Ending::Whole => Ok(()),
        Ending::Stopped => append(text, Line::Stop),
    }
}

fn one_line(heap: Global, line: Line) -> Result<String, AllocError>
    ensures { IfOk result (λ text. string_bytes text ≡ printed_line line) }
{
    let mut text = String::new(heap);
    append(&mut text, line)?;
    Ok(text)
}
