// A whole run: from a library, a chart and a list of calls to the answers and the box.
ghost use Rattle.std.specs.Prelude.{IfOk};
ghost use Rattle.engine.specs.Whole.{Ran, Started, Performed};

use blocks::{Library, Refusal};
use boxes::{GateBox, Loader};
use charts::{Call, Reply};
use loading::LoadError;
use std::alloc::{AllocError, Global};

// The box after the calls, and what each of them answered.
#[derive(Drop)]
pub struct BoxRun<L> {
    pub gate_box: GateBox<L>,
    pub answers: Vec<Result<Reply, Refusal>>,
}

// Loads the chart, makes the box and makes the calls, one after the other.
pub fn run<L: Library + Drop>(
    heap: Global,
    library: L,
    chart: &[u8],
    calls: &[Call],
) -> Result<BoxRun<L>, LoadError>
    ensures { Ran (L.Library.meaning library) chart.now calls.now result }
{
    let gate_box = start(heap, library, chart)?;
    Ok(perform_all(heap, gate_box, calls)?)
}

// The box of a chart, just made.
pub fn start<L: Library + Drop>(
    heap: Global,
    library: L,
    chart: &[u8],
) -> Result<GateBox<L>, LoadError>
    ensures { Started (L.Library.meaning library) library chart.now result }
{
    let mut loader = Loader::new(heap, library);
    loader.load(chart)?;
    Ok(loader.make())
}

// Makes calls on a box, one after the other, and keeps what they answer.
pub fn perform_all<L: Library + Drop>(
    heap: Global,
    mut gate_box: GateBox<L>,
    calls: &[Call],
) -> Result<BoxRun<L>, AllocError>
    ensures { IfOk result (Performed (L.Library.meaning gate_box.library) gate_box calls.now) }
{
    let mut answers = Vec::new(heap);
    for call in calls {
        answers.push(gate_box.perform(*call))?;
    }
    Ok(BoxRun { gate_box, answers })
}
