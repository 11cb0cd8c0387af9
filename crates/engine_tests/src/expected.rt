// A table of calls, each with the answer that it must have, held to a whole run over the shipped library.
use blocks::Refusal;
use charts::{Call, Reply};
use engine::run::run;
use loading::LoadError;
use signals::Signal;
use std::alloc::Global;
use std::process::Abort;
use std::test::Fail;

// A refusal by its number. Kept as a number: it is what a test takes from the rules, and not from the code.
pub type Expected = Result<Reply, u8>;

pub const DONE: Expected = Ok(Reply::Done);

pub fn is(signal: Signal) -> Expected {
    Ok(Reply::Signal(signal))
}

pub const CYCLE: (Call, Expected) = (Call::Cycle, DONE);

pub const RESTART: (Call, Expected) = (Call::Restart, DONE);

pub fn sample(terminal: u8, signal: Signal, expected: Expected) -> (Call, Expected) {
    (Call::Sample { terminal, signal }, expected)
}

pub fn tune(block: u8, pin: u8, signal: Signal, expected: Expected) -> (Call, Expected) {
    (Call::Tune { block, pin, signal }, expected)
}

pub fn read(block: u8, output: u8, expected: Expected) -> (Call, Expected) {
    (Call::Read { block, output }, expected)
}

pub fn show(terminal: u8, expected: Expected) -> (Call, Expected) {
    (Call::Show { terminal }, expected)
}

pub fn save(room: usize, expected: Expected) -> (Call, Expected) {
    (Call::Save { room }, expected)
}

// Runs the calls of a table over a chart and compares every answer.
pub fn held(
    rt: &(impl Abort + AllocGlobal),
    chart: &[u8],
    table: &[(Call, Expected)],
) -> Result<(), Fail> {
    let heap = rt.alloc();
    let calls: Vec<Call> = table.iter().map(|(call, _)| *call).collect(heap)?;
    let ran = run(heap, shipped::library(), chart, &calls)?;
    assert_eq!(rt; ran.answers.len(), table.len());
    for (answer, (_, expected)) in ran.answers.iter().zip(table) {
        assert_eq!(rt; answer.map_err(Refusal::number), *expected);
    }
    Ok(())
}

// The fault of a chart, by number and place: kept as numbers, and as an Option, since here it is what is looked for.
pub fn fault(heap: Global, chart: &[u8]) -> Option<(u8, usize)> {
    match run(heap, shipped::library(), chart, &[]) {
        Err(LoadError::Refused { fault, place }) => Some((fault.number(), place)),
        _ => None,
    }
}

pub fn is_accepted(heap: Global, chart: &[u8]) -> bool {
    run(heap, shipped::library(), chart, &[]).is_ok()
}
