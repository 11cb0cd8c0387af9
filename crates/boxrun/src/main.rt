// Runs a box over the shipped library: the chart from `chart.bin`, the calls from standard input, a line for each on standard output.
#![tactic(auto)]

ghost use Rattle.std.specs.Prelude.{◌≤◌, IfOk};
ghost use Rattle.console.specs.Inputs.{input_limit};

use anyhow::anyhow;
use console::input::{INPUT_LIMIT, fill};
use console::session::transcript;
use std::fs::File;
use std::io;

fn main(rt: HostRuntime) -> anyhow::Result<()> {
    run(&rt)
}

fn run(rt: &HostRuntime) -> anyhow::Result<()> {
    // Kept: room of its own and a count, so that no input is lost for want of memory.
    let mut chart = [0u8; INPUT_LIMIT];
    let length = read_chart(rt, &mut chart).map_err(|error| anyhow!(
        "chart.bin cannot be read: {error}"
    ))?;
    let mut calls = [0u8; INPUT_LIMIT];
    let count = fill(&mut rt.stdin(), &mut calls)?;
    let text = transcript(
        rt.alloc(),
        shipped::library(),
        &chart[..length],
        &calls[..count],
    )?;
    print!(rt; "{text}")?;
    Ok(())
}

fn read_chart(rt: &HostRuntime, chart: &mut [u8; INPUT_LIMIT]) -> io::Result<usize>
    ensures { IfOk result (λ n. n ≤ input_limit) }
{
    let mut file = File::open(rt, "chart.bin")?;
    fill(&mut file, chart)
}
