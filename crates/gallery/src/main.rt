// Runs charts written as text, each with calls and with what must come of them, and says of each whether it did.
#![tactic(auto)]

mod fault;
mod sheet;
mod verdict;

use anyhow::ensure;
use console::session::transcript;
use sheet::Sheet;
use std::{env, fs};
use verdict::{Agreement, Difference, judge};

fn main(rt: HostRuntime) -> anyhow::Result<()> {
    run(&rt)
}

fn run(rt: &HostRuntime) -> anyhow::Result<()> {
    // Kept: every chart is run and told of before the program fails.
    let mut all_agree = true;
    for name in env::args(rt)?.skip(1) {
        match judge_file(rt, &name)? {
            Ok(agreement) => println!(rt; "{name}: {agreement}")?,
            Err(difference) => {
                println!(rt; "{name}: {difference}")?;
                all_agree = false;
            }
        }
    }
    ensure!(all_agree, "not every chart gave what is written");
    Ok(())
}

// The outer error is one of the file or of memory.
fn judge_file(rt: &HostRuntime, name: &str) -> anyhow::Result<Result<Agreement, Difference>> {
    let text = fs::read_to_string(rt, name)?;
    let sheet = Sheet::parse(rt.alloc(), &text)?;
    let library = shipped::library();
    let printed = transcript(rt.alloc(), &library, &sheet.chart, &sheet.calls)?;
    Ok(judge(rt.alloc(), &library, &sheet, &printed))
}
