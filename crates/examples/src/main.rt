// A gate's day over the shipped library, and then rules at their borders, each held to what it must give.
#![tactic(auto)]

mod block;
mod border;
mod fault;
mod gate;
mod numbers;
mod text;

use blocks::Library;
use gate::Gate;

fn main(rt: HostRuntime) -> anyhow::Result<()> {
    run(&rt)
}

fn run(rt: &HostRuntime) -> anyhow::Result<()> {
    let library = shipped::library();
    print_day(rt, &library)?;
    border::print_all(rt, &library)
}

// The water level in mm at each hour: two rises that last, and at 15:00 a wave that does not.
const LEVELS: [i32; 24] = [
    1050, 1080, 1130, 1180, 1199, 1200, 1230, 1260, 1250, 1210, 1170, 1120, 1060, 1001, 1000, 1210,
    1000, 1010, 1200, 1240, 1220, 1090, 1000, 1020,
];

fn print_day<L: Library>(rt: &HostRuntime, library: &L) -> anyhow::Result<()> {
    let mut gate = Gate::new(rt.alloc(), library)?;
    for (hour, level) in (0..24u8).zip(LEVELS) {
        let row = gate.cycle(library, hour, level)?;
        println!(rt; "{row}")?;
    }
    Ok(())
}
