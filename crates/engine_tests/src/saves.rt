// Save: the chart with its present constants, and its way back through load.
use blocks::Refusal;
use engine::run::start;
use signals::Signal;
use std::test::Fail;

// Block 0, ADD_D, adds its own output and the constant 5; terminal 16 shows it.
const CHART: [u8; 15] = [0x05, 0x02, 0, 0, 0, 0, 0x00, 0, 0, 0, 5, 0x00, 16, 0, 0];

// The same with the constant -2.
const TUNED: [u8; 15] = [
    0x05, 0x02, 0, 0, 0, 0, 0x00, 0xFF, 0xFF, 0xFF, 0xFE, 0x00, 16, 0, 0,
];

#[test]
fn a_fresh_chart_comes_back(rt: HostRuntime) -> Result<(), Fail> {
    let gate_box = start(rt.alloc(), shipped::library(), &CHART)?;
    let mut exact = [0u8; 15];
    assert_eq!(rt; gate_box.save(&mut exact), Ok(15));
    assert_eq!(rt; exact, CHART);
    let mut longer = [0xAAu8; 17];
    assert_eq!(rt; gate_box.save(&mut longer), Ok(15));
    assert_eq!(rt; &longer[..15], CHART.as_slice());
    assert_eq!(rt; &longer[15..], [0xAA, 0xAA].as_slice());
    Ok(())
}

#[test]
fn a_short_buffer_is_left(rt: HostRuntime) -> Result<(), Fail> {
    let gate_box = start(rt.alloc(), shipped::library(), &CHART)?;
    let mut short = [0xAAu8; 14];
    assert_eq!(rt; gate_box.save(&mut short), Err(Refusal::ShortBuffer));
    assert_eq!(rt; short, [0xAA; 14]);
    assert_eq!(rt; gate_box.save(&mut []), Err(Refusal::ShortBuffer));
    Ok(())
}

// The constants are the present ones, and the cells are not part of the chart.
#[test]
fn a_tuned_chart_loads_again(rt: HostRuntime) -> Result<(), Fail> {
    let mut gate_box = start(rt.alloc(), shipped::library(), &CHART)?;
    assert_eq!(rt; gate_box.tune(0, 1, Signal::Dint(-2)), Ok(()));
    gate_box.cycle();
    let mut saved = [0u8; 15];
    assert_eq!(rt; gate_box.save(&mut saved), Ok(15));
    assert_eq!(rt; saved, TUNED);
    let mut again = start(rt.alloc(), shipped::library(), &saved)?;
    assert_eq!(rt; again.show(16), Ok(Signal::Dint(0)));
    again.cycle();
    again.cycle();
    assert_eq!(rt; again.show(16), Ok(Signal::Dint(-4)));
    Ok(())
}
