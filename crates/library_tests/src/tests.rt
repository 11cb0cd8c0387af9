// Kinds that are missing, signals that do not fit, and what each layer adds.
use blocks::{Lamps, Library, Refusal};
use kinds::{Kinds, Standard};
use signals::Signal;

#[test]
fn has_kinds_1_to_15_and_129(rt: HostRuntime) {
    let library = shipped::library();
    for kind in 0..=255u8 {
        let has = library.shape(kind).is_some();
        assert_eq!(rt; has, matches!(kind, 1..=15 | 129));
    }
}

#[test]
fn refuses_missing_kinds(rt: HostRuntime) {
    let library = shipped::library();
    for kind in [0u8, 16, 127, 128, 130, 255] {
        let mut cells = [Signal::Dint(7)];
        assert_eq!(rt; library.step(kind, &[], &mut cells), Err(Refusal::Missing));
        assert_eq!(rt; cells[0], Signal::Dint(7));
        assert_eq!(rt; library.start(kind, 0), None);
    }
}

#[test]
fn refuses_pins_that_do_not_fit(rt: HostRuntime) {
    let library = shipped::library();
    let one = Signal::Dint(1);
    let cases: [&[Signal]; 4] = [&[], &[one], &[one, Signal::Int(1)], &[one, one, one]];
    for pins in cases {
        let mut cells = [Signal::Dint(7)];
        assert_eq!(rt;
            library.step(5, pins, &mut cells),
            Err(Refusal::WrongSignal)
        );
        assert_eq!(rt; cells[0], Signal::Dint(7));
    }
}

#[test]
fn refuses_cells_that_do_not_fit(rt: HostRuntime) {
    let library = shipped::library();
    let pins = [Signal::Dint(1), Signal::Dint(1)];
    let mut cells = [Signal::Int(7)];
    assert_eq!(rt;
        library.step(5, &pins, &mut cells),
        Err(Refusal::WrongSignal)
    );
    assert_eq!(rt; cells[0], Signal::Int(7));
    assert_eq!(rt; library.step(5, &pins, &mut []), Err(Refusal::WrongSignal));
}

#[test]
fn cleans_what_the_pair_gives(rt: HostRuntime) {
    let pins = [Signal::Real(f32::MAX), Signal::Real(f32::MAX)];
    let mut cells = [Signal::Real(0.0)];
    assert_eq!(rt; Kinds(Standard).step(4, &pins, &mut cells), Ok(()));
    assert_eq!(rt; cells[0], Signal::Real(f32::INFINITY));
    assert_eq!(rt; shipped::library().step(4, &pins, &mut cells), Ok(()));
    assert_eq!(rt; cells[0], Signal::Real(f32::MAX));
}

#[test]
fn lights_what_a_signal_reaches(rt: HostRuntime) {
    let lamps = Lamps {
        below: shipped::library(),
    };
    assert_eq!(rt; lamps.start(8, 1), Some(Signal::Bool(false)));
    let dark = [Signal::Dint(0), Signal::Dint(0), Signal::Dint(0)];
    let mut cells = [Signal::Dint(0), Signal::Bool(false), Signal::Bool(false)];
    assert_eq!(rt; lamps.step(8, &dark, &mut cells), Ok(()));
    assert_eq!(rt; cells[0], Signal::Dint(0));
    let lit = [Signal::Dint(0), Signal::Dint(-3), Signal::Dint(0)];
    assert_eq!(rt; lamps.step(8, &lit, &mut cells), Ok(()));
    assert_eq!(rt; cells[0], Signal::Dint(1));
    assert_eq!(rt; cells[2], Signal::Bool(true));
}

#[test]
fn answers_through_a_reference(rt: HostRuntime) {
    let library = shipped::library();
    let lent = Lamps { below: &library };
    assert_eq!(rt; lent.shape(129), library.shape(129));
    assert_eq!(rt; library.start(8, 1), Some(Signal::Bool(true)));
}
