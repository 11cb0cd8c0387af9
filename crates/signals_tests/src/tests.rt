// Cleaning, coding, terminals and equality at their borders, as tables.
use signals::coding::{decode, encode};
use signals::real;
use signals::signal::{Signal, SignalType};
use signals::terminals::type_of_terminal;
use std::num::{f32_from_bits_with_nan, f32_to_bits_with_nan};

#[test]
fn cleans_by_bits(rt: HostRuntime) {
    let cases: [(u32, u32); 6] = [
        (0x8000_0000, 0x0000_0000),
        (0x7FC0_0000, 0x0000_0000),
        (0x7F80_0000, 0x7F7F_FFFF),
        (0xFF80_0000, 0xFF7F_FFFF),
        (0x0000_0000, 0x0000_0000),
        (0x8000_0001, 0x8000_0001),
    ];
    for (given, cleaned) in cases {
        let clean = real::clean(f32_from_bits_with_nan(given));
        assert_eq!(rt; f32_to_bits_with_nan(clean), cleaned);
    }
}

#[test]
fn codes_both_ways(rt: HostRuntime) {
    let cases: [(Signal, [u8; 4]); 9] = [
        (Signal::Bool(false), [0, 0, 0, 0]),
        (Signal::Bool(true), [0, 0, 0, 1]),
        (Signal::Int(-32768), [0xFF, 0xFF, 0x80, 0x00]),
        (Signal::Int(32767), [0x00, 0x00, 0x7F, 0xFF]),
        (Signal::Dint(-2147483648), [0x80, 0x00, 0x00, 0x00]),
        (Signal::Dint(2147483647), [0x7F, 0xFF, 0xFF, 0xFF]),
        (Signal::Real(-0.0), [0x80, 0x00, 0x00, 0x00]),
        (Signal::Real(f32::MAX), [0x7F, 0x7F, 0xFF, 0xFF]),
        (Signal::Real(f32::NAN), [0x7F, 0xC0, 0x00, 0x00]),
    ];
    for (signal, bytes) in cases {
        assert_eq!(rt; encode(signal), bytes);
        assert_eq!(rt; decode(signal.signal_type(), bytes), Some(signal));
    }
}

#[test]
fn refuses_what_lies_outside(rt: HostRuntime) {
    let cases: [(SignalType, [u8; 4]); 4] = [
        (SignalType::Bool, [0x00, 0x00, 0x00, 0x02]),
        (SignalType::Bool, [0xFF, 0xFF, 0xFF, 0xFF]),
        (SignalType::Int, [0x00, 0x00, 0x80, 0x00]),
        (SignalType::Int, [0xFF, 0xFF, 0x7F, 0xFF]),
    ];
    for (signal_type, bytes) in cases {
        assert_eq!(rt; decode(signal_type, bytes), None);
    }
}

#[test]
fn types_terminals(rt: HostRuntime) {
    let cases: [(u8, Option<SignalType>); 8] = [
        (7, Some(SignalType::Bool)),
        (8, Some(SignalType::Int)),
        (15, Some(SignalType::Int)),
        (16, Some(SignalType::Dint)),
        (23, Some(SignalType::Dint)),
        (24, Some(SignalType::Real)),
        (31, Some(SignalType::Real)),
        (32, None),
    ];
    for (terminal, signal_type) in cases {
        assert_eq!(rt; type_of_terminal(terminal), signal_type);
    }
}

#[test]
fn tells_zeros_apart(rt: HostRuntime) {
    assert_eq!(rt; Signal::Real(f32::NAN), Signal::Real(-f32::NAN));
    assert_ne!(rt; Signal::Real(0.0), Signal::Real(-0.0));
    assert_ne!(rt; Signal::Int(0), Signal::Dint(0));
}
