// Every fault of a chart at its border: the number, the place, and the chart next to it that is accepted.
use crate::expected::{fault, is_accepted};
use std::process::Abort;

// Kept as a number: it is what a test takes from the rules, and not from the code.
#[derive(Clone, Copy)]
struct FaultyChart<'a> {
    chart: &'a [u8],
    number: u8,
    place: usize,
}

fn refused(rt: &(impl Abort + AllocGlobal), cases: &[FaultyChart]) {
    for case in cases {
        assert_eq!(rt;
            fault(rt.alloc(), case.chart),
            Some((case.number, case.place))
        );
    }
}

fn accepted(rt: &(impl Abort + AllocGlobal), charts: &[&[u8]]) {
    for chart in charts {
        assert!(rt; is_accepted(rt.alloc(), chart));
    }
}

// A chart that is refused, with the number and the place.
const fn case(chart: &[u8], number: u8, place: usize) -> FaultyChart {
    FaultyChart {
        chart,
        number,
        place,
    }
}

#[test]
fn records_cut_short(rt: HostRuntime) {
    refused(
        &rt,
        &[
            case(&[0x03], 1, 0),
            case(&[0x03, 0x02, 0, 0, 0], 1, 0),
            case(&[0x03, 0x02, 0, 0, 0, 0, 0x03, 0x02, 0, 0, 0], 1, 6),
            case(&[0x03, 0x02, 0, 0, 0, 0, 0x00], 1, 6),
            case(&[0x03, 0x02, 0, 0, 0, 0, 0x00, 0, 0], 1, 6),
        ],
    );
    accepted(
        &rt,
        &[
            &[0x03, 0x02, 0, 0, 0, 0],
            &[0x03, 0x02, 0, 0, 0, 0, 0x00, 0, 0, 0],
        ],
    );
}

#[test]
fn kinds_without_a_shape(rt: HostRuntime) {
    for kind in [16u8, 127, 128, 130, 255] {
        assert_eq!(rt; fault(rt.alloc(), &[kind]), Some((2, 0)));
        assert_eq!(rt;
            fault(rt.alloc(), &[0x03, 0x02, 0, 0, 0, 0, kind]),
            Some((2, 6))
        );
    }
    accepted(
        &rt,
        &[
            &[0x0D, 0x01, 0, 0, 0, 8],
            &[0x81, 0x01, 0, 0, 0, 16, 0x00, 0, 0, 0, 2, 0x00, 0, 0, 0, 1],
        ],
    );
}

#[test]
fn pins_out_of_form(rt: HostRuntime) {
    refused(
        &rt,
        &[
            case(&[0x03, 0x03, 0, 0, 0, 0], 4, 0),
            case(&[0x03, 0xFF, 0, 0, 0, 0], 4, 0),
            case(&[0x03, 0x01, 1, 0, 0, 0], 4, 0),
            case(&[0x03, 0x01, 0, 1, 0, 0], 4, 0),
            case(&[0x03, 0x01, 0, 0, 1, 0], 4, 0),
            case(&[0x03, 0x02, 1, 0, 0, 0], 4, 0),
            case(&[0x03, 0x02, 0, 1, 0, 0], 4, 0),
        ],
    );
}

#[test]
fn sources_and_terminals_missing(rt: HostRuntime) {
    refused(
        &rt,
        &[
            case(&[0x03, 0x01, 0, 0, 0, 32], 5, 0),
            case(&[0x03, 0x02, 0, 0, 1, 0], 5, 0),
            case(&[0x03, 0x02, 0, 0, 0, 1], 5, 0),
            case(&[0x09, 0x02, 0, 0, 0, 1, 0x00, 0, 0, 0, 0], 5, 0),
            case(&[0x03, 0x02, 0, 0, 0, 0, 0x00, 32, 0, 0], 5, 6),
            case(&[0x03, 0x02, 0, 0, 0, 0, 0x00, 0, 1, 0], 5, 6),
            case(&[0x03, 0x02, 0, 0, 0, 0, 0x00, 0, 0, 1], 5, 6),
        ],
    );
    accepted(
        &rt,
        &[
            &[0x0E, 0x01, 0, 0, 0, 31],
            &[0x03, 0x02, 0, 0, 1, 0, 0x03, 0x02, 0, 0, 0, 0],
        ],
    );
}

#[test]
fn types_that_differ(rt: HostRuntime) {
    refused(
        &rt,
        &[
            case(&[0x03, 0x01, 0, 0, 0, 8], 6, 0),
            case(&[0x0D, 0x01, 0, 0, 0, 7], 6, 0),
            case(&[0x0D, 0x01, 0, 0, 0, 16], 6, 0),
            case(&[0x0E, 0x01, 0, 0, 0, 23], 6, 0),
            case(&[0x0E, 0x02, 0, 0, 0, 0], 6, 0),
            case(&[0x03, 0x02, 0, 0, 0, 0, 0x00, 8, 0, 0], 6, 6),
        ],
    );
    accepted(
        &rt,
        &[
            &[0x03, 0x01, 0, 0, 0, 7],
            &[0x0D, 0x01, 0, 0, 0, 8],
            &[0x0D, 0x01, 0, 0, 0, 15],
            &[0x0E, 0x01, 0, 0, 0, 24],
        ],
    );
}

#[test]
fn constants_that_do_not_fit(rt: HostRuntime) {
    refused(
        &rt,
        &[
            case(&[0x03, 0x00, 0, 0, 0, 2], 7, 0),
            case(&[0x03, 0x00, 0xFF, 0xFF, 0xFF, 0xFF], 7, 0),
            case(&[0x0D, 0x00, 0, 0, 0x80, 0], 7, 0),
            case(&[0x0D, 0x00, 0xFF, 0xFF, 0x7F, 0xFF], 7, 0),
            case(&[0x0E, 0x00, 0x80, 0, 0, 0], 7, 0),
            case(&[0x0E, 0x00, 0x7F, 0x80, 0, 0], 7, 0),
            case(&[0x0E, 0x00, 0xFF, 0x80, 0, 0], 7, 0),
            case(&[0x0E, 0x00, 0x7F, 0xC0, 0, 0], 7, 0),
        ],
    );
    accepted(
        &rt,
        &[
            &[0x03, 0x00, 0, 0, 0, 1],
            &[0x0D, 0x00, 0, 0, 0x7F, 0xFF],
            &[0x0D, 0x00, 0xFF, 0xFF, 0x80, 0],
            &[0x0E, 0x00, 0x7F, 0x7F, 0xFF, 0xFF],
            &[0x0E, 0x00, 0x80, 0, 0, 1],
        ],
    );
}

#[test]
fn records_out_of_order(rt: HostRuntime) {
    refused(
        &rt,
        &[
            case(
                &[
                    0x03, 0x02, 0, 0, 0, 0, 0x00, 0, 0, 0, 0x03, 0x02, 0, 0, 0, 0,
                ],
                8,
                10,
            ),
            case(
                &[0x03, 0x02, 0, 0, 0, 0, 0x00, 1, 0, 0, 0x00, 1, 0, 0],
                8,
                10,
            ),
            case(
                &[0x03, 0x02, 0, 0, 0, 0, 0x00, 1, 0, 0, 0x00, 0, 0, 0],
                8,
                10,
            ),
        ],
    );
    accepted(
        &rt,
        &[&[0x03, 0x02, 0, 0, 0, 0, 0x00, 1, 0, 0, 0x00, 2, 0, 0]],
    );
}

#[test]
fn charts_without_a_block(rt: HostRuntime) {
    refused(
        &rt,
        &[
            case(&[], 9, 0),
            case(&[0x00, 0, 0, 0], 9, 0),
            case(&[0x00, 40, 9, 9, 0x00, 41, 9, 9], 9, 0),
        ],
    );
}

// Where several faults stand in a chart: 2 before 1, 1 before 8, walk one before walk two, pin by pin, record by record.
#[test]
fn the_first_fault_counts(rt: HostRuntime) {
    refused(
        &rt,
        &[
            case(&[0x10], 2, 0),
            case(&[0x03, 0x02, 0, 0, 0, 0, 0x00, 0, 0, 0, 0x03], 1, 10),
            case(&[0x03, 0x03, 0, 0, 0, 0, 0x10], 2, 6),
            case(&[0x01, 0x02, 0, 0, 9, 0, 0x00, 0, 0, 0, 2], 5, 0),
            case(&[0x01, 0x00, 0, 0, 0, 2, 0x02, 0, 0, 9, 0], 7, 0),
            case(
                &[
                    0x03, 0x02, 0, 0, 0, 0, 0x03, 0x01, 0, 0, 0, 8, 0x00, 40, 0, 0,
                ],
                6,
                6,
            ),
        ],
    );
}
