// The counter CTR.
ghost use Rattle.rules.specs.Counter.{counted, counter_sum, change, rises};
ghost use Rattle.rules.specs.Limiter.{limited};
ghost use Rattle.std.specs.Int.{saturate_to_bits};
ghost use Rattle.std.specs.Prelude.{◌≡◌, int_lt};

use crate::limiter::{Limited, limit};

/// The pins of CTR: up, down, reset, and the upper and the lower limit.
#[derive(Clone, Copy)]
pub struct CounterPins {
    pub iu: bool,
    pub id: bool,
    pub r: bool,
    pub lu: i16,
    pub ll: i16,
}

/// What CTR remembers: Y, and in PU and PD the last IU and ID.
#[derive(Clone, Copy)]
pub struct CounterMemory {
    pub y: i16,
    pub pu: bool,
    pub pd: bool,
}

/// What CTR gives: the limited count, Y, QU and QL, and the new PU and PD.
#[derive(Clone, Copy)]
pub struct Counted {
    pub count: Limited<i16>,
    pub pu: bool,
    pub pd: bool,
}

/// CTR: counts the rising edges of IU up and those of ID down, between its limits.
pub fn ctr(pins: CounterPins, memory: CounterMemory) -> Counted
    ensures { result ≡ counted pins memory }
{
    Counted {
        count: limited_sum(pins, memory),
        pu: pins.iu,
        pd: pins.id,
    }
}

// The limiter ends the step.
fn limited_sum(pins: CounterPins, memory: CounterMemory) -> Limited<i16>
    ensures { result ≡ limited int_lt (counter_sum pins memory) pins.lu pins.ll }
{
    limit(summed(pins, memory), pins.lu, pins.ll)
}

// The sum, limited to INT: the limiter cannot tell it from the sum itself.
fn summed(pins: CounterPins, memory: CounterMemory) -> i16
    ensures { result ≡ saturate_to_bits 15 (counter_sum pins memory) }
{
    if pins.r {
        0
    } else {
        memory.y.saturating_add(net(rising(pins.iu, memory.pu), rising(pins.id, memory.pd)))
    }
}

// Whether a pin that was `before` rises.
fn rising(pin: bool, before: bool) -> bool
    ensures { result ≡ rises pin before }
{
    pin & !before
}

// Up and down at once are no change.
fn net(up: bool, down: bool) -> i16
    ensures { result ≡ change up down }
{
    up as i16 - down as i16
}
