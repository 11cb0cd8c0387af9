// The kinds: their numbers, pins, starting cells and outputs.
#![tactic(auto)]

ghost use Rattle.std.specs.Prelude.{◌≡◌};
ghost use Rattle.table.specs.Kinds.{pin_types, start_cells, output_count};

use signals::{Signal, SignalType};

pub mod numbering;

pub use numbering::{House, Numbering, Standard};

#[derive(Clone, Copy, Debug, PartialEq, Eq)]
pub enum Kind {
    And,
    Or,
    Not,
    Add,
    AddD,
    DivD,
    Lim,
    LimD,
    Pde,
    Ctr,
    Rsr,
    NswD,
    IR,
    RD,
    N2R,
    Hys,
}

impl Kind {
    pub fn pins(self) -> &'static [SignalType]
        ensures { result.now ≡ pin_types self }
    {
        match self {
            Kind::And | Kind::Or | Kind::Rsr => &[SignalType::Bool, SignalType::Bool],
            Kind::Not => &[SignalType::Bool],
            Kind::Add => &[SignalType::Real, SignalType::Real],
            Kind::AddD | Kind::DivD => &[SignalType::Dint, SignalType::Dint],
            Kind::Lim => &[SignalType::Real, SignalType::Real, SignalType::Real],
            Kind::LimD | Kind::Hys => &[SignalType::Dint, SignalType::Dint, SignalType::Dint],
            Kind::Pde => &[SignalType::Bool, SignalType::Dint],
            Kind::Ctr => &[
                SignalType::Bool,
                SignalType::Bool,
                SignalType::Bool,
                SignalType::Int,
                SignalType::Int,
            ],
            Kind::NswD => &[SignalType::Dint, SignalType::Dint, SignalType::Bool],
            Kind::IR => &[SignalType::Int],
            Kind::RD => &[SignalType::Real],
            Kind::N2R => &[SignalType::Int, SignalType::Real, SignalType::Int],
        }
    }

    // What the cells start at; a cell has the type of its starting signal.
    pub fn cells(self) -> &'static [Signal]
        ensures { result.now ≡ start_cells self }
    {
        match self {
            Kind::And | Kind::Or | Kind::Not | Kind::Rsr | Kind::Hys => &[Signal::Bool(false)],
            Kind::Add | Kind::IR | Kind::N2R => &[Signal::Real(0.0)],
            Kind::AddD | Kind::NswD => &[Signal::Dint(0)],
            Kind::DivD => &[Signal::Dint(0), Signal::Dint(0), Signal::Bool(false)],
            Kind::Lim => &[Signal::Real(0.0), Signal::Bool(true), Signal::Bool(true)],
            Kind::LimD => &[Signal::Dint(0), Signal::Bool(true), Signal::Bool(true)],
            Kind::Pde => &[Signal::Bool(false), Signal::Dint(0)],
            Kind::Ctr => &[
                Signal::Int(0),
                Signal::Bool(false),
                Signal::Bool(false),
                Signal::Bool(false),
                Signal::Bool(false),
            ],
            Kind::RD => &[Signal::Dint(0), Signal::Bool(false)],
        }
    }

    // How many of the cells, the first ones, are outputs; the others are hidden.
    pub fn outputs(self) -> usize
        ensures { result ≡ output_count self }
    {
        match self {
            Kind::DivD | Kind::Lim | Kind::LimD | Kind::Ctr => 3,
            Kind::RD => 2,
            _ => 1,
        }
    }
}
