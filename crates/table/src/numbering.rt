// Which kinds a library has, and under which numbers.
ghost use Rattle.std.specs.Prelude.{◌≡◌, ◌≤◌, List, length};
ghost use Rattle.table.specs.declared.Kind.{Kind};
ghost use Rattle.table.specs.Kinds.{counted_from_one, standard_kinds, house_kinds, few_standard, few_house};

use crate::Kind;

// The kinds of a library in the order of their numbers, which count from 1.
pub trait Numbering {
    ghost listed: { List Kind };

    // What each numbering owes: no more kinds than a byte has numbers above 0.
    ghost few: { length listed ≤ 255 };

    fn kinds(&self) -> &'static [Kind]
        ensures { result.now ≡ listed };

    // The kind that has a number, none for any other number.
    final fn kind(&self, number: u8) -> Option<Kind>
        ensures { result ≡ counted_from_one listed number }
    {
        let place = usize::from(number).checked_sub(1)?;
        self.kinds().get(place).copied()
    }
}

// The kinds of the standard library.
#[derive(Clone, Copy)]
pub struct Standard;

impl Numbering for Standard {
    ghost listed = { standard_kinds };

    ghost few = { few_standard };

    fn kinds(&self) -> &'static [Kind] {
        &[
            Kind::And,
            Kind::Or,
            Kind::Not,
            Kind::Add,
            Kind::AddD,
            Kind::DivD,
            Kind::Lim,
            Kind::LimD,
            Kind::Pde,
            Kind::Ctr,
            Kind::Rsr,
            Kind::NswD,
            Kind::IR,
            Kind::RD,
            Kind::N2R,
        ]
    }
}

// The kinds of the house library.
#[derive(Clone, Copy)]
pub struct House;

impl Numbering for House {
    ghost listed = { house_kinds };

    ghost few = { few_house };

    fn kinds(&self) -> &'static [Kind] {
        &[Kind::Hys]
    }
}
