// The library that boxes ship with, and the worked examples, shown of the rules themselves.
#![tactic(auto)]

ghost use Rattle.std.specs.Prelude.{◌≡◌};
ghost use Rattle.shipped.specs.Worked.{WorkedExamples};

use blocks::{Cleaner, Pair};
use kinds::{House, Kinds, Standard};

// The cleaner over the pair of the standard and the house library.
pub type Shipped = Cleaner<Pair<Kinds<Standard>, Kinds<House>>>;

pub fn library() -> Shipped
    ensures { result ≡ record { below = record { first = record { 0 = record {} }; second = record { 0 = record {} } } } }
{
    Cleaner {
        below: Pair {
            first: Kinds(Standard),
            second: Kinds(House),
        },
    }
}

// The worked examples of rules, charts and traces, in one statement.
pub fn worked_examples_hold()
    ensures { WorkedExamples }
{}
