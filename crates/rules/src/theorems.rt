// Theorems about the rules: each stands in the contract of a function that does nothing.
ghost use Rattle.rules.specs.Conversion.{IntKept};
ghost use Rattle.rules.specs.Examples.{Examples};

/// The worked examples hold.
pub fn examples_hold()
    ensures { Examples }
{}

/// I_R keeps the number of every INT.
pub fn int_is_kept()
    ensures { IntKept }
{}
