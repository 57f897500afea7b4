// Theorems about the rules, each on the contract of a function that does nothing else.
ghost use Rattle.oddlot.specs.Facts.{TwoOfThree};
ghost use Rattle.oddlot.specs.Priorities.{FirstCount};

// The first r by a priority are r entries.
#[tactic(auto, using(crate::specs::First::first_count))]
pub fn first_count()
    ensures { FirstCount }
{}

// Two lots among three accounts of one lot each, by both rules.
pub fn two_of_three()
    ensures { TwoOfThree }
{}
