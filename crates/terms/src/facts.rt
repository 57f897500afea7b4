// Theorems about the definitions of specs/, each on the contract of a function that does nothing else.
ghost use Rattle.terms.specs.Facts.{SelectionAlone, SelectionExists, MonthAlone, RunningKeeps, LinePairing, RoundSelects, RoundPairs, FewLegs};

// Two selections that keep the five rules are equal.
pub fn selection_alone()
    ensures { SelectionAlone }
{}

// Over a sound month some selection keeps them.
#[tactic(auto, using(crate::proofs::Exists::selection_exists))]
pub fn selection_exists()
    ensures { SelectionExists }
{}

// Two plain months that the same calls leave are equal.
#[tactic(auto, using(crate::proofs::Months::month_alone))]
pub fn month_alone()
    ensures { MonthAlone }
{}

// The running rule keeps the meaning of an odd-lot rule.
pub fn running_keeps()
    ensures { RunningKeeps }
{}

// Two sides laid along a line give a pairing.
#[tactic(auto, using(crate::proofs::Lines::laid_pairing))]
pub fn line_pairing()
    ensures { LinePairing }
{}

// The rows of a round tell a selection that keeps the five rules.
pub fn round_selects()
    ensures { RoundSelects }
{}

// Its legs tell two lists of pairs that add up, each with fewer pairs than accounts.
pub fn round_pairs()
    ensures { RoundPairs }
{}

// It has at most 1,275 legs.
pub fn few_legs()
    ensures { FewLegs }
{}
