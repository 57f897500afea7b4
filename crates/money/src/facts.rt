// Theorems about the amounts, each on the contract of a function that does nothing else.
ghost use Rattle.money.specs.Amounts.{RoundingNearest};
ghost use Rattle.money.specs.Examples.{WorkedFigures};

// Interest, cost, difference and performance sum of one bond.
pub fn worked_figures()
    ensures { WorkedFigures }
{}

// Rounding gives the nearest number, halves up.
pub fn rounding_nearest()
    ensures { RoundingNearest }
{}
