// The worked month, as theorems about the definitions of specs/.
ghost use Rattle.terms.specs.Examples.{TradesM, ListsM, RoundsM, StrikesAll, RunningThree, SelectsM, PairsM, LawM};

// Trades on the opened month.
pub fn trades()
    ensures { TradesM }
{}

// The pairs of the draw, and the positions after it.
pub fn lists()
    ensures { ListsM }
{}

// The rows of an ordinary and of a final round.
pub fn rounds()
    ensures { RoundsM }
{}

// A dropped trial is left out, with the trial that was kept in it.
pub fn strikes()
    ensures { StrikesAll }
{}

pub fn shares()
    ensures { RunningThree }
{}

// The drawn selection keeps the five rules, and another does not.
pub fn selects()
    ensures { SelectsM }
{}

// The pairs, in an ordinary round and in the final one.
pub fn pairs()
    ensures { PairsM }
{}

// The law holds of a run of two days.
#[tactic(auto, using(crate::proofs::Worked::law_m))]
pub fn law_holds()
    ensures { LawM }
{}
