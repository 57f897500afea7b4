// The rules that a host can choose.
ghost use Rattle.oddlot.specs.House.{house_share};
ghost use Rattle.std.specs.Prelude.{ℕ, refl};
ghost use Rattle.terms.proofs.Running.{running_keeps};
ghost use Rattle.oddlot.specs.Fair.{priority_keeps};
ghost use Rattle.oddlot.specs.Priorities.{largest_remainder};
ghost use Rattle.oddlot.specs.declared.house.HouseRule.TheVariants.{Running, Remainder};

use crate::priorities::{ByPriority, LargestRemainder};
use crate::rules::OddLots;
use crate::running::RunningRule;
use terms::refusals::Refusal;

// A rule of the house, as a value: hosts choose it by its case.
#[derive(Clone, Copy, Debug, PartialEq, Eq)]
pub enum HouseRule {
    Running,
    Remainder,
}

impl OddLots for HouseRule {
    ghost share = { house_share };

    ghost meaning = { elim [
      | Running ↦ running_keeps
      | Remainder ↦ priority_keeps largest_remainder (λ (lots : ℕ). refl) (λ (lots remainder : ℕ) a b. b)
    ] };

    fn split(&self, lots: &[u32], n: u32, parts: &mut [u32]) -> Result<(), Refusal> {
        match self {
            HouseRule::Running => RunningRule.split(lots, n, parts),
            HouseRule::Remainder => ByPriority {
                priority: LargestRemainder,
            }
            .split(lots, n, parts),
        }
    }
}
