// Rules that round every share down and give the lots left over by a priority.
ghost use Rattle.std.specs.Prelude.{◌≡◌, ℕ, ◌≤◌};
ghost use Rattle.oddlot.specs.Priorities.{by_priority, largest_remainder};
ghost use Rattle.std.proofs.Common.{rules};
ghost use Rattle.oddlot.specs.Fair.{priority_keeps};

use crate::ranking::Ranking;
use crate::rules::OddLots;
use crate::shares::Sharing;
use terms::refusals::Refusal;

// A priority among entries, from an entry's lots and what rounding its share down leaves. An entry whose share is whole has none.
pub trait Priority {
    ghost rank: { Self → ℕ → ℕ → ℕ };

    // The priority of an entry; the higher goes first.
    fn rank_of(&self, lots: u32, remainder: u32) -> u32
        ensures { result ≡ rank self.now lots remainder };

    ghost whole: { (p : Self) (lots : ℕ) → rank p lots 0 ≡ 0 };

    ghost broken: { (p : Self) (lots remainder : ℕ) → 1 ≤ lots → 1 ≤ remainder → 1 ≤ rank p lots remainder };
}

// The largest remainder first.
#[derive(Clone, Copy, Debug, PartialEq, Eq)]
pub struct LargestRemainder;

impl Priority for LargestRemainder {
    ghost rank = { λ _. largest_remainder };

    ghost whole = { Prim.search rules };

    ghost broken = { Prim.search rules };

    fn rank_of(&self, _lots: u32, remainder: u32) -> u32 {
        remainder
    }
}

// The rule by a priority; among equals the lower place goes first.
#[derive(Clone, Copy, Debug, PartialEq, Eq)]
pub struct ByPriority<P> {
    pub priority: P,
}

impl<P: Priority> OddLots for ByPriority<P> {
    ghost share = { λ rule. by_priority (P.rank rule.priority) };

    ghost meaning = { λ rule. priority_keeps (P.rank rule.priority) (P.whole rule.priority) (P.broken rule.priority) };

    fn split(&self, lots: &[u32], n: u32, parts: &mut [u32]) -> Result<(), Refusal> {
        let sharing = Sharing::new(lots, n, parts.len())?;
        Ranking::new(&self.priority, sharing).fill(parts);
        Ok(())
    }
}
