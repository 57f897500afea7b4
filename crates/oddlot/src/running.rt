// The running rule.
ghost use Rattle.terms.specs.OddLots.{running};
ghost use Rattle.terms.proofs.Running.{running_keeps};

use crate::rules::OddLots;
use crate::shares::Sharing;
use terms::refusals::Refusal;

// An entry gets the share of the total so far, rounded down, less the same before it.
#[derive(Clone, Copy, Debug, PartialEq, Eq)]
pub struct RunningRule;

impl OddLots for RunningRule {
    ghost share = { λ _. running };

    ghost meaning = { λ rule. running_keeps };

    fn split(&self, lots: &[u32], n: u32, parts: &mut [u32]) -> Result<(), Refusal> {
        let sharing = Sharing::new(lots, n, parts.len())?;
        let mut before = 0;
        // By place: of parts written through a zip with the lots nothing is known afterwards.
        for (i, part) in parts.iter_mut().enumerate() {
            let after = before + lots[i];
            *part = sharing.between(before, after);
            before = after;
        }
        Ok(())
    }
}
