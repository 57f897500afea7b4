// What an odd-lot rule is.
ghost use Rattle.std.specs.Prelude.{◌≡◌, length, if◌then◌else◌};
ghost use Rattle.terms.specs.Answers.{answered};
ghost use Rattle.terms.specs.OddLots.{OddLotRule, KeepsMeaning};
ghost use Rattle.oddlot.specs.Sharing.{can_split, split_answer};

use terms::refusals::Refusal;

// A rule has one answer for each list of lots and each number to share, and it is a fair one.
pub trait OddLots {
    ghost share: { Self → OddLotRule };

    // Writes the part of each entry of `lots` in n lots. Refused exactly if the list, the number or the area is none that a rule answers; the area
    // is then left as it was.
    fn split(&self, lots: &[u32], n: u32, parts: &mut [u32]) -> Result<(), Refusal>
        ensures answer { answered result ≡ split_answer lots.now n (length parts.old) }
        ensures parts { parts.new ≡ (if can_split lots.now n (length parts.old) then share self.now lots.now n else parts.old) };

    ghost meaning: { (rule : Self) → KeepsMeaning (share rule) };
}
