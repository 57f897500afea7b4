// Shares of a number of lots, in proportion to the lots of a list.
ghost use Rattle.std.specs.Prelude.{◌≡◌, ◌-◌, ◌*◌, ◌%◌, ◌≤◌, true, false, length, sum, sum_by, IfOk, OnOk, OnErr, IsOkUnless};
ghost use Rattle.oddlot.specs.Sharing.{can_split};
ghost use Rattle.oddlot.specs.Priorities.{rounded};

use crate::checks::{can_split, total};
use terms::refusals::Refusal;

// n lots to share among the entries of a list that a rule answers.
#[derive(Clone, Copy)]
pub(crate) struct Sharing<'a> {
    pub(crate) lots: &'a [u32],
    n: u32,
    total: u32,
    ghost answered: { can_split lots.now n (length lots.now) ≡ true },
    ghost whole: { total ≡ sum lots.now },
    ghost some: { 1 ≤ total },
    ghost within: { n ≤ total },
    ghost rounds: { sum_by (rounded n (sum lots.now)) lots.now ≤ n },
}

impl<'a> Sharing<'a> {
    // The sharing of n lots among the entries of a list. Refused exactly if no rule answers for the list, the number and an area of so many places.
    pub(crate) fn new(lots: &'a [u32], n: u32, places: usize) -> Result<Sharing<'a>, Refusal>
        ensures answered { OnOk result (can_split lots.now n places ≡ true) }
        ensures list { IfOk result (λ s. s.lots.now ≡ lots.now) }
        ensures number { IfOk result (λ s. s.n ≡ n) }
        ensures refused { OnErr result (can_split lots.now n places ≡ false) }
        ensures refusal { IsOkUnless result Refusal.NotShareable }
    {
        if !can_split(lots, n, places) {
            return Err(Refusal::NotShareable);
        }
        Ok(Sharing {
            lots,
            n,
            total: total(lots) as u32,
        })
    }

    // The share of some lots, rounded down.
    pub(crate) fn rounded(&self, lots: u32) -> u32
        ensures share { result ≡ rounded self.now.n (sum self.now.lots.now) lots }
        ensures within { result ≤ lots }
    {
        (u64::from(lots) * u64::from(self.n) / u64::from(self.total)) as u32
    }

    // The share of what lies between two totals, each rounded down.
    pub(crate) fn between(&self, before: u32, after: u32) -> u32
        requires { before ≤ after }
        ensures { let share = rounded self.now.n (sum self.now.lots.now) in result ≡ share after - share before }
    {
        self.rounded(after) - self.rounded(before)
    }

    // What rounding the share of some lots down leaves.
    pub(crate) fn remainder(&self, lots: u32) -> u32
        ensures { result ≡ lots * self.now.n % sum self.now.lots.now }
    {
        (u64::from(lots) * u64::from(self.n) % u64::from(self.total)) as u32
    }

    // The lots that rounding every share down leaves over.
    pub(crate) fn left(&self) -> u32
        ensures { result ≡ self.now.n - sum_by (rounded self.now.n (sum self.now.lots.now)) self.now.lots.now }
    {
        self.n - self.lots.iter().map(|q| self.rounded(*q)).sum::<u32>()
    }
}
