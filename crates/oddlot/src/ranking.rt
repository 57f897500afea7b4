// Who gets the lots that rounding leaves over: the first entries of a list by a priority.
ghost use Rattle.std.specs.Prelude.{◌≡◌, ◌-◌, ◌<◌, length, sum, sum_by};
ghost use Rattle.oddlot.specs.Priorities.{ahead, by_priority, part_by, rounded, standing};

use crate::priorities::Priority;
use crate::shares::Sharing;

// The entries of a sharing, ranked by a priority, and the lots that rounding every share down leaves over.
#[derive(Drop)]
pub(crate) struct Ranking<'a, P> {
    priority: &'a P,
    sharing: Sharing<'a>,
    left: u32,
    ghost over: { left ≡ sharing.n - sum_by (rounded sharing.n (sum sharing.lots.now)) sharing.lots.now },
}

impl<'a, P: Priority> Ranking<'a, P> {
    // The ranking of a sharing's entries by a priority.
    pub(crate) fn new(priority: &'a P, sharing: Sharing<'a>) -> Ranking<'a, P>
        ensures priority { result.priority ≡ priority.entry }
        ensures sharing { result.sharing ≡ sharing.entry }
    {
        Ranking {
            priority,
            left: sharing.left(),
            sharing,
        }
    }

    // Writes the parts.
    pub(crate) fn fill(&self, parts: &mut [u32])
        requires { length parts.old ≡ length self.now.sharing.lots.now }
        ensures { parts.new ≡ by_priority (P.rank self.now.priority.now) self.now.sharing.lots.now self.now.sharing.n }
    {
        for (i, part) in parts.iter_mut().enumerate() {
            *part = self.part(i);
        }
    }

    // The part of the entry at place i: its share rounded down, and one lot more if fewer entries stand ahead of it than lots are left.
    fn part(&self, i: usize) -> u32
        requires { i < length self.now.sharing.lots.now }
        ensures { result ≡ part_by (P.rank self.now.priority.now) self.now.sharing.n self.now.sharing.lots.now i }
    {
        let share = self.sharing.rounded(self.sharing.lots[i]);
        if self.count_ahead(i) < self.left as usize {
            share + 1
        } else {
            share
        }
    }

    // How many entries stand ahead of the one at place i.
    #[tactic(auto, using(std::proofs::lemmas::List::take_rest))]
    fn count_ahead(&self, i: usize) -> usize
        requires { i < length self.now.sharing.lots.now }
        ensures { let sharing = self.now.sharing in
            result ≡ ahead (standing (P.rank self.now.priority.now) sharing.n (sum sharing.lots.now)) sharing.lots.now i }
    {
        let lots = self.sharing.lots;
        let own = self.standing(lots[i]);
        let before = lots[..i]
            .iter()
            .filter(|q| own <= self.standing(**q))
            .count();
        let behind = lots[i + 1..]
            .iter()
            .filter(|q| own < self.standing(**q))
            .count();
        before + behind
    }

    // The priority of an entry of some lots.
    fn standing(&self, lots: u32) -> u32
        ensures { let sharing = self.now.sharing in
            result ≡ standing (P.rank self.now.priority.now) sharing.n (sum sharing.lots.now) lots }
    {
        self.priority.rank_of(lots, self.sharing.remainder(lots))
    }
}
