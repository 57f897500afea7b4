// Lists of days.
ghost use Rattle.std.specs.Prelude.{◌≡◌, ℕ, List, ◌==◌};
ghost use Rattle.std.specs.List.{list_any};
ghost use Rattle.terms.specs.Month.{has};

// A list of days that can be looked through, in any order. Any kind of list will do, not only a lent slice: it may lie in the calendar itself.
pub trait DayList {
    ghost days: { Self → List ℕ };

    // Whether the list has a day.
    fn has_day(&self, day: u32) -> bool
        ensures { result ≡ has day (days self.now) };
}

impl DayList for &[u32] {
    ghost days = { λ s. s.now };

    #[tactic(auto, using(crate::proofs::Searched::has_any))]
    fn has_day(&self, day: u32) -> bool {
        holds(self, day)
    }
}

// Whether a list has a day, in the words of the library.
fn holds(days: &[u32], day: u32) -> bool
    ensures { result ≡ list_any (λ d. d == day) days.now }
{
    days.contains(&day)
}
