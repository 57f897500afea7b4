// What a calendar is, and the next business day by any calendar.
ghost use Rattle.std.specs.Prelude.{◌≡◌, ℕ, ◌<◌, Bool, false};
ghost use Rattle.calendar.specs.Days.{NextWithin};

// A calendar means a set of business days, none of them above day 100,000. A question changes nothing.
pub trait Calendar {
    ghost business: { Self → ℕ → Bool };

    // Whether a day is a business day.
    fn is_business_day(&self, day: u32) -> bool
        ensures { result ≡ business self.now day };

    ghost bounded: { (c : Self) (day : ℕ) → 100000 < day → business c day ≡ false };
}

// The first business day after a day and up to a limit; `None` exactly if there is none.
pub fn next_business_day<C: Calendar>(calendar: &C, day: u32, limit: u32) -> Option<u32>
    ensures { NextWithin (C.business calendar.now) day limit result }
{
    let last = limit.min(100_000);
    if day >= last {
        return None;
    }
    (day + 1..last + 1).find(|d| calendar.is_business_day(*d))
}
