// The listed calendar.
ghost use Rattle.calendar.specs.Days.{listed};
ghost use Rattle.std.proofs.Common.{rules};

use crate::calendars::Calendar;
use crate::lists::DayList;

// The days of a list are business days, up to day 100,000.
#[derive(Clone, Copy, Debug, PartialEq, Eq)]
pub struct Listed<L> {
    pub days: L,
}

impl<L: DayList> Calendar for Listed<L> {
    ghost business = { λ c. listed (L.days c.days) };

    ghost bounded = { Prim.search rules };

    fn is_business_day(&self, day: u32) -> bool {
        day <= 100_000 && self.days.has_day(day)
    }
}
