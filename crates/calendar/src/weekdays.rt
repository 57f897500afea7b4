// The weekday calendar.
ghost use Rattle.terms.specs.Calendar.{weekdays};
ghost use Rattle.std.proofs.Common.{rules};

use crate::calendars::Calendar;

// Monday to Friday.
#[derive(Clone, Copy, Debug, PartialEq, Eq)]
pub struct Weekdays;

impl Calendar for Weekdays {
    ghost business = { λ _. weekdays };

    ghost bounded = { Prim.search rules };

    fn is_business_day(&self, day: u32) -> bool {
        day <= 100_000 && (day + 3) % 7 < 5
    }
}
