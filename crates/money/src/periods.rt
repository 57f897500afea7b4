// A day in a coupon period.
ghost use Rattle.std.specs.Prelude.{◌≡◌, ◌-◌, ◌≤◌};
ghost use Rattle.std.specs.Bool.{then_some};
ghost use Rattle.money.specs.Periods.{in_period, Progress};

use std::marker::Model;

// A coupon period of 1 to 366 days, and how many of them have gone.
#[derive(Clone, Copy, Debug, PartialEq, Eq)]
pub struct Period {
    days: u32,
    gone: u32,
}

impl Model for Period {
    ghost Value = { Progress };

    ghost view = { λ p. record { days = p.days; gone = p.gone } };

    ghost invariant = { λ p. (1 ≤ p.days) × (p.days ≤ 366) × (p.gone ≤ p.days) };

    ghost inverse = { λ p. record { days = p.days; gone = p.gone } };
}

impl Period {
    // The period between two coupon days, on a day of it; `None` exactly if it has no day, over 366, or does not hold the day.
    pub fn new(last: u32, next: u32, day: u32) -> Option<Period>
        ensures { result ≡ then_some (in_period last next day) (record { days = next - last; gone = day - last }) }
    {
        if !is_in_period(last, next, day) {
            return None;
        }
        Some(Period {
            days: next - last,
            gone: day - last,
        })
    }

    // Its days.
    pub fn days(&self) -> u32
        ensures number { result ≡ self.now.days }
        ensures some { 1 ≤ result }
        ensures few { result ≤ 366 }
    {
        self.days
    }

    // The days that have gone.
    pub fn gone(&self) -> u32
        ensures number { result ≡ self.now.gone }
        ensures within { result ≤ self.now.days }
    {
        self.gone
    }
}

// Whether a day lies in the period between two coupon days, which has 1 to 366 days.
fn is_in_period(last: u32, next: u32, day: u32) -> bool
    ensures { result ≡ in_period last next day }
{
    last < next && next - last <= 366 && (last..=next).contains(&day)
}
