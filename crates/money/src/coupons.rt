// Coupons, and the interest that has accrued on a day.
ghost use Rattle.std.specs.Prelude.{◌≡◌, ◌*◌, ◌≤◌, ok_or};
ghost use Rattle.money.specs.Amounts.{accrued};
ghost use Rattle.money.specs.Coupons.{coupons, frequency, Accruing};

use crate::amounts::half_up;
use crate::periods::Period;
use crate::ranges::{Interest, Rate};
use thiserror::Error;

// How often a year a bond pays its coupon.
#[derive(Clone, Copy, Debug, PartialEq, Eq)]
pub enum Frequency {
    Yearly = 1,
    HalfYearly = 2,
    Quarterly = 4,
}

// A number of coupons a year that no bond pays.
#[derive(Clone, Copy, Debug, PartialEq, Eq, Error)]
#[error("no bond pays {0} coupons a year")]
pub struct UnknownFrequency(pub u32);

// The frequency with 1, 2 or 4 coupons a year; an error with the number for any other. No derive reads an enum from its numbers.
impl TryFrom<u32> for Frequency {
    type Error = UnknownFrequency;

    ghost try_from_gives = { λ n r. r ≡ ok_or (frequency n) (record { 0 = n }) };

    fn try_from(n: u32) -> Result<Frequency, UnknownFrequency> {
        match n {
            1 => Ok(Frequency::Yearly),
            2 => Ok(Frequency::HalfYearly),
            4 => Ok(Frequency::Quarterly),
            _ => Err(UnknownFrequency(n)),
        }
    }
}

// Coupons a year.
impl From<Frequency> for u32 {
    ghost from_gives = { λ f n. n ≡ coupons f };

    fn from(frequency: Frequency) -> u32 {
        frequency as u32
    }
}

// A bond's coupon: its rate, how often it is paid, and the period on a day.
#[derive(Clone, Copy, Debug, PartialEq, Eq)]
pub struct Coupon {
    pub rate: Rate,
    pub frequency: Frequency,
    pub period: Period,
}

impl Coupon {
    // The interest accrued since the last coupon day.
    #[tactic(auto, using(crate::proofs::Bounds::half_up_le))]
    pub fn accrued(&self) -> Interest
        ensures amount { result ≡ accrued self.now.rate (coupons self.now.frequency) self.now.period.gone self.now.period.days }
        ensures small { Accruing self.now }
    {
        Interest::exactly(half_up(
            earned(self.rate, self.period),
            whole(self.frequency, self.period),
        ) as u32)
    }
}

// A year's interest for each day of a period that has gone.
fn earned(rate: Rate, period: Period) -> u64
    ensures amount { result ≡ rate * 10000 * period.gone }
    ensures small { result ≤ 2000000000 * period.days }
    ensures most { result ≤ 732000000000 }
{
    u64::from(rate.value()) * 10_000 * u64::from(period.gone())
}

// The days of a year's coupons, each as long as this one.
#[tactic(auto, using(crate::proofs::Bounds::coupons_few))]
fn whole(frequency: Frequency, period: Period) -> u64
    ensures days { result ≡ coupons frequency * period.days }
    ensures some { 1 ≤ result }
    ensures few { result ≤ 1464 }
    ensures no_less { period.days ≤ result }
{
    u64::from(u32::from(frequency)) * u64::from(period.days())
}
