// Numbers within the limits that the subject sets.
ghost use Rattle.std.specs.Prelude.{◌≡◌, ℕ, ◌≤◌};
ghost use Rattle.std.specs.Bool.{then_some};
ghost use Rattle.terms.specs.Codes.{between};

use std::marker::Model;

// A number from LOW to HIGH.
#[derive(Clone, Copy, Debug, PartialEq, Eq)]
pub struct Within<const LOW: u32, const HIGH: u32> {
    value: u32,
}

impl<const LOW: u32, const HIGH: u32> Model for Within<LOW, HIGH> {
    ghost Value = { ℕ };

    ghost view = { λ w. w.value };

    ghost invariant = { λ w. (LOW ≤ w.value) × (w.value ≤ HIGH) };

    ghost inverse = { λ n. record { value = n } };
}

impl<const LOW: u32, const HIGH: u32> Within<LOW, HIGH> {
    // The number, or `None` exactly if it is out of range.
    pub fn new(value: u32) -> Option<Within<LOW, HIGH>>
        ensures { result ≡ then_some (between LOW HIGH value) value }
    {
        if !(LOW..=HIGH).contains(&value) {
            return None;
        }
        Some(Within { value })
    }

    // A number that is known to be in range.
    pub(crate) fn exactly(value: u32) -> Within<LOW, HIGH>
        requires low { LOW ≤ value }
        requires high { value ≤ HIGH }
        ensures { result ≡ value }
    {
        Within { value }
    }

    // The number itself.
    pub fn value(&self) -> u32
        ensures number { result ≡ self.now }
        ensures low { LOW ≤ result }
        ensures high { result ≤ HIGH }
    {
        self.value
    }
}

// Lots of a leg.
pub type Lots = Within<0, 100_000>;

// A price or a valuation, in 1/10,000 yuan per hundred of face.
pub type Price = Within<1, 2_000_000>;

// A bond's factor, in 1/10,000.
pub type Factor = Within<1, 20_000>;

// A coupon rate, in millionths.
pub type Rate = Within<1, 200_000>;

// The performance ratio, or the share that is passed on, in 1/10,000.
pub type Ratio = Within<0, 10_000>;

// Accrued interest, in 1/100,000,000 yuan per hundred of face.
pub type Interest = Within<0, 2_000_000_000>;
