// Costs, differences and performance sums, in fen.
ghost use Rattle.std.specs.Prelude.{◌≡◌, ◌+◌, ◌-◌, ◌*◌, ◌^◌, ◌<◌, ◌≤◌};
ghost use Rattle.money.specs.Amounts.{half_up, cost, performance, passed_on, seller_difference, buyer_difference};

use crate::ranges::{Factor, Interest, Lots, Price, Ratio};

// The contract's price, and what a failure costs: the performance ratio, and the share of it that goes to the other side.
#[derive(Clone, Copy, Debug, PartialEq, Eq)]
pub struct Terms {
    pub price: Price,
    pub ratio: Ratio,
    pub share: Ratio,
}

impl Terms {
    // The part of a performance sum for so many lots that goes to the other side.
    pub fn passed_on(&self, lots: Lots) -> u64
        ensures amount { result ≡ passed_on (performance lots self.now.price self.now.ratio) self.now.share }
        ensures within { result ≤ performance lots self.now.price self.now.ratio }
    {
        performance(lots, self.price, self.ratio) * u64::from(self.share.value()) / 10_000
    }
}

// What a failed side pays as performance sum. It needs no share, so it is no method of the terms.
pub fn performance(lots: Lots, price: Price, ratio: Ratio) -> u64
    ensures amount { result ≡ performance lots price ratio }
    ensures small { result ≤ 10 ^ 15 }
{
    half_up(
        u64::from(lots.value()) * u64::from(price.value()) * u64::from(ratio.value()),
        10,
    )
}

// Delivered lots of a bond.
#[derive(Clone, Copy, Debug, PartialEq, Eq)]
pub struct Delivered {
    pub lots: Lots,
    pub factor: Factor,
    pub interest: Interest,
}

impl Delivered {
    // What the lots cost at a price.
    pub fn cost(&self, price: Price) -> u64
        ensures amount { result ≡ cost self.now.lots price self.now.factor self.now.interest }
        ensures small { result ≤ 10 ^ 15 }
    {
        let each = due(price, self.factor) + u64::from(self.interest.value());
        half_up(u64::from(self.lots.value()) * each, 10)
    }
}

// Unfinished lots, and the bond by which their difference is measured.
#[derive(Clone, Copy, Debug, PartialEq, Eq)]
pub struct Unfinished {
    pub lots: Lots,
    pub factor: Factor,
    pub valuation: Price,
}

impl Unfinished {
    // What a failed seller pays as difference: how far the valuation lies above the price, for its lots.
    pub fn seller_difference(&self, price: Price) -> u64
        ensures amount { result ≡ seller_difference self.now.lots price self.now.factor self.now.valuation }
        ensures small { result ≤ 10 ^ 15 }
    {
        excess(self.lots, worth(self.valuation), due(price, self.factor))
    }

    // What a failed buyer pays as difference: how far the price lies above the valuation, for its lots.
    pub fn buyer_difference(&self, price: Price) -> u64
        ensures amount { result ≡ buyer_difference self.now.lots price self.now.factor self.now.valuation }
        ensures small { result ≤ 10 ^ 15 }
    {
        excess(self.lots, due(price, self.factor), worth(self.valuation))
    }
}

// A quotient rounded to the nearest number, halves up.
pub(crate) fn half_up(dividend: u64, divisor: u64) -> u64
    requires some { 1 ≤ divisor }
    requires divisor_fits { divisor < 2 ^ 32 }
    requires dividend_fits { dividend < 2 ^ 62 }
    ensures { result ≡ half_up dividend divisor }
{
    (2 * dividend + divisor) / (2 * divisor)
}

// What a lot is due by the contract, in 1/100,000,000 yuan per hundred of face.
fn due(price: Price, factor: Factor) -> u64
    ensures amount { result ≡ price * factor }
    ensures small { result ≤ 40000000000 }
{
    u64::from(price.value()) * u64::from(factor.value())
}

// What a lot is worth by a valuation, in the same unit.
fn worth(valuation: Price) -> u64
    ensures amount { result ≡ valuation * 10000 }
    ensures small { result ≤ 20000000000 }
{
    u64::from(valuation.value()) * 10_000
}

// How far one amount lies above another, for so many lots, in fen.
fn excess(lots: Lots, high: u64, low: u64) -> u64
    requires { high ≤ 40000000000 }
    ensures amount { result ≡ half_up (lots * (high - low)) 10 }
    ensures small { result ≤ 10 ^ 15 }
{
    half_up(u64::from(lots.value()) * high.saturating_sub(low), 10)
}
