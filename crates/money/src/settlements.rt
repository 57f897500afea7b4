// The settlement of a leg.
ghost use Rattle.std.specs.Prelude.{◌≡◌, ◌^◌, ◌≤◌};
ghost use Rattle.money.specs.Settlements.{payments, settled, all_done, seller_failed, buyer_failed, both_failed, Balanced, Small};

use crate::amounts::{Delivered, Terms, Unfinished, performance};

// Who failed to deliver or to pay.
#[derive(Clone, Copy, Debug, PartialEq, Eq)]
pub enum Failed {
    Nobody,
    Seller,
    Buyer,
    Both,
}

// The performance sum that a side owes, what it pays in all, and what it receives, in fen.
#[derive(Clone, Copy, Debug, PartialEq, Eq)]
pub struct Payments {
    pub performance: u64,
    pub pays: u64,
    pub receives: u64,
}

// What a leg comes to, in fen: the cost of the delivered lots, the difference, the share of a performance sum that goes to the other side, each
// side's payments, and what the house keeps.
#[derive(Clone, Copy, Debug, PartialEq, Eq)]
pub struct Settlement {
    pub cost: u64,
    pub difference: u64,
    pub share: u64,
    pub seller: Payments,
    pub buyer: Payments,
    pub kept: u64,
}

// The settlement of a leg with its delivered and its unfinished lots.
pub fn settle(
    failed: Failed,
    terms: &Terms,
    delivered: &Delivered,
    unfinished: &Unfinished,
) -> Settlement
    ensures amounts { result ≡ settled failed terms.now delivered.now unfinished.now }
    ensures balanced { Balanced result }
    ensures small { Small terms.now delivered.now unfinished.now }
{
    sums_are_small(*terms, *delivered, *unfinished);
    let difference = match failed {
        Failed::Seller => unfinished.seller_difference(terms.price),
        Failed::Buyer => unfinished.buyer_difference(terms.price),
        Failed::Nobody | Failed::Both => 0,
    };
    let sums = Sums {
        cost: delivered.cost(terms.price),
        difference,
        performance: performance(unfinished.lots, terms.price, terms.ratio),
        share: terms.passed_on(unfinished.lots),
    };
    // each case has payments of its own, so that a match says it most plainly
    match failed {
        Failed::Nobody => sums.done(),
        Failed::Seller => sums.failed_seller(),
        Failed::Buyer => sums.failed_buyer(),
        Failed::Both => sums.failed_both(),
    }
}

// How large the amounts of a settlement can be. It takes the values themselves, since of lent ones the ranges are not known.
fn sums_are_small(terms: Terms, delivered: Delivered, unfinished: Unfinished)
    ensures { Small terms delivered unfinished }
{}

// What the sides of a leg may come to owe, in fen.
#[derive(Clone, Copy)]
struct Sums {
    cost: u64,
    difference: u64,
    performance: u64,
    share: u64,
    ghost cost_fits: { cost ≤ 10 ^ 16 },
    ghost difference_fits: { difference ≤ 10 ^ 16 },
    ghost performance_fits: { performance ≤ 10 ^ 16 },
    ghost share_within: { share ≤ performance },
}

impl Sums {
    // All delivered and paid.
    fn done(self) -> Settlement
        ensures amounts { result ≡ all_done self.cost }
        ensures balanced { Balanced result }
    {
        Settlement {
            cost: self.cost,
            difference: 0,
            share: 0,
            seller: side(0, 0, self.cost),
            buyer: side(0, self.cost, 0),
            kept: 0,
        }
    }

    // The seller failed.
    fn failed_seller(self) -> Settlement
        ensures amounts { result ≡ seller_failed self.cost self.difference self.performance self.share }
        ensures balanced { Balanced result }
    {
        let Sums {
            cost,
            difference,
            performance: sum,
            share,
        } = self;
        Settlement {
            cost,
            difference,
            share,
            seller: side(sum, difference + sum, cost),
            buyer: side(0, cost, difference + share),
            kept: sum - share,
        }
    }

    // The buyer failed.
    fn failed_buyer(self) -> Settlement
        ensures amounts { result ≡ buyer_failed self.cost self.difference self.performance self.share }
        ensures balanced { Balanced result }
    {
        let Sums {
            cost,
            difference,
            performance: sum,
            share,
        } = self;
        Settlement {
            cost,
            difference,
            share,
            seller: side(0, 0, cost + difference + share),
            buyer: side(sum, cost + difference + sum, 0),
            kept: sum - share,
        }
    }

    // Both failed.
    fn failed_both(self) -> Settlement
        ensures amounts { result ≡ both_failed self.cost self.performance }
        ensures balanced { Balanced result }
    {
        let sum = self.performance;
        Settlement {
            cost: self.cost,
            difference: 0,
            share: 0,
            seller: side(sum, sum, self.cost),
            buyer: side(sum, self.cost + sum, 0),
            kept: sum + sum,
        }
    }
}

// A side's payments; eight literals would be no plainer.
fn side(performance: u64, pays: u64, receives: u64) -> Payments
    ensures { result ≡ payments performance pays receives }
{
    Payments {
        performance,
        pays,
        receives,
    }
}
