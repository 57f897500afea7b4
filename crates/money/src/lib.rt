// Money of a leg: interest, cost, differences, performance sums, and the settlement.
#![tactic(auto)]

pub mod amounts;
pub mod coupons;
pub mod facts;
pub mod periods;
pub mod ranges;
pub mod settlements;
