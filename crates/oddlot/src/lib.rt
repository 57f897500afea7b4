// Odd-lot rules: how a number of lots is shared among accounts in proportion to their lots.
#![tactic(auto)]

mod checks;
pub mod facts;
pub mod house;
pub mod priorities;
mod ranking;
pub mod rules;
pub mod running;
mod shares;
