// Ordered registers: the place of a key in a list of rising keys.
#![tactic(auto)]

pub mod codes;
pub mod keys;
pub mod registers;
