// The position rows of an opening.
use crate::calls::Account;

#[derive(Clone, Copy, Debug, PartialEq, Eq)]
pub enum Side {
    Long,
    Short,
}

// Lots of an account on one side, as hosts lend it: a short row has day 0, which the opening is to check.
#[derive(Clone, Copy, Debug, PartialEq, Eq)]
pub struct Holding {
    pub account: Account,
    pub day: u32,
    pub side: Side,
    pub lots: u32,
}
