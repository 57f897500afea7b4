// The rows that a round or a refused call writes.
use crate::calls::{Account, BondCode};

// The class of a long lot in a round.
#[derive(Clone, Copy, Debug, PartialEq, Eq)]
pub enum Class {
    // one of the lots that a buyer's declaration covers
    Declared,
    // any other long lot, on a day before the last trading day
    Undeclared,
    // any other long lot, on the last trading day
    Virtual,
}

#[derive(Clone, Copy, Debug, PartialEq, Eq)]
pub enum Row {
    // lots of an account, class and day of purchase; in a draw, those selected
    ClassLots {
        class: Class,
        account: Account,
        day: u32,
        lots: u32,
    },
    // a part of a pair, to be delivered in one bond; a failure leg has none
    Leg {
        seller: Account,
        buyer: Account,
        lots: u32,
        bond: Option<BondCode>,
    },
    // a call was refused with this number; one that no refusal has reads back too
    Refused {
        number: u32,
    },
}
