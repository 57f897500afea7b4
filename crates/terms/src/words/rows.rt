// Rows in words.
use crate::refusals::Refusal;
use crate::rows::{Class, Row};
use std::fmt;
use std::fmt::Write;

impl fmt::Display for Class {
    fn fmt<W: fmt::Write>(&self, f: &mut fmt::Formatter<W>) -> fmt::Result {
        f.write_str(match self {
            Class::Declared => "declared",
            Class::Undeclared => "undeclared",
            Class::Virtual => "virtual",
        })
    }
}

// A refused call: the number, and what it means if it is a refusal's.
fn write_refused<W: fmt::Write>(f: &mut fmt::Formatter<W>, number: u32) -> fmt::Result {
    match Refusal::try_from(number) {
        Ok(refusal) => write!(f, "refused with {number}: {refusal}"),
        Err(unknown) => write!(f, "refused with {number}: {unknown}"),
    }
}

impl fmt::Display for Row {
    fn fmt<W: fmt::Write>(&self, f: &mut fmt::Formatter<W>) -> fmt::Result {
        match *self {
            Row::ClassLots {
                class,
                account,
                day,
                lots,
            } => write!(f, "{class} lots, account {account}, day {day}, lots {lots}"),
            Row::Leg {
                seller,
                buyer,
                lots,
                bond: Some(code),
            } => write!(
                f,
                "leg, seller {seller}, buyer {buyer}, lots {lots}, bond {code}"
            ),
            Row::Leg {
                seller,
                buyer,
                lots,
                bond: None,
            } => write!(
                f,
                "failure leg, seller {seller}, buyer {buyer}, lots {lots}"
            ),
            Row::Refused { number } => write_refused(f, number),
        }
    }
}
