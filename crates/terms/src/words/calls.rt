// Calls in words.
use crate::calls::{Account, BondCode, BondLots, Call};
use std::fmt;
use std::fmt::Write;

// Text where every byte is a visible ASCII character, else hex.
impl fmt::Display for BondCode {
    fn fmt<W: fmt::Write>(&self, f: &mut fmt::Formatter<W>) -> fmt::Result {
        if self.is_visible() {
            for b in self.bytes {
                f.write_char(char::from(b))?;
            }
            return Ok(());
        }
        f.write_str("0x")?;
        for b in self.bytes {
            write!(f, "{b:02x}")?;
        }
        Ok(())
    }
}

// A dash for an unused entry.
impl fmt::Display for BondLots {
    fn fmt<W: fmt::Write>(&self, f: &mut fmt::Formatter<W>) -> fmt::Result {
        if !self.is_used() {
            return f.write_str("-");
        }
        write!(f, "{} {}", self.bond, self.lots)
    }
}

// What both declarations tell. Their fields stand apart, as in the calls, of which the law speaks.
fn write_declaration<W: fmt::Write>(
    f: &mut fmt::Formatter<W>,
    side: &str,
    minute: u16,
    account: Account,
    lots: u32,
) -> fmt::Result {
    write!(
        f,
        "{side} declaration, minute {minute}, account {account}, lots {lots}"
    )
}

// A sale declaration, with its four entries.
fn write_sale<W: fmt::Write>(
    f: &mut fmt::Formatter<W>,
    minute: u16,
    account: Account,
    lots: u32,
    bonds: &[BondLots; 4],
) -> fmt::Result {
    let [a, b, c, d] = bonds;
    write_declaration(f, "sale", minute, account, lots)?;
    write!(f, ", bonds {a}, {b}, {c}, {d}")
}

impl fmt::Display for Call {
    fn fmt<W: fmt::Write>(&self, f: &mut fmt::Formatter<W>) -> fmt::Result {
        match *self {
            Call::Trade {
                buyer,
                seller,
                lots,
            } => write!(f, "trade, buyer {buyer}, seller {seller}, lots {lots}"),
            Call::DeclarePurchase {
                minute,
                account,
                lots,
            } => write_declaration(f, "purchase", minute, account, lots),
            Call::DeclareSale {
                minute,
                account,
                lots,
                bonds,
            } => write_sale(f, minute, account, lots, &bonds),
            Call::Withdraw { minute, account } => write!(
                f,
                "withdrawal, minute {minute}, account {account}"
            ),
            Call::OpenTrial => f.write_str("trial opened"),
            Call::KeepTrial => f.write_str("trial kept"),
            Call::DropTrial => f.write_str("trial dropped"),
            Call::Preview { day } => write!(f, "preview, day {day}"),
            Call::Draw => f.write_str("draw"),
            Call::LegResult {
                leg,
                mark,
                unfinished,
            } => write!(
                f,
                "result, leg {leg}, mark {mark}, unfinished lots {unfinished}"
            ),
            Call::NextDay => f.write_str("next day"),
        }
    }
}
