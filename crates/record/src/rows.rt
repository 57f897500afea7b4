// Rows as records.
ghost use Rattle.std.specs.Prelude.{◌≡◌, IfOk, if◌then◌else◌, nat_eq};
ghost use Rattle.terms.specs.Answers.{answered, granted, refused};
ghost use Rattle.record.specs.Rows.{row_layout, row_letter, class_letter, class_row, leg_from, row_with, leg_entries, row_fields, row_bytes, row_lots, read_row};
ghost use Rattle.record.specs.Layouts.{letter_or_refusal};

use crate::fields::Fields;
use crate::layouts::{Letter, read_by};
use crate::letters::RowLetter;
use crate::tables::Layout;
use crate::writes::record_of;
use terms::calls::{BondCode, BondLots};
use terms::refusals::Refusal;
use terms::rows::{Class, Row};

// No derive reads an enum from its numbers.
impl TryFrom<u8> for RowLetter {
    type Error = Refusal;

    ghost try_from_gives = { λ b r. r ≡ letter_or_refusal (row_letter b) };

    fn try_from(b: u8) -> Result<RowLetter, Refusal> {
        match b {
            b'D' => Ok(RowLetter::Declared),
            b'U' => Ok(RowLetter::Undeclared),
            b'V' => Ok(RowLetter::Virtual),
            b'L' => Ok(RowLetter::Leg),
            b'Z' => Ok(RowLetter::Refused),
            _ => Err(Refusal::UnknownLetter),
        }
    }
}

impl From<Class> for RowLetter {
    ghost from_gives = { λ class letter. letter ≡ class_letter class };

    fn from(class: Class) -> RowLetter {
        match class {
            Class::Declared => RowLetter::Declared,
            Class::Undeclared => RowLetter::Undeclared,
            Class::Virtual => RowLetter::Virtual,
        }
    }
}

impl Letter for RowLetter {
    ghost named = { row_letter };

    ghost laid = { row_layout };

    fn layout(&self) -> Layout {
        let lots_alone = Layout {
            lots: true,
            ..Layout::default()
        };
        let two_numbers = Layout {
            account: true,
            second: true,
            ..lots_alone
        };
        match self {
            RowLetter::Declared | RowLetter::Undeclared | RowLetter::Virtual => two_numbers,
            RowLetter::Leg => Layout {
                entries: 1,
                ..two_numbers
            },
            RowLetter::Refused => lots_alone,
        }
    }

    ghost reads_named = { λ b r h. h };
}

// The row of lots of a class.
fn class_lots(class: Class, f: &Fields) -> Row
    ensures { result ≡ class_row class f.now }
{
    Row::ClassLots {
        class,
        account: f.account,
        day: f.second,
        lots: f.lots,
    }
}

// The leg of a record; its bond, if it has one, stands with the leg's lots in entry one.
fn leg(f: &Fields) -> Result<Row, Refusal>
    ensures { answered result ≡ leg_from f.now }
{
    let entry = f.entries[0];
    if entry.is_used() && entry.lots != f.lots {
        return Err(Refusal::BadField);
    }
    Ok(Row::Leg {
        seller: f.account,
        buyer: f.second,
        lots: f.lots,
        bond: entry.is_used().then_some(entry.bond),
    })
}

impl RowLetter {
    // The row of a record with this letter, which has lots.
    pub(crate) fn row(self, f: &Fields) -> Result<Row, Refusal>
        ensures { answered result ≡ row_with self f.now }
    {
        if f.lots == 0 {
            return Err(Refusal::BadField);
        }
        match self {
            RowLetter::Declared => Ok(class_lots(Class::Declared, f)),
            RowLetter::Undeclared => Ok(class_lots(Class::Undeclared, f)),
            RowLetter::Virtual => Ok(class_lots(Class::Virtual, f)),
            RowLetter::Leg => leg(f),
            RowLetter::Refused => Ok(Row::Refused { number: f.lots }),
        }
    }
}

// The entries of a leg's record.
#[tactic(auto, using(crate::proofs::Blank::blank_entries))]
fn leg_entries(lots: u32, bond: Option<BondCode>) -> [BondLots; 4]
    ensures { result ≡ leg_entries lots bond }
{
    let mut entries = <[BondLots; 4]>::default();
    if let Some(bond) = bond {
        entries[0] = BondLots { bond, lots };
    }
    entries
}

// The fields of a row's record.
fn row_fields(row: &Row) -> Fields
    ensures { result ≡ row_fields row.now }
{
    match *row {
        Row::ClassLots {
            class,
            account,
            day,
            lots,
        } => Fields {
            account,
            lots,
            second: day,
            ..Fields::lettered(RowLetter::from(class) as u8)
        },
        Row::Leg {
            seller,
            buyer,
            lots,
            bond,
        } => Fields {
            account: seller,
            lots,
            second: buyer,
            entries: leg_entries(lots, bond),
            ..Fields::lettered(RowLetter::Leg as u8)
        },
        Row::Refused { number } => Fields {
            lots: number,
            ..Fields::lettered(RowLetter::Refused as u8)
        },
    }
}

// The row that bytes are: 1 if there are not 64 of them, 2 if the letter is no row's, 3 if a field that it does not name is not zero, if there
// are no lots, or if entry one of a leg is used and has other lots. Bytes that are a row are those that it is written as.
pub fn read_row(bytes: &[u8]) -> Result<Row, Refusal>
    ensures answer { answered result ≡ read_row bytes.now }
    ensures only { IfOk result (λ row. row_bytes row ≡ bytes.now) }
{
    let (letter, fields) = read_by::<RowLetter>(bytes)?;
    letter.row(&fields)
}

// The record of a row. It reads back as that row, unless the row has no lots: then it is none.
pub fn write_row(row: &Row) -> [u8; 64]
    ensures bytes { result ≡ row_bytes row.now }
    ensures back { read_row result ≡ (if nat_eq (row_lots row.now) 0 then refused 3 else granted row.now) }
{
    record_of(&row_fields(row))
}
