// The refusals: why a call was not carried out, each with its number and what it means.
ghost use Rattle.std.specs.Prelude.{◌≡◌};
ghost use Rattle.terms.specs.Refusals.{number, Numbered};

use thiserror::Error;

#[derive(Clone, Copy, Debug, PartialEq, Eq, Error)]
pub enum Refusal {
    #[error("a record has 64 bytes")]
    WrongLength = 1,
    #[error("the letter is not one that is read here")]
    UnknownLetter = 2,
    #[error("a field that the letter does not name is not zero, or a row has no lots, or a leg's bond has other lots")]
    BadField = 3,
    #[error("an odd-lot rule cannot share these lots, or the answer area has another length")]
    NotShareable = 8,
    #[error("64 closings are named already")]
    TooManyClosings = 9,
    #[error("the first, last or closing day is not as it has to be")]
    BadDays = 10,
    #[error("the accounts are too few, too many or not rising")]
    BadAccounts = 11,
    #[error("the bonds are too few, too many or not rising, or a bond's terms are out of range")]
    BadBonds = 12,
    #[error("a position row has no lots, is out of order, or gives no lawful position")]
    BadPositions = 13,
    #[error("the long and the short lots are not equally many")]
    UnequalTotals = 14,
    #[error("the account area or the leg area is too small")]
    AreaTooSmall = 15,
    #[error("an area is not the one that the month was opened with")]
    ForeignArea = 16,
    #[error("the last trading day is past, or today's round is drawn")]
    DayOver = 20,
    #[error("the month does not have the account")]
    UnknownAccount = 21,
    #[error("buyer and seller are one account")]
    SameAccount = 22,
    #[error("the lots are not 1 to 100,000")]
    LotsOutOfRange = 23,
    #[error("a side would pass 100,000 lots")]
    TooManyLots = 24,
    #[error("the buyer would have a 17th date of purchase")]
    TooManyDates = 25,
    #[error("the journal has too few free entries")]
    JournalFull = 26,
    #[error("the minute is outside the window")]
    OutsideWindow = 30,
    #[error("the bond entries are not as they have to be")]
    BadBondEntries = 31,
    #[error("the quantity is above the net lots of that side")]
    AboveNetLots = 32,
    #[error("the account has declared nothing")]
    NothingDeclared = 33,
    #[error("eight trials are open")]
    TooManyTrials = 40,
    #[error("no trial is open")]
    NoTrial = 41,
    #[error("a trial is open")]
    TrialOpen = 42,
    #[error("a leg lacks its result")]
    ResultMissing = 43,
    #[error("the row area is too small")]
    RowAreaTooSmall = 44,
    #[error("there is no such leg")]
    UnknownLeg = 45,
    #[error("today is not the delivery day of the leg")]
    NotDeliveryDay = 46,
    #[error("the leg has its result")]
    ResultGiven = 47,
    #[error("the mark or the unfinished lots are not as they have to be")]
    BadResult = 48,
    #[error("today's round is not drawn")]
    NotDrawn = 49,
    #[error("today is the closing day")]
    ClosingDay = 50,
    #[error("the day cannot be previewed")]
    BadPreviewDay = 51,
    #[error("the rows are not those of the round")]
    OtherRows = 60,
    #[error("a price, ratio or share is out of range, or the named bond is unknown")]
    BadPrices = 61,
    #[error("a leg has no result yet")]
    LegUnsettled = 63,
}

// A number that no refusal has.
#[derive(Clone, Copy, Debug, PartialEq, Eq, Error)]
#[error("no refusal has this number")]
pub struct UnknownNumber(pub u32);

// The number by which hosts know a refusal.
impl From<Refusal> for u32 {
    ghost from_gives = { λ refusal n. n ≡ number refusal };

    fn from(refusal: Refusal) -> u32 {
        refusal as u32
    }
}

// The refusal with a number, if there is one; no derive reads an enum from its numbers.
impl TryFrom<u32> for Refusal {
    type Error = UnknownNumber;

    ghost try_from_gives = { Numbered };

    fn try_from(n: u32) -> Result<Refusal, UnknownNumber> {
        let refusal = match n {
            1 => Refusal::WrongLength,
            2 => Refusal::UnknownLetter,
            3 => Refusal::BadField,
            8 => Refusal::NotShareable,
            9 => Refusal::TooManyClosings,
            10 => Refusal::BadDays,
            11 => Refusal::BadAccounts,
            12 => Refusal::BadBonds,
            13 => Refusal::BadPositions,
            14 => Refusal::UnequalTotals,
            15 => Refusal::AreaTooSmall,
            16 => Refusal::ForeignArea,
            20 => Refusal::DayOver,
            21 => Refusal::UnknownAccount,
            22 => Refusal::SameAccount,
            23 => Refusal::LotsOutOfRange,
            24 => Refusal::TooManyLots,
            25 => Refusal::TooManyDates,
            26 => Refusal::JournalFull,
            30 => Refusal::OutsideWindow,
            31 => Refusal::BadBondEntries,
            32 => Refusal::AboveNetLots,
            33 => Refusal::NothingDeclared,
            40 => Refusal::TooManyTrials,
            41 => Refusal::NoTrial,
            42 => Refusal::TrialOpen,
            43 => Refusal::ResultMissing,
            44 => Refusal::RowAreaTooSmall,
            45 => Refusal::UnknownLeg,
            46 => Refusal::NotDeliveryDay,
            47 => Refusal::ResultGiven,
            48 => Refusal::BadResult,
            49 => Refusal::NotDrawn,
            50 => Refusal::ClosingDay,
            51 => Refusal::BadPreviewDay,
            60 => Refusal::OtherRows,
            61 => Refusal::BadPrices,
            63 => Refusal::LegUnsettled,
            _ => return Err(UnknownNumber(n)),
        };
        Ok(refusal)
    }
}
