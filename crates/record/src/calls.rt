// Calls as records.
ghost use Rattle.std.specs.Prelude.{◌≡◌, IfSome, IfOk, Some};
ghost use Rattle.terms.specs.Answers.{answered, granted};
ghost use Rattle.record.specs.Calls.{call_layout, call_letter, call_from, call_fields, call_bytes, read_call};
ghost use Rattle.record.specs.Layouts.{field_values, letter_or_refusal, no_entries};

use crate::fields::Fields;
use crate::layouts::{Letter, read_by};
use crate::letters::CallLetter;
use crate::tables::Layout;
use crate::writes::record_of;
use terms::calls::{Account, Call};
use terms::refusals::Refusal;

// No derive reads an enum from its numbers.
impl TryFrom<u8> for CallLetter {
    type Error = Refusal;

    ghost try_from_gives = { λ b r. r ≡ letter_or_refusal (call_letter b) };

    fn try_from(b: u8) -> Result<CallLetter, Refusal> {
        match b {
            b'T' => Ok(CallLetter::Trade),
            b'B' => Ok(CallLetter::DeclarePurchase),
            b'S' => Ok(CallLetter::DeclareSale),
            b'W' => Ok(CallLetter::Withdraw),
            b'O' => Ok(CallLetter::OpenTrial),
            b'K' => Ok(CallLetter::KeepTrial),
            b'X' => Ok(CallLetter::DropTrial),
            b'R' => Ok(CallLetter::Draw),
            b'N' => Ok(CallLetter::NextDay),
            b'E' => Ok(CallLetter::LegResult),
            _ => Err(Refusal::UnknownLetter),
        }
    }
}

impl Letter for CallLetter {
    ghost named = { call_letter };

    ghost laid = { call_layout };

    fn layout(&self) -> Layout {
        let declared = Layout {
            minute: true,
            account: true,
            lots: true,
            ..Layout::default()
        };
        match self {
            CallLetter::Trade => Layout {
                account: true,
                lots: true,
                second: true,
                ..Layout::default()
            },
            CallLetter::DeclarePurchase => declared,
            CallLetter::DeclareSale => Layout {
                entries: 4,
                ..declared
            },
            CallLetter::Withdraw => Layout {
                lots: false,
                ..declared
            },
            CallLetter::LegResult => Layout {
                mark: true,
                lots: true,
                second: true,
                ..Layout::default()
            },
            CallLetter::OpenTrial
            | CallLetter::KeepTrial
            | CallLetter::DropTrial
            | CallLetter::Draw
            | CallLetter::NextDay => Layout::default(),
        }
    }

    ghost reads_named = { λ b r h. h };
}

impl CallLetter {
    // The call of a record with this letter.
    pub(crate) fn call(self, f: &Fields) -> Call
        ensures { result ≡ call_from self f.now }
    {
        match self {
            CallLetter::Trade => Call::Trade {
                buyer: f.account,
                seller: f.second,
                lots: f.lots,
            },
            CallLetter::DeclarePurchase => Call::DeclarePurchase {
                minute: f.minute,
                account: f.account,
                lots: f.lots,
            },
            CallLetter::DeclareSale => Call::DeclareSale {
                minute: f.minute,
                account: f.account,
                lots: f.lots,
                bonds: f.entries,
            },
            CallLetter::Withdraw => Call::Withdraw {
                minute: f.minute,
                account: f.account,
            },
            CallLetter::OpenTrial => Call::OpenTrial,
            CallLetter::KeepTrial => Call::KeepTrial,
            CallLetter::DropTrial => Call::DropTrial,
            CallLetter::Draw => Call::Draw,
            CallLetter::NextDay => Call::NextDay,
            CallLetter::LegResult => Call::LegResult {
                leg: f.second,
                mark: f.mark,
                unfinished: f.lots,
            },
        }
    }
}

// The fields of the record of a declaration without entries, or of a withdrawal. A literal for each call would be no plainer than this and the next.
fn declared(letter: u8, minute: u16, account: Account, lots: u32) -> Fields
    ensures { result ≡ field_values letter 0 minute account lots 0 no_entries }
{
    Fields {
        minute,
        account,
        lots,
        ..Fields::lettered(letter)
    }
}

// The fields of the record of a trade or a result: a mark, and three numbers.
fn numbered(letter: u8, mark: u8, account: Account, lots: u32, second: u32) -> Fields
    ensures { result ≡ field_values letter mark 0 account lots second no_entries }
{
    Fields {
        mark,
        account,
        lots,
        second,
        ..Fields::lettered(letter)
    }
}

// The fields of a call's record; a preview has none.
fn call_fields(call: &Call) -> Option<Fields>
    ensures { result ≡ call_fields call.now }
{
    Some(match *call {
        Call::Trade {
            buyer,
            seller,
            lots,
        } => numbered(CallLetter::Trade as u8, 0, buyer, lots, seller),
        Call::DeclarePurchase {
            minute,
            account,
            lots,
        } => declared(CallLetter::DeclarePurchase as u8, minute, account, lots),
        Call::DeclareSale {
            minute,
            account,
            lots,
            bonds,
        } => Fields {
            entries: bonds,
            ..declared(CallLetter::DeclareSale as u8, minute, account, lots)
        },
        Call::Withdraw { minute, account } => {
            declared(CallLetter::Withdraw as u8, minute, account, 0)
        }
        Call::OpenTrial => Fields::lettered(CallLetter::OpenTrial as u8),
        Call::KeepTrial => Fields::lettered(CallLetter::KeepTrial as u8),
        Call::DropTrial => Fields::lettered(CallLetter::DropTrial as u8),
        Call::Draw => Fields::lettered(CallLetter::Draw as u8),
        Call::NextDay => Fields::lettered(CallLetter::NextDay as u8),
        Call::LegResult {
            leg,
            mark,
            unfinished,
        } => numbered(CallLetter::LegResult as u8, mark, 0, unfinished, leg),
        Call::Preview { .. } => return None,
    })
}

// The call that bytes are: 1 if there are not 64 of them, 2 if the letter is no call's, 3 if a field that it does not name is not zero. Bytes
// that are a call are those that it is written as.
pub fn read_call(bytes: &[u8]) -> Result<Call, Refusal>
    ensures answer { answered result ≡ read_call bytes.now }
    ensures only { IfOk result (λ c. call_bytes c ≡ Some bytes.now) }
{
    let (letter, fields) = read_by::<CallLetter>(bytes)?;
    Ok(letter.call(&fields))
}

// The record of a call, which reads back as that call; a preview has none.
pub fn write_call(call: &Call) -> Option<[u8; 64]>
    ensures bytes { result ≡ call_bytes call.now }
    ensures back { IfSome result (λ bytes. read_call bytes ≡ granted call.now) }
{
    Some(record_of(&call_fields(call)?))
}
