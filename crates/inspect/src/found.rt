// What stands in a file: a record, or what is wrong with it.
ghost use Rattle.std.specs.Prelude.{◌≡◌};
ghost use Rattle.inspect.specs.declared.found.Fault.TheVariants as by;

use std::fmt;
use terms::calls::Call;
use terms::refusals::Refusal;
use terms::rows::Row;

#[derive(Clone, Copy, Debug, PartialEq, Eq)]
pub(crate) enum Record {
    Call(Call),
    Row(Row),
}

impl fmt::Display for Record {
    fn fmt<W: fmt::Write>(&self, f: &mut fmt::Formatter<W>) -> fmt::Result {
        match self {
            Record::Call(call) => write!(f, "{call}"),
            Record::Row(row) => write!(f, "{row}"),
        }
    }
}

#[derive(Clone, Copy, Debug, PartialEq, Eq)]
pub(crate) enum Fault {
    // 64 bytes that are neither a call nor a row
    Refused(Refusal),
    // fewer than 64 bytes at the end
    Cut(usize),
}

// By hand, since each case shows a number that a derive would have to compute.
impl fmt::Display for Fault {
    fn fmt<W: fmt::Write>(&self, f: &mut fmt::Formatter<W>) -> fmt::Result {
        match *self {
            Fault::Refused(refusal) => write!(f, "no record, {}: {refusal}", u32::from(refusal)),
            Fault::Cut(n) => {
                let refusal = Refusal::WrongLength;
                write!(
                    f,
                    "cut off after {n} bytes, {}: {refusal}",
                    u32::from(refusal)
                )
            }
        }
    }
}

impl From<Refusal> for Fault {
    ghost from_gives = { λ refusal fault. fault ≡ by.Refused refusal };

    fn from(refusal: Refusal) -> Fault {
        Fault::Refused(refusal)
    }
}
