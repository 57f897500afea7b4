// Which fields a letter names, and the checks that calls and rows share.
ghost use Rattle.std.specs.Prelude.{◌≡◌, ℕ, not, drop, IfOk, Option, Result};
ghost use Rattle.std.specs.List.{list_all};
ghost use Rattle.terms.specs.Answers.{answered};
ghost use Rattle.terms.specs.Codes.{used};
ghost use Rattle.record.specs.Fields.{laid_out};
ghost use Rattle.record.specs.Layouts.{letter_or_refusal, reading, unnamed_zero, zero_unless};
ghost use Rattle.terms.specs.declared.refusals.Refusal.{Refusal};
ghost use Rattle.record.specs.declared.tables.Layout.{Layout};

use crate::fields::Fields;
use crate::reads::fields_of;
use crate::tables::Layout;
use terms::calls::BondLots;
use terms::refusals::Refusal;

// Whether no entry from a place on is used.
fn unused_from(entries: &[BondLots; 4], from: usize) -> bool
    ensures { result ≡ list_all (λ e. not (used e)) (drop from entries.now) }
{
    // by place up to a fixed end, which the compiler lays out as four tests; after `skip` it keeps a loop
    (from..4).all(|i| !entries[i].is_used())
}

// Whether a field is zero, unless it is named.
fn zero_unless(named: bool, n: u32) -> bool
    ensures { result ≡ zero_unless named n }
{
    named || n == 0
}

impl Layout {
    // Whether every field that is not named is zero.
    pub(crate) fn is_kept(&self, f: &Fields) -> bool
        ensures { result ≡ unnamed_zero self.now f.now }
    {
        zero_unless(self.mark, u32::from(f.mark))
            && zero_unless(self.minute, u32::from(f.minute))
            && zero_unless(self.account, f.account)
            && zero_unless(self.lots, f.lots)
            && zero_unless(self.second, f.second)
            && unused_from(&f.entries, self.entries)
    }
}

// The letters of a kind of record, each with its layout.
pub(crate) trait Letter: TryFrom<u8, Error = Refusal> {
    ghost named: { ℕ → Option Self };

    ghost laid: { Self → Layout };

    fn layout(&self) -> Layout
        ensures { result ≡ laid self.now };

    // A byte is read as the letter that it names.
    ghost reads_named: { (b : ℕ) (r : Result Self Refusal) → Self.try_from_gives b r → r ≡ letter_or_refusal (named b) };
}

// The letter and the fields of a record: 1, 2 or 3 where it is none of the kind. The fields tell all of the bytes.
pub(crate) fn read_by<L: Letter + Drop>(bytes: &[u8]) -> Result<(L, Fields), Refusal>
    ensures answer { answered result ≡ reading L.named L.laid bytes.now }
    ensures back { IfOk result (λ p. laid_out p.1 ≡ bytes.now) }
{
    let fields = fields_of(bytes).ok_or(Refusal::WrongLength)?;
    let letter = L::try_from(fields.letter)?;
    if !letter.layout().is_kept(&fields) {
        return Err(Refusal::BadField);
    }
    Ok((letter, fields))
}
