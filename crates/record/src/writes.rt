// Putting a record together.
ghost use Rattle.std.specs.Prelude.{◌≡◌};
ghost use Rattle.record.specs.Fields.{entry_bytes, fields, head_bytes, laid_out};
ghost use Rattle.record.specs.Widths.{EntryFits, HeadFits};

use crate::fields::Fields;
use terms::calls::BondLots;

// The bytes of a bond entry.
#[tactic(auto, using(crate::proofs::Numbers::bytes_4, crate::proofs::Numbers::rest_put))]
fn entry_bytes(entry: BondLots) -> [u8; 12]
    ensures bytes { result ≡ entry_bytes entry }
    ensures fits { EntryFits entry }
{
    let BondLots { bond, lots } = entry;
    let mut out = [0; 12];
    out[..8].copy_from_slice(&bond.bytes);
    out[8..].copy_from_slice(&lots.to_le_bytes());
    out
}

// What stands before the entries.
#[tactic(auto, using(crate::proofs::Numbers::bytes_4))]
fn head_bytes(f: &Fields) -> [u8; 16]
    ensures bytes { result ≡ head_bytes f.now }
    ensures fits { HeadFits f.now }
{
    let Fields {
        letter,
        mark,
        minute,
        account,
        lots,
        second,
        ..
    } = *f;
    let mut out = [0; 16];
    out[0] = letter;
    out[1] = mark;
    out[2..4].copy_from_slice(&minute.to_le_bytes());
    out[4..8].copy_from_slice(&account.to_le_bytes());
    out[8..12].copy_from_slice(&lots.to_le_bytes());
    out[12..].copy_from_slice(&second.to_le_bytes());
    out
}

// The record of fields.
pub(crate) fn record_of(f: &Fields) -> [u8; 64]
    ensures bytes { result ≡ laid_out f.now }
    ensures back { fields result ≡ f.now }
{
    let entries = f.entries.map(entry_bytes);
    let mut out = [0; 64];
    out[..16].copy_from_slice(&head_bytes(f));
    out[16..].copy_from_slice(entries.as_flattened());
    out
}
