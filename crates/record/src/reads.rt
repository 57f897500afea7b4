// Taking a record apart.
ghost use Rattle.std.specs.Prelude.{◌≡◌, ◌+◌, ◌≤◌, ◌∷◌, length, if◌then◌else◌, Some, None, nat_eq};
ghost use Rattle.record.specs.Bytes.{part};
ghost use Rattle.record.specs.Fields.{entry_at, fields};

use crate::bytes::{number16, number32};
use crate::fields::Fields;
use std::array;
use terms::calls::{BondCode, BondLots};

// The bytes that stand from a place on.
fn array_at<const N: usize>(rest: &[u8; 62], at: usize) -> [u8; N]
    requires { at + N ≤ 62 }
    ensures { result ≡ part at N rest.now }
{
    rest[at..at + N].try_into().unwrap()
}

// The bond entry that stands from a place on.
fn entry_from(rest: &[u8; 62], at: usize) -> BondLots
    requires { at + 12 ≤ 62 }
    ensures { result ≡ entry_at at rest.now }
{
    BondLots {
        bond: BondCode {
            bytes: array_at(rest, at),
        },
        lots: number32(array_at(rest, at + 8)),
    }
}

// The fields of a record whose letter and mark are taken off.
fn fields_after(letter: u8, mark: u8, rest: &[u8; 62]) -> Fields
    ensures { result ≡ fields (letter ∷ mark ∷ rest.now) }
{
    Fields {
        letter,
        mark,
        minute: number16(array_at(rest, 0)),
        account: number32(array_at(rest, 2)),
        lots: number32(array_at(rest, 6)),
        second: number32(array_at(rest, 10)),
        entries: array::from_fn(|i| entry_from(rest, 14 + 12 * i)),
    }
}

// The fields of a record, or nothing if it does not have 64 bytes.
#[tactic(auto, using(crate::proofs::Parts::rest_taken))]
pub(crate) fn fields_of(bytes: &[u8]) -> Option<Fields>
    ensures { result ≡ (if nat_eq (length bytes.now) 64 then Some (fields bytes.now) else None) }
{
    let [letter, mark, rest @ ..] = bytes else {
        return None;
    };
    let Ok(rest) = rest.try_into() else {
        return None;
    };
    Some(fields_after(*letter, *mark, rest))
}
