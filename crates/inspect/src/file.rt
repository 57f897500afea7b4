// The records of a file, one behind the other.
ghost use Rattle.std.specs.Prelude.{◌≡◌, take, drop, IfOk};
ghost use Rattle.inspect.specs.File.{told, tells, FileTold};

use crate::found::{Fault, Record};
use record::calls::read_call;
use record::rows::read_row;
use std::alloc::{AllocError, Global};
use terms::refusals::Refusal;

// What 64 bytes are; fewer are a cut record.
fn found(bytes: &[u8]) -> Result<Record, Fault>
    ensures { told result ≡ tells bytes.now }
{
    if bytes.len() != 64 {
        return Err(Fault::Cut(bytes.len()));
    }
    match read_call(bytes) {
        Err(Refusal::UnknownLetter) => Ok(Record::Row(read_row(bytes)?)),
        Ok(call) => Ok(Record::Call(call)),
        Err(refusal) => Err(refusal.into()),
    }
}

// The first record of what is left of a file, and the part that starts at the next one.
fn first(rest: &[u8]) -> (Result<Record, Fault>, &[u8])
    ensures found { told result.0 ≡ tells (take 64 rest.now) }
    ensures next { result.1.now ≡ drop 64 rest.now }
{
    match rest.split_at_checked(64) {
        Some((record, behind)) => (found(record), behind),
        None => (found(rest), &[]),
    }
}

// All records of a file.
pub(crate) fn records(heap: Global, bytes: &[u8]) -> Result<Vec<Result<Record, Fault>>, AllocError>
    ensures { IfOk result (λ v. FileTold bytes.now v.items) }
{
    let mut all = Vec::new(heap);
    let mut rest = bytes;
    // not by chunks: the rest that is handed on begins at the next record
    while !rest.is_empty() {
        let (found, behind) = first(rest);
        all.push(found)?;
        rest = behind;
    }
    Ok(all)
}
