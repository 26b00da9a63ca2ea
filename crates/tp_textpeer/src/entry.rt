//! The changes of a log, one after another, from a reader.

ghost use Rattle.std.specs.Prelude.{◌≡◌, ◌⊎◌, ◌<◌, ◌≤◌, IfOk, IfErr, IfNone, IfSome, length};
ghost use Rattle.std.specs.Int.{w32, from_be_bytes, to_be_bytes};
ghost use Rattle.std.specs.Io.KnownBytes.{Consumes};
ghost use Rattle.tp_layout.specs.declared.limits.TheConstants.{MAX_BYTES};
ghost use Rattle.tp_layout.specs.Limits.{IsChange};
ghost use Rattle.tp_layout.specs.Spelling.{spelling, framed_change};
ghost use Rattle.tp_textpeer.specs.ShowFault.{IsOutsideFault};
ghost use Rattle.tp_textpeer.specs.Log.{FindsEnd, sized_entry_at, StartsBadly, ReadsLength};

use crate::error::ShowFault;
use crate::input::read_up_to;
use std::alloc::Global;
use std::io::Read;
use tp_change::{Change, ChangeError, MAX_BYTES};

// The number that four bytes spell.
fn number_in(bytes: &[u8]) -> u32
    requires { length bytes.now ≡ 4 }
    ensures number { result ≡ from_be_bytes w32 bytes.now }
    ensures bytes { to_be_bytes w32 result ≡ bytes.now }
{
    u32::from_be_bytes([bytes[0], bytes[1], bytes[2], bytes[3]])
}

// The length of the next change, where there is one.
fn next_len<R: Read>(reader: &mut R, buffer: &mut Vec<u8>) -> Result<Option<usize>, ShowFault>
    ensures end { IfOk result
        (λ found. IfNone found (FindsEnd (R.remaining reader.old) (R.remaining reader.new))) }
    ensures some { IfOk result
        (λ found. IfSome found (λ n. ReadsLength (R.remaining reader.old)
        (R.remaining reader.new) n)) }
    ensures err { IfErr result (λ f. IsOutsideFault f ⊎ StartsBadly (R.remaining reader.old) f) }
{
    read_up_to(reader, buffer, 4)?;
    if buffer.is_empty() {
        return Ok(None);
    }
    if buffer.len() < 4 {
        return Err(ShowFault::Change(ChangeError::Short));
    }
    let len = number_in(buffer.as_slice()) as usize;
    if len == 0 {
        return Err(ShowFault::Change(ChangeError::Short));
    }
    if len > MAX_BYTES {
        return Err(ShowFault::Change(ChangeError::Limit));
    }
    Ok(Some(len))
}

// The change of `len` bytes that the reader gives next.
fn sized_change<R: Read>(
    alloc: Global,
    reader: &mut R,
    buffer: &mut Vec<u8>,
    len: usize,
) -> Result<Change, ShowFault>
    requires some { 0 < len }
    requires few { len ≤ MAX_BYTES }
    ensures change { IfOk result (λ c. IsChange c × (length (spelling c) ≡ len)) }
    ensures bytes { IfOk result
        (λ c. Consumes (R.remaining reader.old) (R.remaining reader.new) (spelling c)) }
    ensures err { IfErr result
        (λ f. IsOutsideFault f ⊎ IfSome (R.remaining reader.old)
        (λ rest. sized_entry_at len rest ≡ Err f)) }
{
    read_up_to(reader, buffer, len)?;
    if buffer.len() < len {
        return Err(ShowFault::Change(ChangeError::Short));
    }
    match Change::decode(alloc, buffer.as_slice()) {
        Ok(change) => Ok(change),
        Err(ChangeError::OutOfMemory) => Err(ShowFault::OutOfMemory),
        Err(e) => Err(ShowFault::Change(e)),
    }
}

/// The next change of a log, or `None` at its end. The buffer is used again from change to change.
pub(crate) fn next_change<R: Read>(
    alloc: Global,
    reader: &mut R,
    buffer: &mut Vec<u8>,
) -> Result<Option<Change>, ShowFault>
    ensures end { IfOk result
        (λ found. IfNone found (FindsEnd (R.remaining reader.old) (R.remaining reader.new))) }
    ensures some { IfOk result
        (λ found. IfSome found (λ c. IsChange c
        × Consumes (R.remaining reader.old) (R.remaining reader.new) (framed_change c))) }
    ensures err { IfErr result (λ f. IsOutsideFault f ⊎ StartsBadly (R.remaining reader.old) f) }
{
    match next_len(reader, buffer)? {
        None => Ok(None),
        Some(len) => match sized_change(alloc, reader, buffer, len) {
            Ok(change) => Ok(Some(change)),
            Err(fault) => Err(fault),
        },
    }
}
