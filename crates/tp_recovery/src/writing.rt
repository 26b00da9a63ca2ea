//! The pieces of a journal, as bytes.

ghost use Rattle.std.specs.Prelude.{◌≡◌, ◌++◌, length, IfOk, IsOkUnless};
ghost use Rattle.std.specs.Int.{w32, to_be_bytes};
ghost use Rattle.tp_change.specs.ChangeHash.{hash_of};
ghost use Rattle.tp_layout.specs.Spelling.{spelling};
ghost use Rattle.tp_recovery.specs.Layout.{header_of, record_of};
ghost use Rattle.tp_store.specs.declared.error.StoreError.TheVariants.{OutOfMemory};

use crate::layout::{DIGEST_BYTES, HEADER_BYTES, MAGIC};
use std::alloc::{AllocError, Global};
use tp_change::{Change, ChangeError};
use tp_opid::DocId;
use tp_store::StoreError;

// The magic and the identifier.
fn header_bytes(alloc: Global, id: DocId) -> Result<Vec<u8>, AllocError>
    ensures { IfOk result (λ bytes. bytes.items ≡ header_of id) }
{
    let mut out = Vec::with_capacity(alloc, HEADER_BYTES)?;
    out.extend_from_slice(&MAGIC)?;
    out.extend_from_slice(&id.0)?;
    Ok(out)
}

/// What the journal of a document begins with: the magic and its identifier, 24 bytes. The only refusal is
/// `OutOfMemory`.
pub fn header(alloc: Global, id: DocId) -> Result<Vec<u8>, StoreError>
    ensures bytes { IfOk result (λ bytes. bytes.items ≡ header_of id) }
    ensures err { IsOkUnless result OutOfMemory }
{
    match header_bytes(alloc, id) {
        Ok(bytes) => Ok(bytes),
        Err(_) => Err(StoreError::OutOfMemory),
    }
}

// The length of the change's bytes after others, and room for the bytes and their digest.
fn put_length(mut out: Vec<u8>, change: &Change) -> Result<Vec<u8>, AllocError>
    ensures { IfOk result (λ bytes. bytes.items
        ≡ out.items ++ to_be_bytes w32 (length (spelling change.now))) }
{
    let _hash = change.hash();
    let size = change.encoded_len();
    out.reserve(4 + size + DIGEST_BYTES)?;
    out.extend_from_slice(&(size as u32).to_be_bytes())?;
    Ok(out)
}

// The change's bytes and their digest after other bytes.
fn put_change(out: Vec<u8>, change: &Change) -> Result<Vec<u8>, ChangeError>
    ensures { IfOk result (λ bytes. bytes.items
        ≡ out.items ++ (spelling change.now ++ (hash_of change.now).0)) }
{
    let mut out = change.encode_after(out)?;
    out.extend_from_slice(&change.hash().0)?;
    Ok(out)
}

/// The bytes and after them the record of the change in a journal: the length of its bytes, in 4 bytes, its bytes, and
/// its hash. Room is made once, and nothing is copied twice. The only refusal is `OutOfMemory`; it lets the bytes go.
pub fn put_record(out: Vec<u8>, change: &Change) -> Result<Vec<u8>, StoreError>
    ensures bytes { IfOk result (λ bytes. bytes.items ≡ out.items ++ record_of change.now) }
    ensures err { IsOkUnless result OutOfMemory }
{
    match put_length(out, change) {
        Ok(out) => match put_change(out, change) {
            Ok(out) => Ok(out),
            Err(_) => Err(StoreError::OutOfMemory),
        },
        Err(_) => Err(StoreError::OutOfMemory),
    }
}

/// The record of the change in a journal: 36 bytes more than the change has. The only refusal is `OutOfMemory`.
pub fn record(alloc: Global, change: &Change) -> Result<Vec<u8>, StoreError>
    ensures bytes { IfOk result (λ bytes. bytes.items ≡ record_of change.now) }
    ensures err { IsOkUnless result OutOfMemory }
{
    put_record(Vec::new(alloc), change)
}
