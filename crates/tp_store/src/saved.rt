//! Saving a document.

ghost use Rattle.std.specs.Prelude.{◌≡◌, ◌++◌, length, min, IfOk, OnOk, IsOkUnless};
ghost use Rattle.std.specs.List.{flat_map};
ghost use Rattle.sha2.specs.Sha256.{sha256};
ghost use Rattle.tp_layout.specs.Spelling.{framed_change};
ghost use Rattle.tp_store.specs.Saved as spelled;
ghost use Rattle.tp_store.specs.declared.error.StoreError.TheVariants.{OutOfMemory};

use crate::error::StoreError;
use sha2::{Digest, Sha256};
use std::alloc::{AllocError, Global};
use tp_change::Change;
use tp_document::Document;
use tp_list::array_len;
use tp_opid::DocId;
use tp_rga::Sequence;

/// What a saved file begins with.
pub(crate) const MAGIC: [u8; 8] = *b"RGATEXT1";

/// How many bytes are before the first change: the magic, the identifier and the number of changes.
pub(crate) const HEADER_LEN: usize = 28;

/// How many bytes the digest has.
pub(crate) const DIGEST_LEN: usize = 32;

// How many bytes the changes have with their lengths, or `usize::MAX`.
fn entries_len(changes: &[Change]) -> usize
    ensures { result ≡ min usize.MAX (length (flat_map framed_change changes.now)) }
{
    let mut total: usize = 0;
    for change in changes {
        total = total.saturating_add(change.encoded_len().saturating_add(4));
    }
    total
}

// Puts the magic, the identifier and the number of changes.
fn put_header(out: &mut Vec<u8>, id: DocId, count: u32) -> Result<(), AllocError>
    ensures { OnOk result (out.new.items ≡ out.old.items ++ spelled.header id count) }
{
    out.extend_from_slice(&MAGIC)?;
    out.extend_from_slice(&id.0)?;
    out.extend_from_slice(&count.to_be_bytes())
}

// The bytes with those of a change and their length after them.
fn with_change(mut out: Vec<u8>, change: &Change) -> Result<Vec<u8>, StoreError>
    ensures bytes { IfOk result (λ v. v.items ≡ out.items ++ framed_change change.now) }
    ensures err { IsOkUnless result OutOfMemory }
{
    let _hash = change.hash();
    let len = change.encoded_len() as u32;
    out.extend_from_slice(&len.to_be_bytes())?;
    match change.encode_after(out) {
        Ok(out) => Ok(out),
        Err(_) => Err(StoreError::OutOfMemory),
    }
}

// The bytes with those of the changes and their lengths after them.
fn with_changes(out: Vec<u8>, changes: &[Change]) -> Result<Vec<u8>, StoreError>
    ensures bytes { IfOk result (λ v. v.items ≡ out.items ++ flat_map framed_change changes.now) }
    ensures err { IsOkUnless result OutOfMemory }
{
    let mut whole = out;
    for change in changes {
        whole = with_change(whole, change)?;
    }
    Ok(whole)
}

// Puts the SHA-256 of all that is there.
fn put_digest(out: &mut Vec<u8>) -> Result<(), AllocError>
    ensures { OnOk result (out.new.items ≡ out.old.items ++ sha256 out.old.items) }
{
    let digest = Sha256::digest(out.as_slice());
    out.extend_from_slice(&digest)
}

/// The saved file of a document: its identifier and its applied changes, as docs/FORMATS.md lays them out, with a
/// digest of all of it. Changes that wait aren't saved.
///
/// Memory is reserved once, and each change is written there straight from its parts. The only refusal is
/// `OutOfMemory`. The cost is that of writing and hashing the bytes.
pub fn save<S: Sequence>(alloc: Global, document: &Document<S>) -> Result<Vec<u8>, StoreError>
    ensures bytes { IfOk result
        (λ v. spelled.IsSaved v.items document.now.id document.now.applied) }
    ensures err { IsOkUnless result OutOfMemory }
{
    let changes = document.changes();
    let id = document.id();
    let _bytes = array_len(id.0);
    let len = entries_len(changes).saturating_add(HEADER_LEN + DIGEST_LEN);
    let mut out = Vec::with_capacity(alloc, len)?;
    put_header(&mut out, id, changes.len() as u32)?;
    let mut whole = with_changes(out, changes)?;
    put_digest(&mut whole)?;
    Ok(whole)
}
