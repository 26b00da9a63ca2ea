//! The pieces of a journal, read from its bytes.

ghost use Rattle.std.specs.Prelude.{◌≡◌, ◌↔◌, ◌⊎◌, ◌++◌, length, IfOk, IfErr, IfNone, IfSome, IsTrue};
ghost use Rattle.std.specs.Int.{w32, from_be_bytes, to_be_bytes};
ghost use Rattle.tp_change.specs.ChangeHash.{hash_of};
ghost use Rattle.tp_layout.specs.Limits.{IsChange};
ghost use Rattle.tp_layout.specs.Spelling.{spelling};
ghost use Rattle.tp_recovery.specs.Layout.{IsDocId, header_of, IsShortTail};
ghost use Rattle.tp_recovery.specs.Reading.{IsRecordLayout};
ghost use Rattle.tp_recovery.specs.Refusals.{HasMagic, IsHeaderFault, IsNoChange, IsDamaged};
ghost use Rattle.tp_store.specs.declared.error.StoreError.TheVariants.{Damaged, OutOfMemory};

use crate::layout::{DIGEST_BYTES, HEADER_BYTES, MAGIC};
use std::alloc::Global;
use tp_change::{Change, ChangeError, MAX_BYTES};
use tp_digest::Ahead;
use tp_opid::{DocId, Hash};
use tp_store::StoreError;

// Whether the bytes begin with the magic, or are a beginning of it.
fn has_magic(bytes: &[u8]) -> bool
    ensures { IsTrue result ↔ HasMagic bytes.now }
{
    let count = bytes.len().min(MAGIC.len());
    bytes[..count] == MAGIC[..count]
}

/// 16 bytes as an identifier.
pub(crate) fn id_of(bytes: &[u8]) -> DocId
    requires { length bytes.now ≡ 16 }
    ensures id { result.0 ≡ bytes.now }
    ensures bytes { IsDocId result }
{
    let mut array = [0; 16];
    array.copy_from_slice(bytes);
    DocId(array)
}

// 32 bytes as a hash.
fn hash_in(bytes: &[u8]) -> Hash
    requires { length bytes.now ≡ 32 }
    ensures { result.0 ≡ bytes.now }
{
    let mut array = [0; 32];
    array.copy_from_slice(bytes);
    Hash(array)
}

/// The identifier of the document in the header of a journal, and the bytes after the header.
pub(crate) fn read_header(bytes: &[u8]) -> Result<(DocId, &[u8]), StoreError>
    ensures found { IfOk result (λ found. IsDocId found.0
        × (bytes.now ≡ header_of found.0 ++ found.1.now)) }
    ensures err { IfErr result (IsHeaderFault bytes.now) }
{
    if !has_magic(bytes) {
        return Err(StoreError::BadMagic);
    }
    if bytes.len() < HEADER_BYTES {
        return Err(StoreError::NoHeader);
    }
    let (_magic, beyond) = bytes.split_at(8);
    let (id, rest) = beyond.split_at(16);
    Ok((id_of(id), rest))
}

/// A record as it is in a journal, and the bytes after it.
#[derive(Drop)]
pub(crate) struct Laid<'a> {
    pub(crate) change: &'a [u8],
    pub(crate) digest: Hash,
    pub(crate) rest: &'a [u8],
}

// The number that four bytes spell.
fn number_in(bytes: &[u8]) -> u32
    requires { length bytes.now ≡ 4 }
    ensures number { result ≡ from_be_bytes w32 bytes.now }
    ensures bytes { to_be_bytes w32 result ≡ bytes.now }
{
    u32::from_be_bytes([bytes[0], bytes[1], bytes[2], bytes[3]])
}

/// The parts of the record at the prefix of the bytes, or `None` where they are a short tail. `Damaged`, with the offset
/// `at`, where the length is 0 or past 4,194,304.
pub(crate) fn split_record<'a>(bytes: &'a [u8], at: u64) -> Result<Option<Laid<'a>>, StoreError>
    ensures tail { IfOk result (λ found. IfNone found (IsShortTail bytes.now)) }
    ensures whole { IfOk result (λ found. IfSome found
        (λ laid. IsRecordLayout bytes.now laid.change.now laid.digest laid.rest.now)) }
    ensures err { IfErr result (λ e. (e ≡ Damaged at) × IsDamaged bytes.now) }
{
    if bytes.len() < 4 {
        return Ok(None);
    }
    let (prefix, beyond) = bytes.split_at(4);
    let size = number_in(prefix) as usize;
    if size == 0 || size > MAX_BYTES {
        return Err(StoreError::Damaged { at });
    }
    if beyond.len() < size + DIGEST_BYTES {
        return Ok(None);
    }
    let (change, after) = beyond.split_at(size);
    let (digest, rest) = after.split_at(DIGEST_BYTES);
    Ok(Some(Laid {
        change,
        digest: hash_in(digest),
        rest,
    }))
}

/// The changes of the next four records as those whose digests are expected: none where fewer records are whole. It looks
/// at their lengths alone.
pub(crate) fn next_four(bytes: &[u8]) -> Ahead<'_> {
    let mut pieces: [&[u8]; 4] = [&[]; 4];
    let mut rest = bytes;
    for i in 0..4 {
        match split_record(rest, 0) {
            Ok(Some(laid)) => {
                pieces[i] = laid.change;
                rest = laid.rest;
            }
            Ok(None) | Err(_) => return Ahead::none(),
        }
    }
    Ahead::of(pieces)
}

/// The change of a record: its bytes are decoded, and their digest is taken, once, where they are those that are expected
/// beside the next. `Damaged`, with the offset `at`, where they are no change's or the digest isn't theirs.
pub(crate) fn change_of(
    alloc: Global,
    bytes: &[u8],
    digest: &Hash,
    at: u64,
    ahead: &mut Ahead<'_>,
) -> Result<Change, StoreError>
    ensures found { IfOk result
        (λ c. IsChange c × (bytes.now ≡ spelling c) × (digest.now ≡ hash_of c)) }
    ensures err { IfErr result (λ e. (e ≡ OutOfMemory)
        ⊎ ((e ≡ Damaged at) × IsNoChange bytes.now digest.now.0)) }
{
    match Change::decode_ahead(alloc, bytes, ahead) {
        Ok(change) => {
            if !change.hash().is(digest) {
                return Err(StoreError::Damaged { at });
            }
            Ok(change)
        }
        Err(ChangeError::OutOfMemory) => Err(StoreError::OutOfMemory),
        Err(_) => Err(StoreError::Damaged { at }),
    }
}
