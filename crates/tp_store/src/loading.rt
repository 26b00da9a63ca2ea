//! Loading a document from a saved file.

ghost use Rattle.std.specs.Prelude.{◌≡◌, ◌+◌, ◌<◌, ◌≤◌, ◌^◌, ℕ, List, [], length, drop, Ok, IfOk};
ghost use Rattle.std.specs.Str.{bytes_eq};
ghost use Rattle.tp_codec.specs.Gives.{Gives};
ghost use Rattle.tp_codec.specs.Reading.{repeat_at};
ghost use Rattle.tp_opid.specs.declared.doc_id.DocId.{DocId as Identifier};
ghost use Rattle.tp_layout.specs.declared.parts.ChangeParts.{ChangeParts};
ghost use Rattle.tp_layout.specs.Reading as reading;
ghost use Rattle.tp_history.specs.Fit.{cause};
ghost use Rattle.tp_store.specs.Documents.{IsDocument, contents};
ghost use Rattle.tp_store.specs.Loading as loading;
ghost use Rattle.tp_store.specs.Saved.{IsSaved};
ghost use Rattle.tp_store.specs.declared.error.StoreError.TheVariants.{OutOfMemory};

use crate::error::StoreError;
use crate::layout::{Header, outline_of, piece_of};
use crate::saved::{DIGEST_LEN, HEADER_LEN};
use sha2::{Digest, Sha256};
use std::alloc::Global;
use tp_change::{Change, ChangeError};
use tp_codec::Reader;
use tp_digest::Ahead;
use tp_document::Document;
use tp_graph::GraphError;
use tp_rga::Sequence;

// Whether the digest is that of all bytes before the last 32.
fn has_digest(bytes: &[u8], digest: &[u8; 32]) -> bool
    requires { DIGEST_LEN ≤ length bytes.now }
    ensures { result ≡ bytes_eq digest.now (loading.digest_of bytes.now) }
{
    let body = &bytes[..bytes.len() - DIGEST_LEN];
    *digest == Sha256::digest(body)
}

// The next four changes, whose lengths and bytes these are, as those whose digests are expected: none where fewer are
// whole. It looks at their lengths alone.
fn next_four(bytes: &[u8]) -> Ahead<'_> {
    let mut pieces: [&[u8]; 4] = [&[]; 4];
    let mut reader = Reader::new(bytes);
    for i in 0..4 {
        match piece_of(&mut reader, 0) {
            Ok(piece) => pieces[i] = piece,
            Err(_) => return Ahead::none(),
        }
    }
    Ahead::of(pieces)
}

// The change that the bytes are, whose length is at the offset.
fn change_of(
    alloc: Global,
    at: u64,
    bytes: &[u8],
    ahead: &mut Ahead<'_>,
) -> Result<Change, StoreError>
    ensures { Gives OutOfMemory (λ c. c) result (loading.or_damaged_at at (reading.change_at bytes.now)) }
{
    match Change::decode_ahead(alloc, bytes, ahead) {
        Ok(change) => Ok(change),
        Err(ChangeError::OutOfMemory) => Err(StoreError::OutOfMemory),
        Err(_) => Err(StoreError::Damaged { at }),
    }
}

// Enters a change, where it can enter.
fn push<S: Sequence>(document: &mut Document<S>, change: Change) -> Result<(), StoreError>
    ensures pushed { Gives OutOfMemory (λ _. document.new.applied) result
        (loading.push_or_refuse document.old.applied change (cause document.old.applied change)) }
    ensures id { document.new.id ≡ document.old.id }
    ensures waiting { document.new.waiting ≡ document.old.waiting }
{
    match document.ready(&change) {
        Ok(()) => {
            document.enter(change);
            Ok(())
        }
        Err(GraphError::OutOfMemory) => Err(StoreError::OutOfMemory),
        Err(cause) => Err(StoreError::Refused(cause)),
    }
}

// Enters the change that the bytes are, whose length is at the offset.
fn enter_piece<S: Sequence>(
    alloc: Global,
    document: &mut Document<S>,
    at: u64,
    bytes: &[u8],
    ahead: &mut Ahead<'_>,
) -> Result<(), StoreError>
    ensures grown { Gives OutOfMemory (λ _. document.new.applied) result
        (loading.with_piece at document.old.applied bytes.now) }
    ensures id { document.new.id ≡ document.old.id }
    ensures waiting { document.new.waiting ≡ document.old.waiting }
{
    let change = change_of(alloc, at, bytes, ahead)?;
    push(document, change)
}

// Enters `count` changes, which the reader has next: what it has left is the end of the body. The first is hashed
// alone: where it can't enter, none after it was hashed.
fn enter_pieces<S: Sequence>(
    alloc: Global,
    document: &mut Document<S>,
    body: &[u8],
    reader: &mut Reader<'_>,
    count: u32,
) -> Result<(), StoreError>
    requires { HEADER_LEN + length reader.old < 2 ^ 64 }
    ensures entered { (pieces : List (List ℕ)) (rest : List ℕ)
        → repeat_at loading.piece_at loading.offset_after count HEADER_LEN reader.old ≡ Ok (pieces, rest)
        → Gives OutOfMemory (λ _. document.new.applied) result
        (loading.with_pieces HEADER_LEN document.old.applied pieces) }
    ensures id { document.new.id ≡ document.old.id }
    ensures waiting { document.new.waiting ≡ document.old.waiting }
{
    let mut at = HEADER_LEN as u64;
    let mut ahead = Ahead::none();
    for _ in 0..count {
        if ahead.is_used_up() && !document.changes().is_empty() {
            ahead = next_four(&body[body.len().saturating_sub(reader.len())..]);
        }
        let piece = piece_of(reader, at)?;
        enter_piece(alloc, document, at, piece, &mut ahead)?;
        at += 4 + piece.len() as u64;
    }
    Ok(())
}

// The document with the changes that are after the header.
fn document_of<S: Sequence>(
    alloc: Global,
    bytes: &[u8],
    header: Header,
) -> Result<Document<S>, StoreError>
    requires { HEADER_LEN ≤ length bytes.now }
    ensures entered { (pieces : List (List ℕ)) (rest : List ℕ)
        → repeat_at loading.piece_at loading.offset_after header.count HEADER_LEN
        (drop HEADER_LEN bytes.now) ≡ Ok (pieces, rest)
        → Gives OutOfMemory (λ d. d.applied) result (loading.with_pieces HEADER_LEN [] pieces) }
    ensures id { IfOk result (λ d. d.id ≡ header.id) }
    ensures waiting { IfOk result (λ d. d.waiting ≡ []) }
{
    let mut document = Document::new(alloc, header.id);
    let body = &bytes[HEADER_LEN..];
    let mut reader = Reader::new(body);
    enter_pieces(alloc, &mut document, body, &mut reader, header.count)?;
    Ok(document)
}

/// The document whose saved file the bytes are, all of them: with the identifier and the applied changes that were
/// saved, and with nothing that waits.
///
/// The refusals are judged in this order. `BadMagic`; from the start `Truncated` where a field, a change or the digest
/// isn't whole, and `Damaged` at the offset of a length of 0 or past 4,194,304, or at that of the first byte after the
/// digest. `BadDigest` where the digest isn't that of all before it. Then change by change `Damaged` at the offset of
/// its length where its bytes are no change, and `Refused` where it can't enter after those before it. `OutOfMemory`
/// only where a growth was refused.
///
/// The layout and the digest are judged before anything is made, so no count or length asks for memory before the
/// bytes are there. It takes one pass over the lengths, one digest of all, and for each change its decoding, with its
/// hash, and its entry.
pub fn load<S: Sequence>(alloc: Global, bytes: &[u8]) -> Result<Document<S>, StoreError>
    ensures found { IfOk result (λ d. IsSaved bytes.now d.id d.applied) }
    ensures waiting { IfOk result (λ d. d.waiting ≡ []) }
    ensures only { (id : Identifier) (C : List ChangeParts) → IsSaved bytes.now id C
        → IsDocument id C result }
    ensures exact { Gives OutOfMemory contents result (loading.document_of_bytes bytes.now) }
{
    let outline = outline_of(bytes)?;
    if !has_digest(bytes, &outline.digest) {
        return Err(StoreError::BadDigest);
    }
    document_of(alloc, bytes, outline.header)
}
