//! The layout of a saved file, read from left to right and judged before anything is made of it.
//!
//! Nothing here takes memory, whatever count or length the bytes claim: a count is taken at its word until bytes
//! run out, and a change's bytes are passed over where they are.
#![tactic(auto, unfolding(tp_codec::specs::Reading::or_fail, tp_codec::specs::Reading::found_or, tp_codec::specs::Reading::and_then, tp_codec::specs::Reading::and_next, tp_codec::specs::Reading::give, tp_codec::specs::Reading::require, tp_codec::specs::Reading::pass_or_fail, crate::specs::Loading::letter_at, crate::specs::Loading::doc_id_at, crate::specs::Loading::u32_at, crate::specs::Loading::digest_at, crate::specs::Loading::header_at, crate::specs::Loading::piece_at, crate::specs::Loading::pieces_at, crate::specs::Loading::layout_at, crate::specs::Loading::end_or_damaged, crate::specs::Loading::layout_of))]

ghost use Rattle.std.specs.Prelude.{◌≡◌, ℕ, ◌+◌, ◌<◌, ◌^◌, length, slice_index, IfOk};
ghost use Rattle.tp_codec.specs.Reading.{repeat_at};
ghost use Rattle.tp_store.specs.Outlines.{IsOutlineOf, StandsFor};
ghost use Rattle.tp_codec.specs.Gives.{Is};
ghost use Rattle.tp_store.specs.Loading as loading;

use crate::error::StoreError;
use crate::saved::{HEADER_LEN, MAGIC};
use tp_change::MAX_BYTES;
use tp_codec::Reader;
use tp_opid::DocId;

/// What is between the magic and the changes.
#[derive(Clone, Copy)]
pub(crate) struct Header {
    pub(crate) id: DocId,
    pub(crate) count: u32,
}

/// What is kept of a layout that has no fault.
#[derive(Clone, Copy)]
pub(crate) struct Outline {
    pub(crate) header: Header,
    pub(crate) digest: [u8; 32],
}

fn letter_of(reader: &mut Reader<'_>, letter: u8) -> Result<(), StoreError>
    ensures { Is (λ _. (tt, reader.new)) result (loading.letter_at letter reader.old) }
{
    match reader.u8() {
        Some(byte) if byte == letter => Ok(()),
        Some(_) => Err(StoreError::BadMagic),
        None => Err(StoreError::Truncated),
    }
}

fn magic_of(reader: &mut Reader<'_>) -> Result<(), StoreError>
    ensures { Is (λ _. (tt, reader.new)) result (loading.letters_at MAGIC reader.old) }
{
    for letter in &MAGIC {
        letter_of(reader, *letter)?;
    }
    Ok(())
}

fn id_of(reader: &mut Reader<'_>) -> Result<DocId, StoreError>
    ensures { Is (λ id. (id, reader.new)) result (loading.doc_id_at reader.old) }
{
    match reader.array_16() {
        Some(bytes) => Ok(DocId(bytes)),
        None => Err(StoreError::Truncated),
    }
}

fn u32_of(reader: &mut Reader<'_>) -> Result<u32, StoreError>
    ensures { Is (λ n. (n, reader.new)) result (loading.u32_at reader.old) }
{
    match reader.u32() {
        Some(n) => Ok(n),
        None => Err(StoreError::Truncated),
    }
}

fn header_of(reader: &mut Reader<'_>) -> Result<Header, StoreError>
    ensures { Is (λ h. (h, reader.new)) result (loading.header_at reader.old) }
{
    magic_of(reader)?;
    let id = id_of(reader)?;
    let count = u32_of(reader)?;
    Ok(Header { id, count })
}

/// The bytes of the next change, whose length is at an offset.
pub(crate) fn piece_of<'a>(reader: &mut Reader<'a>, at: u64) -> Result<&'a [u8], StoreError>
    ensures piece { Is (λ p. (p.now, reader.new)) result (loading.piece_at at reader.old) }
    ensures len { IfOk result (λ p. length reader.old ≡ 4 + length p.now + length reader.new) }
{
    let count = u32_of(reader)? as usize;
    if count < 1 {
        return Err(StoreError::Damaged { at });
    }
    if count > MAX_BYTES {
        return Err(StoreError::Damaged { at });
    }
    match reader.bytes(count) {
        Some(bytes) => Ok(bytes),
        None => Err(StoreError::Truncated),
    }
}

// Passes over the bytes of `count` changes.
fn skip_pieces(reader: &mut Reader<'_>, count: u32) -> Result<(), StoreError>
    requires { HEADER_LEN + length reader.old < 2 ^ 64 }
    ensures { StandsFor (λ _ read. (length read.0 ≡ count) × (read.1 ≡ reader.new)) result
        (repeat_at loading.piece_at loading.offset_after count HEADER_LEN reader.old) }
{
    let mut at = HEADER_LEN as u64;
    for _ in 0..count {
        let piece = piece_of(reader, at)?;
        at += 4 + piece.len() as u64;
    }
    Ok(())
}

fn digest_of(reader: &mut Reader<'_>) -> Result<[u8; 32], StoreError>
    ensures { Is (λ d. (d, reader.new)) result (loading.digest_at reader.old) }
{
    match reader.array_32() {
        Some(bytes) => Ok(bytes),
        None => Err(StoreError::Truncated),
    }
}

// What is after the header.
fn outline_after(reader: &mut Reader<'_>, header: Header) -> Result<Outline, StoreError>
    requires { HEADER_LEN + length reader.old < 2 ^ 64 }
    ensures { StandsFor (λ outline read. IsOutlineOf outline read.0 × (read.1 ≡ reader.new)) result
        (loading.pieces_at header reader.old) }
{
    skip_pieces(reader, header.count)?;
    let digest = digest_of(reader)?;
    Ok(Outline { header, digest })
}

// What is at the start.
fn outline_at(reader: &mut Reader<'_>) -> Result<Outline, StoreError>
    requires small { length reader.old < 2 ^ 64 }
    requires bytes { (i : ℕ) → slice_index reader.old i < 256 }
    ensures { StandsFor (λ outline read. IsOutlineOf outline read.0 × (read.1 ≡ reader.new)) result
        (loading.layout_at reader.old) }
{
    let header = header_of(reader)?;
    outline_after(reader, header)
}

/// What is kept of the layout of all the bytes, or its first fault from the start: `BadMagic`, `Truncated` where a
/// field, a change or the digest isn't whole, `Damaged` at a length of 0 or past 4,194,304 and at the first byte after
/// the digest.
pub(crate) fn outline_of(bytes: &[u8]) -> Result<Outline, StoreError>
    ensures { StandsFor IsOutlineOf result (loading.layout_of bytes.now) }
{
    let mut reader = Reader::new(bytes);
    let outline = outline_at(&mut reader)?;
    if !reader.is_empty() {
        let at = bytes.len().saturating_sub(reader.len());
        return Err(StoreError::Damaged { at: at as u64 });
    }
    Ok(outline)
}
