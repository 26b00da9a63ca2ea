//! Values of the state file, as bytes.
//!
//! Numbers have 8 bytes and are big-endian. Nothing is reserved for a count: elements are pushed as they are read.
#![tactic(auto, unfolding(tp_codec::specs::Reading::or_fail, tp_codec::specs::Reading::found_or, tp_codec::specs::Reading::and_then, tp_codec::specs::Reading::and_next, tp_codec::specs::Reading::give, tp_codec::specs::Reading::require, tp_codec::specs::Reading::pass_or_fail, crate::specs::StateFile::list_bytes, crate::specs::StateFile::list_at, crate::specs::StateFile::wrapped_at, crate::specs::StateFile::state_author_at, crate::specs::StateFile::flag_at, crate::specs::StateFile::text_heads_at, crate::specs::StateFile::known_text_at, crate::specs::StateFile::moved_at))]

ghost use Rattle.std.specs.Prelude.{◌≡◌, ◌<◌, ◌^◌, ◌++◌, List, ℕ, length, OnOk};
ghost use Rattle.std.specs.Int.{w64, to_be_bytes};
ghost use Rattle.std.specs.List.{AllByRecursion, flat_map};
ghost use Rattle.tp_list.specs.Bytes.{IsBytes};
ghost use Rattle.tp_codec.specs.Gives.{Gives};
ghost use Rattle.tp_codec.specs.Prefix.{byte_at, bytes_at, number_at};
ghost use Rattle.tp_codec.specs.Reading.{Reads, or_fail};
ghost use Rattle.tp_mirror.specs.declared.state_error.StateError.{StateError as Refusal};
ghost use Rattle.tp_mirror.specs.declared.state_error.StateError.TheVariants.{OutOfMemory, Truncated};
ghost use Rattle.tp_mirror.specs.StateFile.{AuthorIsTyped, KnownIsTyped, MovedIsTyped, TextIsTyped, state_author_at, author_bytes, flag_at, flag_byte, state_hash_at, items_at, known_text_at, known_bytes, list_at, list_bytes, moved_at, moved_bytes, text_heads_at, text_heads_bytes};

use crate::known::{Digest, Known, TextAt};
use crate::state::{Author, Moved, Name};
use crate::state_error::StateError;
use std::alloc::{AllocError, Global};
use tp_codec::Reader;
use tp_list::{Items, array_len};
use tp_opid::{Actor, Hash};

/// A value of a list of the state file.
pub(crate) trait Encoded: Drop {
    /// How it is read.
    ghost field: { Reads Refusal Self };

    /// Its bytes.
    ghost spelling: { Self → List ℕ };

    /// What its type says of it.
    ghost typed: { Self → Type 0 };

    /// Takes it from the start of the reader.
    fn read(alloc: Global, reader: &mut Reader<'_>) -> Result<Self, StateError>
        ensures { Gives OutOfMemory (λ x. (x, reader.new)) result (field reader.old) };

    /// Puts its bytes after those that are there.
    fn write(&self, out: &mut Vec<u8>) -> Result<(), AllocError>
        ensures { OnOk result (out.new.items ≡ out.old.items ++ spelling self.now) };

    /// What its type says, for proofs.
    fn is_typed(&self)
        ensures { typed self.now };
}

/// The next 8 bytes, as a number.
pub(crate) fn u64_of(reader: &mut Reader<'_>) -> Result<u64, StateError>
    ensures { Gives OutOfMemory (λ n. (n, reader.new)) result (or_fail Truncated (number_at w64) reader.old) }
{
    match reader.u64() {
        Some(n) => Ok(n),
        None => Err(StateError::Truncated),
    }
}

/// The next 16 bytes.
pub(crate) fn bytes_16_of(reader: &mut Reader<'_>) -> Result<[u8; 16], StateError>
    ensures { Gives OutOfMemory (λ b. (b, reader.new)) result (or_fail Truncated (bytes_at 16) reader.old) }
{
    match reader.array_16() {
        Some(bytes) => Ok(bytes),
        None => Err(StateError::Truncated),
    }
}

// The next 32 bytes.
fn bytes_32_of(reader: &mut Reader<'_>) -> Result<[u8; 32], StateError>
    ensures { Gives OutOfMemory (λ b. (b, reader.new)) result (or_fail Truncated (bytes_at 32) reader.old) }
{
    match reader.array_32() {
        Some(bytes) => Ok(bytes),
        None => Err(StateError::Truncated),
    }
}

fn byte_of(reader: &mut Reader<'_>) -> Result<u8, StateError>
    ensures { Gives OutOfMemory (λ b. (b, reader.new)) result (or_fail Truncated byte_at reader.old) }
{
    match reader.u8() {
        Some(byte) => Ok(byte),
        None => Err(StateError::Truncated),
    }
}

/// The next byte, 0 or 1.
pub(crate) fn flag_of_byte(reader: &mut Reader<'_>) -> Result<bool, StateError>
    ensures { Gives OutOfMemory (λ b. (b, reader.new)) result (flag_at reader.old) }
{
    let byte = byte_of(reader)?;
    if byte >= 2 {
        return Err(StateError::BadFlag);
    }
    Ok(byte == 1)
}

/// An actor and the number of its change.
pub(crate) fn author_of(reader: &mut Reader<'_>) -> Result<Author, StateError>
    ensures { Gives OutOfMemory (λ a. (a, reader.new)) result (state_author_at reader.old) }
{
    let actor = Actor(bytes_16_of(reader)?);
    let seq = u64_of(reader)?;
    Ok(Author { actor, seq })
}

// `count` values, one after another.
fn items_of<T: Encoded>(
    alloc: Global,
    reader: &mut Reader<'_>,
    count: u64,
) -> Result<Vec<T>, StateError>
    ensures { Gives OutOfMemory (λ v. (v.items, reader.new)) result (items_at T.field count reader.old) }
{
    let mut items = Vec::new(alloc);
    for _ in 0..count {
        let item = T::read(alloc, reader)?;
        items.push(item)?;
    }
    Ok(items)
}

/// A count and that many values.
pub(crate) fn list_of<T: Encoded>(
    alloc: Global,
    reader: &mut Reader<'_>,
) -> Result<Vec<T>, StateError>
    ensures { Gives OutOfMemory (λ v. (v.items, reader.new)) result (list_at T.field reader.old) }
{
    let count = u64_of(reader)?;
    items_of(alloc, reader, count)
}

/// Puts a number of 8 bytes.
pub(crate) fn put_u64(out: &mut Vec<u8>, number: u64) -> Result<(), AllocError>
    ensures { OnOk result (out.new.items ≡ out.old.items ++ to_be_bytes w64 number) }
{
    out.extend_from_slice(&number.to_be_bytes())
}

// Puts the values, one after another.
fn put_items<T: Encoded>(out: &mut Vec<u8>, items: &[T]) -> Result<(), AllocError>
    ensures { OnOk result (out.new.items ≡ out.old.items ++ flat_map T.spelling items.now) }
{
    for item in items {
        item.write(out)?;
    }
    Ok(())
}

/// Puts a count and the values.
pub(crate) fn put_list<T: Encoded>(out: &mut Vec<u8>, items: &[T]) -> Result<(), AllocError>
    ensures { OnOk result (out.new.items ≡ out.old.items ++ list_bytes T.spelling items.now) }
{
    put_u64(out, items.len() as u64)?;
    put_items(out, items)
}

/// What the types of the values say, and that they are fewer than 2^64.
pub(crate) fn are_typed<T: Encoded>(items: &[T])
    ensures each { AllByRecursion T.typed items.now }
    ensures len { length items.now < 2 ^ 64 }
{
    for item in items {
        item.is_typed();
    }
}

impl Encoded for Hash {
    ghost field = { state_hash_at };

    ghost spelling = { λ h. h.0 };

    ghost typed = { λ h. IsBytes 32 h.0 };

    fn read(_alloc: Global, reader: &mut Reader<'_>) -> Result<Hash, StateError> {
        let bytes = bytes_32_of(reader)?;
        Ok(Hash(bytes))
    }

    fn write(&self, out: &mut Vec<u8>) -> Result<(), AllocError> {
        out.extend_from_slice(&self.0)
    }

    fn is_typed(&self) {
        let _bytes = array_len(self.0);
    }
}

/// A digest, and the count of the heads with these.
fn read_text(alloc: Global, reader: &mut Reader<'_>) -> Result<TextAt, StateError>
    ensures { Gives OutOfMemory (λ t. (t, reader.new)) result (text_heads_at reader.old) }
{
    let digest = Digest(bytes_32_of(reader)?);
    let heads = list_of(alloc, reader)?;
    Ok(TextAt {
        digest,
        heads: Items::new(heads),
    })
}

fn put_text(out: &mut Vec<u8>, text: &TextAt) -> Result<(), AllocError>
    ensures { OnOk result (out.new.items ≡ out.old.items ++ text_heads_bytes text.now) }
{
    out.extend_from_slice(&text.digest.0)?;
    put_list(out, text.heads.as_slice())
}

fn text_is_typed(text: &TextAt)
    ensures { TextIsTyped text.now }
{
    let _bytes = array_len(text.digest.0);
    are_typed(text.heads.as_slice());
}

impl Encoded for Known {
    ghost field = { known_text_at };

    ghost spelling = { known_bytes };

    ghost typed = { KnownIsTyped };

    fn read(alloc: Global, reader: &mut Reader<'_>) -> Result<Known, StateError> {
        let generation = u64_of(reader)?;
        let text = read_text(alloc, reader)?;
        Ok(Known { generation, text })
    }

    fn write(&self, out: &mut Vec<u8>) -> Result<(), AllocError> {
        put_u64(out, self.generation)?;
        put_text(out, &self.text)
    }

    fn is_typed(&self) {
        let _generation = self.generation;
        text_is_typed(&self.text);
    }
}

impl Encoded for Moved {
    ghost field = { moved_at };

    ghost spelling = { moved_bytes };

    ghost typed = { MovedIsTyped };

    fn read(alloc: Global, reader: &mut Reader<'_>) -> Result<Moved, StateError> {
        let name = Name(bytes_16_of(reader)?);
        let known = Known::read(alloc, reader)?;
        Ok(Moved { name, known })
    }

    fn write(&self, out: &mut Vec<u8>) -> Result<(), AllocError> {
        out.extend_from_slice(&self.name.0)?;
        self.known.write(out)
    }

    fn is_typed(&self) {
        let _bytes = array_len(self.name.0);
        self.known.is_typed();
    }
}

/// Puts an actor and the number of its change.
pub(crate) fn put_author(out: &mut Vec<u8>, author: &Author) -> Result<(), AllocError>
    ensures { OnOk result (out.new.items ≡ out.old.items ++ author_bytes author.now) }
{
    out.extend_from_slice(&author.actor.0)?;
    put_u64(out, author.seq)
}

/// What the type of an author says.
pub(crate) fn author_is_typed(author: &Author)
    ensures { AuthorIsTyped author.now }
{
    let _bytes = array_len(author.actor.0);
    let _seq = author.seq;
}

/// Puts 1 where it is so, and else 0.
pub(crate) fn put_flag(out: &mut Vec<u8>, flag: bool) -> Result<(), AllocError>
    ensures { OnOk result (out.new.items ≡ out.old.items ++ flag_byte flag) }
{
    let byte = if flag { 1 } else { 0 };
    out.extend_from_slice(&[byte])
}
