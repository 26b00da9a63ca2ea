//! Reading a message field by field.
//!
//! Every function takes the bytes of one field, all of them, and answers what comes next; specs/Stages says what is still
//! read there. The first fault is the refusal. No count takes room, and a change is decoded where its bytes are.
#![tactic(auto, unfolding(tp_codec::specs::Reading::or_fail, tp_codec::specs::Reading::found_or, tp_codec::specs::Reading::and_then, tp_codec::specs::Reading::and_next, tp_codec::specs::Reading::give, tp_codec::specs::Reading::fail, crate::specs::Reading::change_or_fail))]

ghost use Rattle.std.specs.Prelude.{◌≡◌, ℕ, ◌+◌, ◌≤◌, List, [], ◌∷◌, ◌++◌, length, OnOk, OnErr, IfErr, IsOkUnless, Err, Ok};
ghost use Rattle.tp_message.specs.Common.{w32, rises, change_at, Hash};
ghost use Rattle.std.specs.Int.{from_be_bytes};
ghost use Rattle.tp_message.specs.declared.error.SyncError.TheVariants.{OutOfMemory};
ghost use Rattle.tp_message.specs.declared.stages.HashList.TheVariants.{Wants};
ghost use Rattle.tp_message.specs.declared.stages.Stage.TheVariants.{Version, Count, Hashes, ChangeCount, Length, Body};
ghost use Rattle.tp_codec.specs.Gives.{Gives};
ghost use Rattle.tp_message.specs.Lists.{parts_in};
ghost use Rattle.tp_message.specs.Message.{MessageParts};
ghost use Rattle.tp_message.specs.Reading.{change_or_fail, end_or_fail};
ghost use Rattle.tp_message.specs.Stages.{limit_of, need, with_hashes, rest_after_hashes, hashes_from, entries_from, rest_at};
ghost use Rattle.tp_message.specs.Steps.{Steps, IsWithinField, Moves};

use crate::error::SyncError;
use crate::limits::{MAX_CHANGES, MAX_HASHES, MAX_KNOWN};
use crate::message::Lists;
use std::alloc::Global;
use std::cmp::Ordering;
use tp_change::{Change, ChangeError, MAX_BYTES};
use tp_digest::Ahead;
use tp_opid::Hash;

/// A list of hashes of a message.
#[derive(Clone, Copy)]
pub(crate) enum HashList {
    Heads,
    Wants,
    Known,
}

/// What comes next of a message.
#[derive(Clone, Copy)]
pub(crate) enum Stage {
    /// The version.
    Version,
    /// How many hashes a list has.
    Count(HashList),
    /// A hash of a list, above the one before it; the list has `more` after it.
    Hashes {
        list: HashList,
        before: Option<Hash>,
        more: u32,
    },
    /// How many changes there are.
    ChangeCount,
    /// The length of a change; after that change there are `more`.
    Length {
        more: u32,
    },
    /// A change of `len` bytes; after it there are `more`.
    Body {
        len: u32,
        more: u32,
    },
    /// Nothing, since the message is whole.
    Whole,
    /// Nothing, since the message is refused.
    Failed(SyncError),
}

// The most hashes of a list.
fn limit(list: HashList) -> usize
    ensures { result ≡ limit_of list }
{
    match list {
        HashList::Heads | HashList::Wants => MAX_HASHES,
        HashList::Known => MAX_KNOWN,
    }
}

/// How many bytes the field has that comes next.
pub(crate) fn field_len(stage: Stage) -> usize
    ensures { result ≡ need stage }
{
    match stage {
        Stage::Version => 1,
        Stage::Count(_) | Stage::ChangeCount | Stage::Length { .. } => 4,
        Stage::Hashes { .. } => 32,
        Stage::Body { len, .. } => len as usize,
        Stage::Whole | Stage::Failed(_) => 0,
    }
}

fn number_in(field: &[u8]) -> u32
    requires { length field.now ≡ 4 }
    ensures { result ≡ from_be_bytes w32 field.now }
{
    let mut bytes = [0; 4];
    bytes.copy_from_slice(field);
    u32::from_be_bytes(bytes)
}

fn hash_in(field: &[u8]) -> Hash
    requires { length field.now ≡ 32 }
    ensures { result.0 ≡ field.now }
{
    let mut bytes = [0; 32];
    bytes.copy_from_slice(field);
    Hash(bytes)
}

// Whether a hash is greater than the one before it.
fn follows(before: Option<Hash>, hash: &Hash) -> bool
    ensures { result ≡ rises before hash.now }
{
    match before {
        None => true,
        Some(before) => matches!(before.order(hash), Ordering::Less),
    }
}

// The change that the bytes are.
fn change_of(alloc: Global, bytes: &[u8], ahead: &mut Ahead<'_>) -> Result<Change, SyncError>
    ensures { (rest : List ℕ) → Gives OutOfMemory (λ c. (c, rest)) result (change_or_fail (change_at bytes.now) rest) }
{
    match Change::decode_ahead(alloc, bytes, ahead) {
        Ok(change) => Ok(change),
        Err(ChangeError::OutOfMemory) => Err(SyncError::OutOfMemory),
        Err(_) => Err(SyncError::BadChange),
    }
}

// A change at the start of the bytes, after its length, and the bytes after it. `None` where it isn't whole.
fn split_change(bytes: &[u8]) -> Option<(&[u8], &[u8])> {
    if bytes.len() < 4 {
        return None;
    }
    let (prefix, beyond) = bytes.split_at(4);
    let len = number_in(prefix) as usize;
    if beyond.len() < len {
        return None;
    }
    Some(beyond.split_at(len))
}

/// The next four changes, whose lengths and bytes these are, as those that are expected. `None` where fewer are whole.
pub(crate) fn changes_in(bytes: &[u8]) -> Option<Ahead<'_>> {
    let mut pieces: [&[u8]; 4] = [&[]; 4];
    let mut rest = bytes;
    for i in 0..4 {
        let (change, beyond) = split_change(rest)?;
        pieces[i] = change;
        rest = beyond;
    }
    Some(Ahead::of(pieces))
}

// What comes after the hashes that are wanted: version 2 has those of known changes.
fn after_wants(lists: &Lists) -> Stage
    ensures { (rest : List ℕ) → rest_after_hashes Wants (parts_in lists.now) rest
        ≡ rest_at result (parts_in lists.now) rest }
{
    if lists.version == 2 {
        return Stage::Count(HashList::Known);
    }
    Stage::ChangeCount
}

// What comes after a list of hashes.
fn after_list(lists: &Lists, list: HashList) -> Stage
    ensures { (rest : List ℕ) → rest_after_hashes list (parts_in lists.now) rest
        ≡ rest_at result (parts_in lists.now) rest }
{
    match list {
        HashList::Heads => Stage::Count(HashList::Wants),
        HashList::Wants => after_wants(lists),
        HashList::Known => Stage::ChangeCount,
    }
}

// What comes where a list has `count` hashes more.
fn hashes_left(lists: &Lists, list: HashList, before: Option<Hash>, count: u32) -> Stage
    ensures { (rest : List ℕ) → hashes_from list before count (parts_in lists.now) rest
        ≡ rest_at result (parts_in lists.now) rest }
{
    if count == 0 {
        return after_list(lists, list);
    }
    Stage::Hashes {
        list,
        before,
        more: count - 1,
    }
}

// What comes where there are `count` changes more.
fn changes_left(count: u32) -> Stage
    ensures { (m : MessageParts) (rest : List ℕ) → entries_from count m rest ≡ rest_at result m rest }
{
    if count == 0 {
        return Stage::Whole;
    }
    Stage::Length { more: count - 1 }
}

fn on_version(lists: &mut Lists, field: &[u8]) -> Result<Stage, SyncError>
    requires { length field.now ≡ 1 }
    ensures { Steps Version (parts_in lists.old) field.now result (parts_in lists.new) }
{
    let version = field[0];
    if version == 1 || version == 2 {
        lists.version = version;
        return Ok(Stage::Count(HashList::Heads));
    }
    Err(SyncError::BadMessage)
}

fn on_count(lists: &Lists, list: HashList, field: &[u8]) -> Result<Stage, SyncError>
    requires { length field.now ≡ 4 }
    ensures { Steps (Count list) (parts_in lists.now) field.now result (parts_in lists.now) }
{
    let count = number_in(field);
    if count as usize > limit(list) {
        return Err(SyncError::BadMessage);
    }
    Ok(hashes_left(lists, list, None, count))
}

impl Lists {
    // Puts a hash after those of a list.
    fn put_hash(&mut self, list: HashList, hash: Hash) -> Result<(), SyncError>
        ensures ok { OnOk result
            (parts_in self.new ≡ with_hashes list (parts_in self.old) (hash ∷ [])) }
        ensures err { OnErr result (parts_in self.new ≡ parts_in self.old) }
        ensures memory { IsOkUnless result OutOfMemory }
    {
        match list {
            HashList::Heads => self.heads.push(hash)?,
            HashList::Wants => self.wants.push(hash)?,
            HashList::Known => self.known.push(hash)?,
        }
        Ok(())
    }
}

fn on_hash(
    lists: &mut Lists,
    list: HashList,
    before: Option<Hash>,
    more: u32,
    field: &[u8],
) -> Result<Stage, SyncError>
    requires { length field.now ≡ 32 }
    ensures { Steps (Hashes list before more) (parts_in lists.old) field.now result
        (parts_in lists.new) }
{
    let hash = hash_in(field);
    if !follows(before, &hash) {
        return Err(SyncError::BadMessage);
    }
    lists.put_hash(list, hash)?;
    Ok(hashes_left(lists, list, Some(hash), more))
}

fn on_change_count(field: &[u8]) -> Result<Stage, SyncError>
    requires { length field.now ≡ 4 }
    ensures { (m : MessageParts) → Steps ChangeCount m field.now result m }
{
    let count = number_in(field);
    if count as usize > MAX_CHANGES {
        return Err(SyncError::BadMessage);
    }
    Ok(changes_left(count))
}

fn on_body(
    lists: &mut Lists,
    more: u32,
    field: &[u8],
    ahead: &mut Ahead<'_>,
) -> Result<Stage, SyncError>
    ensures { Steps (Body (length field.now) more) (parts_in lists.old) field.now result
        (parts_in lists.new) }
{
    let change = change_of(*lists.changes.allocator(), field, ahead)?;
    lists.changes.push(change)?;
    Ok(changes_left(more))
}

// What comes after the field at a stage, which the bytes are.
fn after(stage: Stage, lists: &mut Lists, field: &[u8]) -> Result<Stage, SyncError>
    requires { length field.now ≡ need stage }
    ensures { Steps stage (parts_in lists.old) field.now result (parts_in lists.new) }
{
    match stage {
        Stage::Version => on_version(lists, field),
        Stage::Count(list) => on_count(lists, list, field),
        Stage::Hashes { list, before, more } => on_hash(lists, list, before, more, field),
        Stage::ChangeCount => on_change_count(field),
        Stage::Length { more } => Ok(Stage::Body {
            len: number_in(field),
            more,
        }),
        Stage::Body { more, .. } => on_body(lists, more, field, &mut Ahead::none()),
        Stage::Whole | Stage::Failed(_) => Ok(stage),
    }
}

// What comes after the field at a stage, where the field begins with the bytes held. It is copied only where some are
// held, and none are afterwards.
fn after_held(
    stage: Stage,
    lists: &mut Lists,
    held: &mut Vec<u8>,
    last: &[u8],
) -> Result<Stage, SyncError>
    requires { length held.old.items + length last.now ≡ need stage }
    ensures steps { Steps stage (parts_in lists.old) (held.old.items ++ last.now) result
        (parts_in lists.new) }
    ensures ok { OnOk result (held.new.items ≡ []) }
    ensures err { OnErr result (held.new.items ≡ held.old.items) }
{
    if held.is_empty() {
        return after(stage, lists, last);
    }
    let before = held.len();
    held.extend_from_slice(last)?;
    let next = after(stage, lists, held.as_slice());
    held.truncate(if next.is_ok() { 0 } else { before });
    next
}

// Refuses a stage from which `left` bytes make no message, whatever they are.
fn judge(stage: Stage, left: usize) -> Result<(), SyncError>
    ensures ok { OnOk result (IsWithinField stage 0 left) }
    ensures err { IfErr result (λ e. (m : MessageParts) (rest : List ℕ) → length rest ≡ left
        → end_or_fail (rest_at stage m rest) ≡ Err e) }
    ensures memory { IfErr result (λ e. e ≡ OutOfMemory → ⊥) }
{
    if field_len(stage) > left {
        return Err(SyncError::BadMessage);
    }
    match stage {
        Stage::Whole if left > 0 => Err(SyncError::BadMessage),
        Stage::Body { len, .. } if len == 0 || len as usize > MAX_BYTES => Err(
            SyncError::BadChange,
        ),
        _ => Ok(()),
    }
}

/// What comes after the field at a stage, which begins with the bytes held and ends with the last ones, where `left`
/// bytes are left after it.
pub(crate) fn next_stage(
    stage: Stage,
    lists: &mut Lists,
    held: &mut Vec<u8>,
    last: &[u8],
    left: usize,
) -> Result<Stage, SyncError>
    requires { length held.old.items + length last.now ≡ need stage }
    ensures moves { Moves stage (parts_in lists.old) (held.old.items ++ last.now) left result
        (parts_in lists.new) }
    ensures ok { OnOk result (held.new.items ≡ []) }
    ensures few { OnErr result (length held.new.items ≤ length held.old.items) }
    ensures memory { IfErr result (λ e. e ≡ OutOfMemory → held.new.items ≡ held.old.items) }
{
    let next = after_held(stage, lists, held, last)?;
    judge(next, left)?;
    Ok(next)
}

/// What comes after a change that has no byte held. Its digest is from `ahead`, where it is the one that is expected.
pub(crate) fn next_change(
    lists: &mut Lists,
    more: u32,
    field: &[u8],
    left: usize,
    ahead: &mut Ahead<'_>,
) -> Result<Stage, SyncError>
    ensures { Moves (Body (length field.now) more) (parts_in lists.old) field.now left result
        (parts_in lists.new) }
{
    let next = on_body(lists, more, field, ahead)?;
    judge(next, left)?;
    Ok(next)
}
