//! Reading a change from its bytes.
//!
//! Every function takes its field from the start of a reader, and says which field of specs/Reading that is. The
//! first fault is the refusal. Nothing is reserved for a count or a length: elements are pushed as they are read,
//! and a text is copied once, when its bytes are there.
#![tactic(auto, unfolding(tp_codec::specs::Reading::or_fail, tp_codec::specs::Reading::found_or, tp_codec::specs::Reading::and_then, tp_codec::specs::Reading::and_next, tp_codec::specs::Reading::give, tp_codec::specs::Reading::require, tp_codec::specs::Reading::pass_or_fail, tp_codec::specs::Reading::characters_at, tp_codec::specs::Reading::text_at, tp_codec::specs::Reading::fail, crate::specs::Reading::actor_at, crate::specs::Reading::hash_at, crate::specs::Reading::id_at, crate::specs::Reading::version_at, crate::specs::Reading::seq_at, crate::specs::Reading::start_at, crate::specs::Reading::dep_at, crate::specs::Reading::deps_at, crate::specs::Reading::place_after_tag, crate::specs::Reading::place_at, crate::specs::Reading::insert_at, crate::specs::Reading::delete_at, crate::specs::Reading::delete_run_at, crate::specs::Reading::record_after_tag, crate::specs::Reading::record_at, crate::specs::Reading::records_at, crate::specs::Reading::parts_at, crate::specs::Reading::sized_at))]

ghost use Rattle.std.specs.Prelude.{◌≡◌, ◌-◌, length, true, false, None, Ok, IfOk, IfErr, IsTrue};
ghost use Rattle.std.specs.Str.{is_utf8};
ghost use Rattle.std.specs.Int.{w16, w32, w64};
ghost use Rattle.std.specs.Ordering.{is_lt};
ghost use Rattle.tp_codec.specs.Prefix.{byte_at, bytes_at, number_at};
ghost use Rattle.tp_codec.specs.Reading.{or_fail, fail, characters_at, text_at, repeat_at};
ghost use Rattle.tp_opid.specs.Order.{hash_cmp};
ghost use Rattle.tp_layout.specs.declared.error.ChangeError.TheVariants.{Short, BadUtf8, OutOfMemory};
ghost use Rattle.tp_layout.specs.Counts.{count_in};
ghost use Rattle.tp_layout.specs.Limits.{IsChange};
ghost use Rattle.tp_layout.specs.Spelling.{spelling};
ghost use Rattle.tp_layout.specs.declared.parts.ChangeParts.{ChangeParts};
ghost use Rattle.tp_codec.specs.Gives.{Gives};
ghost use Rattle.tp_layout.specs.Reading.{actor_at, hash_at, id_at, version_at, seq_at, start_at, rises, dep_at, next_before, room_after, deps_at, place_after_tag, place_at, insert_at, delete_at, delete_run_at, record_after_tag, record_at, records_at, room_from, parts_at, sized_at, change_at};
ghost use Rattle.tp_layout.specs.Kept.{items_of};

use crate::body::{Body, Few, Kept};
use crate::error::ChangeError;
use crate::limits::{COUNTERS_END, FEWEST_DELETES, MAX_BYTES, MAX_OPS, are_counters};
use crate::record::Record;
use crate::version::version_of;
use std::alloc::Global;
use std::cmp::Ordering;
use tp_codec::Reader;
use tp_list::{Text, char_count};
use tp_opid::{Actor, Hash, OpId, Place};

// The bytes of a hash.
const HASH_LEN: usize = 32;

// The fewest bytes that a record has: one character at the start. So a count that the bytes can't hold takes no room.
const SMALLEST_RECORD: usize = 7;

fn byte_of(reader: &mut Reader<'_>) -> Result<u8, ChangeError>
    ensures { Gives OutOfMemory (λ b. (b, reader.new)) result (or_fail Short byte_at reader.old) }
{
    match reader.u8() {
        Some(byte) => Ok(byte),
        None => Err(ChangeError::Short),
    }
}

fn u16_of(reader: &mut Reader<'_>) -> Result<u16, ChangeError>
    ensures { Gives OutOfMemory (λ n. (n, reader.new)) result (or_fail Short (number_at w16) reader.old) }
{
    match reader.u16() {
        Some(n) => Ok(n),
        None => Err(ChangeError::Short),
    }
}

fn u32_of(reader: &mut Reader<'_>) -> Result<u32, ChangeError>
    ensures { Gives OutOfMemory (λ n. (n, reader.new)) result (or_fail Short (number_at w32) reader.old) }
{
    match reader.u32() {
        Some(n) => Ok(n),
        None => Err(ChangeError::Short),
    }
}

fn u64_of(reader: &mut Reader<'_>) -> Result<u64, ChangeError>
    ensures { Gives OutOfMemory (λ n. (n, reader.new)) result (or_fail Short (number_at w64) reader.old) }
{
    match reader.u64() {
        Some(n) => Ok(n),
        None => Err(ChangeError::Short),
    }
}

fn actor_of(reader: &mut Reader<'_>) -> Result<Actor, ChangeError>
    ensures { Gives OutOfMemory (λ a. (a, reader.new)) result (actor_at reader.old) }
{
    match reader.array_16() {
        Some(bytes) => Ok(Actor(bytes)),
        None => Err(ChangeError::Short),
    }
}

fn hash_of(reader: &mut Reader<'_>) -> Result<Hash, ChangeError>
    ensures { Gives OutOfMemory (λ h. (h, reader.new)) result (hash_at reader.old) }
{
    match reader.array_32() {
        Some(bytes) => Ok(Hash(bytes)),
        None => Err(ChangeError::Short),
    }
}

fn id_of(reader: &mut Reader<'_>) -> Result<OpId, ChangeError>
    ensures { Gives OutOfMemory (λ i. (i, reader.new)) result (id_at reader.old) }
{
    let counter = u64_of(reader)?;
    let actor = actor_of(reader)?;
    Ok(OpId { counter, actor })
}

// The bytes as text, or that they are no UTF-8.
#[tactic(auto, using(crate::proofs::Utf8Tests::utf8_tests))]
fn utf8_of(bytes: &[u8]) -> Result<&str, ChangeError>
    ensures found { IfOk result (λ s. (s.now ≡ bytes.now) × IsTrue (is_utf8 bytes.now)) }
    ensures bad { IfErr result (λ e. (e ≡ BadUtf8) × (is_utf8 bytes.now ≡ false)) }
{
    match std::str::from_utf8(bytes) {
        Ok(text) => Ok(text),
        Err(_) => Err(ChangeError::BadUtf8),
    }
}

fn bytes_of<'a>(reader: &mut Reader<'a>, count: usize) -> Result<&'a [u8], ChangeError>
    ensures { Gives OutOfMemory (λ b. (b.now, reader.new)) result (or_fail Short (bytes_at count) reader.old) }
{
    match reader.bytes(count) {
        Some(bytes) => Ok(bytes),
        None => Err(ChangeError::Short),
    }
}

fn characters_of(alloc: Global, reader: &mut Reader<'_>, count: usize) -> Result<Text, ChangeError>
    ensures { Gives OutOfMemory (λ t. (t, reader.new)) result (characters_at Short BadUtf8 count reader.old) }
{
    let text = utf8_of(bytes_of(reader, count)?)?;
    Ok(Text::of(alloc, text)?)
}

fn message_of(alloc: Global, reader: &mut Reader<'_>) -> Result<Text, ChangeError>
    ensures { Gives OutOfMemory (λ t. (t, reader.new)) result (text_at Short BadUtf8 w16 reader.old) }
{
    let count = u16_of(reader)?;
    characters_of(alloc, reader, count as usize)
}

fn run_of(alloc: Global, reader: &mut Reader<'_>) -> Result<Text, ChangeError>
    ensures { Gives OutOfMemory (λ t. (t, reader.new)) result (text_at Short BadUtf8 w32 reader.old) }
{
    let count = u32_of(reader)?;
    characters_of(alloc, reader, count as usize)
}

fn version_byte_of(reader: &mut Reader<'_>) -> Result<u8, ChangeError>
    ensures { Gives OutOfMemory (λ v. (v, reader.new)) result (version_at reader.old) }
{
    let version = byte_of(reader)?;
    if version != 1 && version != 2 {
        return Err(ChangeError::Version);
    }
    Ok(version)
}

fn seq_of(reader: &mut Reader<'_>) -> Result<u64, ChangeError>
    ensures { Gives OutOfMemory (λ n. (n, reader.new)) result (seq_at reader.old) }
{
    let seq = u64_of(reader)?;
    if seq < 1 {
        return Err(ChangeError::ZeroSeqOrStart);
    }
    Ok(seq)
}

fn start_of(reader: &mut Reader<'_>) -> Result<u64, ChangeError>
    ensures { Gives OutOfMemory (λ n. (n, reader.new)) result (start_at reader.old) }
{
    let start = u64_of(reader)?;
    if start < 1 {
        return Err(ChangeError::ZeroSeqOrStart);
    }
    if start >= COUNTERS_END {
        return Err(ChangeError::Limit);
    }
    Ok(start)
}

// Whether a dependency is greater than the one before it.
fn follows(before: Option<Hash>, hash: &Hash) -> bool
    ensures { result ≡ rises before hash.now }
{
    match before {
        None => true,
        Some(before) => matches!(before.order(hash), Ordering::Less),
    }
}

fn dep_of(reader: &mut Reader<'_>, before: Option<Hash>) -> Result<Hash, ChangeError>
    ensures { Gives OutOfMemory (λ h. (h, reader.new)) result (dep_at before reader.old) }
{
    let hash = hash_of(reader)?;
    if !follows(before, &hash) {
        return Err(ChangeError::DepsOrder);
    }
    Ok(hash)
}

fn counted_deps_of(
    alloc: Global,
    reader: &mut Reader<'_>,
    count: u16,
) -> Result<Vec<Hash>, ChangeError>
    ensures { Gives OutOfMemory (λ v. (v.items, reader.new)) result
        (repeat_at dep_at next_before count None reader.old) }
{
    let room = (count as usize).min(reader.len() / HASH_LEN);
    let mut deps = Vec::with_capacity(alloc, room)?;
    let mut before = None;
    for _ in 0..count {
        let hash = dep_of(reader, before)?;
        deps.push(hash)?;
        before = Some(hash);
    }
    Ok(deps)
}

// One dependency. It takes no memory.
fn one_dep_of(reader: &mut Reader<'_>) -> Result<Few<Hash>, ChangeError>
    ensures { Gives OutOfMemory (λ d. (items_of d, reader.new)) result
        (repeat_at dep_at next_before 1 None reader.old) }
{
    Ok(Few::One(dep_of(reader, None)?))
}

fn deps_of(alloc: Global, reader: &mut Reader<'_>) -> Result<Few<Hash>, ChangeError>
    ensures { Gives OutOfMemory (λ d. (items_of d, reader.new)) result (deps_at reader.old) }
{
    let count = u16_of(reader)?;
    if count == 1 {
        return one_dep_of(reader);
    }
    Ok(Few::More(counted_deps_of(alloc, reader, count)?))
}

fn place_of_tag(reader: &mut Reader<'_>, tag: u8) -> Result<Place, ChangeError>
    ensures { Gives OutOfMemory (λ p. (p, reader.new)) result (place_after_tag tag reader.old) }
{
    match tag {
        0 => Ok(Place::Start),
        1 => Ok(Place::After(id_of(reader)?)),
        _ => Err(ChangeError::BadTag),
    }
}

fn place_of(reader: &mut Reader<'_>) -> Result<Place, ChangeError>
    ensures { Gives OutOfMemory (λ p. (p, reader.new)) result (place_at reader.old) }
{
    let tag = byte_of(reader)?;
    place_of_tag(reader, tag)
}

// The record, and how many operations may still come after it.
fn insert_of(
    alloc: Global,
    reader: &mut Reader<'_>,
    room: usize,
) -> Result<(Record, usize), ChangeError>
    ensures record { Gives OutOfMemory (λ x. (x.0, reader.new)) result (insert_at room reader.old) }
    ensures room { IfOk result (λ x. x.1 ≡ room_after room x.0) }
{
    let after = place_of(reader)?;
    let text = run_of(alloc, reader)?;
    let count = char_count(text.as_str());
    if count < 1 {
        return Err(ChangeError::EmptyRun);
    }
    if count > room {
        return Err(ChangeError::Limit);
    }
    Ok((Record::Insert { after, text }, room - count))
}

// The record, and how many operations may still come after it.
fn delete_of(reader: &mut Reader<'_>, room: usize) -> Result<(Record, usize), ChangeError>
    ensures record { Gives OutOfMemory (λ x. (x.0, reader.new)) result (delete_at room reader.old) }
    ensures room { IfOk result (λ x. x.1 ≡ room_after room x.0) }
{
    if room < 1 {
        return Err(ChangeError::Limit);
    }
    let target = id_of(reader)?;
    Ok((Record::Delete { target }, room - 1))
}

// The record, and how many operations may still come after it.
fn delete_run_of(
    reader: &mut Reader<'_>,
    runs: bool,
    room: usize,
) -> Result<(Record, usize), ChangeError>
    ensures record { Gives OutOfMemory (λ x. (x.0, reader.new)) result (delete_run_at runs room reader.old) }
    ensures room { IfOk result (λ x. x.1 ≡ room_after room x.0) }
{
    if !runs {
        return Err(ChangeError::BadTag);
    }
    let first = id_of(reader)?;
    let count = u32_of(reader)?;
    if count < FEWEST_DELETES {
        return Err(ChangeError::EmptyRun);
    }
    if count as usize > room {
        return Err(ChangeError::Limit);
    }
    if !are_counters(first.counter, count) {
        return Err(ChangeError::Limit);
    }
    Ok((Record::DeleteRun { first, count }, room - count as usize))
}

// The record, and how many operations may still come after it.
fn record_of_tag(
    alloc: Global,
    reader: &mut Reader<'_>,
    runs: bool,
    room: usize,
    tag: u8,
) -> Result<(Record, usize), ChangeError>
    ensures record { Gives OutOfMemory (λ x. (x.0, reader.new)) result
        (record_after_tag runs room tag reader.old) }
    ensures room { IfOk result (λ x. x.1 ≡ room_after room x.0) }
{
    match tag {
        1 => insert_of(alloc, reader, room),
        2 => delete_of(reader, room),
        3 => delete_run_of(reader, runs, room),
        _ => Err(ChangeError::BadTag),
    }
}

// The record, and how many operations may still come after it.
fn record_of(
    alloc: Global,
    reader: &mut Reader<'_>,
    runs: bool,
    room: usize,
) -> Result<(Record, usize), ChangeError>
    ensures record { Gives OutOfMemory (λ x. (x.0, reader.new)) result (record_at runs room reader.old) }
    ensures room { IfOk result (λ x. x.1 ≡ room_after room x.0) }
{
    let tag = byte_of(reader)?;
    record_of_tag(alloc, reader, runs, room, tag)
}

fn counted_records_of(
    alloc: Global,
    reader: &mut Reader<'_>,
    runs: bool,
    count: u32,
    room: usize,
) -> Result<Vec<Record>, ChangeError>
    ensures { Gives OutOfMemory (λ v. (v.items, reader.new)) result
        (repeat_at (record_at runs) room_after count room reader.old) }
{
    let most = (count as usize).min(reader.len() / SMALLEST_RECORD);
    let mut records = Vec::with_capacity(alloc, most)?;
    let mut left = room;
    for _ in 0..count {
        let (record, after) = record_of(alloc, reader, runs, left)?;
        records.push(record)?;
        left = after;
    }
    Ok(records)
}

// One record. It takes memory only for a long text.
fn one_record_of(
    alloc: Global,
    reader: &mut Reader<'_>,
    runs: bool,
    room: usize,
) -> Result<Few<Record>, ChangeError>
    ensures { Gives OutOfMemory (λ r. (items_of r, reader.new)) result
        (repeat_at (record_at runs) room_after 1 room reader.old) }
{
    let (record, _) = record_of(alloc, reader, runs, room)?;
    Ok(Few::One(record))
}

fn records_of(
    alloc: Global,
    reader: &mut Reader<'_>,
    runs: bool,
    room: usize,
) -> Result<Few<Record>, ChangeError>
    ensures { Gives OutOfMemory (λ r. (items_of r, reader.new)) result (records_at runs room reader.old) }
{
    let count = u32_of(reader)?;
    if count < 1 {
        return Err(ChangeError::NoRecords);
    }
    if count as usize > MAX_OPS {
        return Err(ChangeError::Limit);
    }
    if count == 1 {
        return one_record_of(alloc, reader, runs, room);
    }
    Ok(Few::More(counted_records_of(alloc, reader, runs, count, room)?))
}

// How many operations a change may have whose first counter is start.
fn room_of(start: u64) -> usize
    ensures { result ≡ room_from start }
{
    COUNTERS_END.saturating_sub(start).min(MAX_OPS as u64) as usize
}

fn parts_of(alloc: Global, reader: &mut Reader<'_>, runs: bool) -> Result<Body, ChangeError>
    ensures { Gives OutOfMemory (λ c. (c, reader.new)) result (parts_at runs reader.old) }
{
    let actor = actor_of(reader)?;
    let seq = seq_of(reader)?;
    let start = start_of(reader)?;
    let time = u64_of(reader)?;
    let message = message_of(alloc, reader)?;
    let deps = deps_of(alloc, reader)?;
    let records = records_of(alloc, reader, runs, room_of(start))?;
    let kept = Kept::of_few(alloc, seq, message, deps, records)?;
    Ok(Body {
        actor,
        start,
        time,
        kept,
    })
}

// The version and the parts.
fn sized_of(alloc: Global, reader: &mut Reader<'_>, size: usize) -> Result<(u8, Body), ChangeError>
    ensures { Gives OutOfMemory (λ x. ((x.0, x.1), reader.new)) result (sized_at size reader.old) }
{
    let version = version_byte_of(reader)?;
    if size > MAX_BYTES {
        return Err(ChangeError::Limit);
    }
    Ok((version, parts_of(alloc, reader, version == 2)?))
}

// The parts of the change that the bytes are.
#[tactic(auto, unfolding(crate::specs::Reading::change_at, crate::specs::Reading::end_of_change, crate::specs::Reading::check_version))]
fn change_of(alloc: Global, bytes: &[u8]) -> Result<Body, ChangeError>
    ensures { Gives OutOfMemory (λ c. c) result (change_at bytes.now) }
{
    let mut reader = Reader::new(bytes);
    let (version, parts) = sized_of(alloc, &mut reader, bytes.len())?;
    if !reader.is_empty() {
        return Err(ChangeError::Trailing);
    }
    if version != version_of(parts.records()) {
        return Err(ChangeError::NoRun);
    }
    Ok(parts)
}

/// The parts of the change that the bytes are, all of them.
///
/// Takes one pass over the bytes. Refuses with the first fault from the start, as docs/FORMATS.md orders them,
/// and with `OutOfMemory` where a growth was refused.
pub fn read_change(alloc: Global, bytes: &[u8]) -> Result<Body, ChangeError>
    ensures found { IfOk result (λ c. IsChange c × (bytes.now ≡ spelling c)) }
    ensures only { (c : ChangeParts) → IsChange c → bytes.now ≡ spelling c
        → Gives OutOfMemory (λ d. d) result (Ok c) }
    ensures exact { Gives OutOfMemory (λ c. c) result (change_at bytes.now) }
{
    change_of(alloc, bytes)
}
