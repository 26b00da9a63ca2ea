//! What is wrong with the parts of a change.

ghost use Rattle.std.specs.Prelude.{◌≡◌, ◌<◌, ◌^◌, ◌≤◌, IsTrue, OnOk, IfOk, IfErr, MatchResult, Ok, Err, length, true, nat_le, encode_utf8_all};
ghost use Rattle.std.specs.Str.{all_scalars};
ghost use Rattle.tp_layout.specs.declared.limits.TheConstants.{MAX_MESSAGE_BYTES, COUNTERS_END};
ghost use Rattle.tp_layout.specs.declared.error.ChangeError.TheVariants.{Limit, OutOfMemory};
ghost use Rattle.std.specs.List.{All};
ghost use Rattle.std.specs.declared.cmp.Ordering.TheVariants.{Less};
ghost use Rattle.tp_opid.specs.Order.{hash_cmp};
ghost use Rattle.tp_change.specs.Validated.{is_fault_of_parts, unless, is_above, validated_numbers, validated_list, validated_deps, validated_record, validated_records, validated_parts, rises_after, fewest_in, has_targets_within};
ghost use Rattle.tp_layout.specs.Limits.{IsHash, IsChange, IsTypedRecord, IsTyped};
ghost use Rattle.tp_layout.specs.Counts.{count_in};

use crate::facts::ops_in;
use tp_layout::{
    Body, COUNTERS_END, ChangeError, FEWEST_DELETES, MAX_BYTES, MAX_DEPS, MAX_MESSAGE_BYTES,
    MAX_OPS, Record, are_counters, body_len,
};
use tp_list::array_len;
use tp_opid::Hash;

/// The fault, unless the test holds.
fn ensure(fine: bool, fault: ChangeError) -> Result<(), ChangeError>
    ensures { result ≡ unless fine fault }
{
    if fine { Ok(()) } else { Err(fault) }
}

/// Whether a hash is above the one before it, if there is one.
fn is_next(before: Option<Hash>, hash: &Hash) -> bool
    ensures { result ≡ is_above before hash.now }
{
    match before {
        None => true,
        Some(last) => last.order(hash).is_lt(),
    }
}

/// Whether each hash is above the one before it.
fn do_rise(hashes: &[Hash]) -> bool
    ensures value { result ≡ rises_after None hashes.now }
    ensures bytes { IsTrue result → All IsHash hashes.now }
{
    let mut before = None;
    for hash in hashes {
        if !is_next(before, hash) {
            return false;
        }
        let _bytes = array_len(hash.0);
        before = Some(*hash);
    }
    true
}

/// Refuses dependencies that are more than `MAX_DEPS`, or don't rise.
fn validate_deps(deps: &[Hash]) -> Result<(), ChangeError>
    ensures value { result ≡ validated_deps deps.now }
    ensures bytes { OnOk result (All IsHash deps.now) }
{
    ensure(deps.len() <= MAX_DEPS, ChangeError::Limit)?;
    ensure(do_rise(deps), ChangeError::DepsOrder)
}

/// The fewest operations that such a record has.
fn fewest_ops(entry: &Record) -> usize
    ensures { result ≡ fewest_in entry.now }
{
    match entry {
        Record::Insert { after: _, text: _ } | Record::Delete { target: _ } => 1,
        Record::DeleteRun { first: _, count: _ } => FEWEST_DELETES as usize,
    }
}

/// Whether no element that a run deletes has a counter past 2^48 - 1.
fn ends_within(entry: &Record) -> bool
    ensures { result ≡ has_targets_within entry.now }
{
    match entry {
        Record::Insert { after: _, text: _ } | Record::Delete { target: _ } => true,
        Record::DeleteRun { first, count } => are_counters(first.counter, *count),
    }
}

/// How many operations the record is, of those that still have room.
fn validate_record(room: usize, entry: &Record) -> Result<usize, ChangeError>
    ensures value { MatchResult result (λ count. validated_record room entry.now ≡ Ok tt)
        (λ e. validated_record room entry.now ≡ Err e) }
    ensures count { IfOk result (λ count. (count ≡ count_in entry.now) × (count ≤ room)) }
    ensures typed { OnOk result (IsTypedRecord entry.now) }
{
    let count = ops_in(entry);
    ensure(fewest_ops(entry) <= count, ChangeError::EmptyRun)?;
    ensure(count <= room, ChangeError::Limit)?;
    ensure(ends_within(entry), ChangeError::Limit)?;
    Ok(count)
}

/// Each record in turn, where room is how many operations may come.
fn validate_records(room: usize, records: &[Record]) -> Result<(), ChangeError>
    ensures value { result ≡ validated_records room records.now }
    ensures typed { OnOk result (All IsTypedRecord records.now) }
{
    let mut room = room;
    for entry in records {
        room -= validate_record(room, entry)?;
    }
    Ok(())
}

/// The sequence number and the start.
fn validate_numbers(seq: u64, start: u64) -> Result<(), ChangeError>
    ensures { result ≡ validated_numbers seq start }
{
    ensure(0 < seq, ChangeError::ZeroSeqOrStart)?;
    ensure(0 < start, ChangeError::ZeroSeqOrStart)?;
    ensure(start < COUNTERS_END, ChangeError::Limit)
}

/// The length of the message.
fn validate_message(body: &Body) -> Result<(), ChangeError>
    ensures value { result ≡ unless
        (nat_le (length (encode_utf8_all body.now.message)) MAX_MESSAGE_BYTES) Limit }
    ensures typed { IsTrue (all_scalars body.now.message) }
{
    ensure(
        body.message().len() <= MAX_MESSAGE_BYTES,
        ChangeError::Limit,
    )
}

/// The record count, and the records.
fn validate_list(start: u64, records: &[Record]) -> Result<(), ChangeError>
    requires { start < COUNTERS_END }
    ensures value { result ≡ validated_list start records.now }
    ensures typed { OnOk result (All IsTypedRecord records.now) }
{
    ensure(0 < records.len(), ChangeError::NoRecords)?;
    ensure(records.len() <= MAX_OPS, ChangeError::Limit)?;
    let left = COUNTERS_END - start;
    let room = if left < MAX_OPS as u64 {
        left as usize
    } else {
        MAX_OPS
    };
    validate_records(room, records)
}

/// The whole size and then each field, with what the types say of them.
#[tactic(auto, unfolding(crate::specs::Validated::validated_parts))]
fn validate_fields(body: &Body) -> Result<(), ChangeError>
    ensures value { result ≡ validated_parts body.now }
    ensures typed { OnOk result (IsTyped body.now) }
{
    ensure(body_len(body) <= MAX_BYTES, ChangeError::Limit)?;
    validate_numbers(body.seq(), body.start)?;
    validate_message(body)?;
    validate_deps(body.deps())?;
    let _time = body.time;
    let _actor = array_len(body.actor.0);
    validate_list(body.start, body.records())
}

/// The first fault of the parts: the whole size first, then each field in turn. No memory; the cost is that of
/// going over the parts once.
pub(crate) fn validate(body: &Body) -> Result<(), ChangeError>
    ensures value { result ≡ validated_parts body.now }
    ensures within { OnOk result (IsChange body.now) }
    ensures only { IsChange body.now → result ≡ Ok tt }
    ensures faults { IfErr result (λ e. IsTrue (is_fault_of_parts e)) }
    ensures memory { IfErr result (λ e. e ≡ OutOfMemory → ⊥) }
{
    validate_fields(body)
}
