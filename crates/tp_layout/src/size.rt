//! How many bytes a change has, without writing them.

ghost use Rattle.std.specs.Prelude.{◌≡◌, ◌≤◌, length, min};
ghost use Rattle.std.specs.List.{flat_map};
ghost use Rattle.tp_opid.specs.declared.hash.Hash.{Hash};
ghost use Rattle.tp_layout.specs.Spelling.{spelling, spelling_of_id, spelling_of_place, spelling_of_record};

use crate::body::Body;
use crate::record::Record;
use tp_list::array_len;
use tp_opid::{Hash, OpId, Place};

/// How many bytes an identifier has.
fn id_len(id: &OpId) -> usize
    ensures small { result ≡ 24 }
    ensures len { result ≡ length (spelling_of_id id.now) }
{
    8 + array_len(id.actor.0)
}

/// How many bytes a reference has.
fn place_len(place: &Place) -> usize
    ensures small { result ≤ 25 }
    ensures len { result ≡ length (spelling_of_place place.now) }
{
    match place {
        Place::Start => 1,
        Place::After(id) => 1 + id_len(id),
    }
}

/// How many bytes a record has, or `usize::MAX`.
fn record_len(entry: &Record) -> usize
    ensures { result ≡ min usize.MAX (length (spelling_of_record entry.now)) }
{
    match entry {
        Record::Insert { after, text } => text.byte_len().saturating_add(5 + place_len(after)),
        Record::Delete { target } => 1 + id_len(target),
        Record::DeleteRun { first, count: _ } => 5 + id_len(first),
    }
}

/// How many bytes the records have, or `usize::MAX`.
fn records_len(records: &[Record]) -> usize
    ensures { result ≡ min usize.MAX (length (flat_map spelling_of_record records.now)) }
{
    let mut total: usize = 0;
    for entry in records {
        total = total.saturating_add(record_len(entry));
    }
    total
}

/// How many bytes the hashes have, or `usize::MAX`.
fn hashes_len(hashes: &[Hash]) -> usize
    ensures { result ≡ min usize.MAX (length (flat_map (λ (h : Hash). h.0) hashes.now)) }
{
    let mut total: usize = 0;
    for hash in hashes {
        total = total.saturating_add(array_len(hash.0));
    }
    total
}

/// How many bytes the parts are spelled with, or `usize::MAX` where a `usize` can't hold it. No memory; the cost
/// is that of going over the dependencies and the records, and not over their texts.
#[tactic(auto, using(crate::proofs::Lengths::length_spelling))]
pub fn body_len(body: &Body) -> usize
    ensures { result ≡ min usize.MAX (length (spelling body.now)) }
{
    let deps = hashes_len(body.deps());
    let records = records_len(body.records());
    let message = body.message().len();
    let head: usize = 33 + array_len(body.actor.0);
    head.saturating_add(message)
        .saturating_add(deps)
        .saturating_add(records)
}
