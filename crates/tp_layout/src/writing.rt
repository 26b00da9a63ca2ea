//! The bytes of a change, written from first to last.

ghost use Rattle.std.specs.Prelude.{◌<◌, ◌≤◌, ◌^◌, length, encode_utf8_all, IsOk, OnOk};
ghost use Rattle.std.specs.Int.{w64, to_be_bytes};
ghost use Rattle.std.specs.List.{flat_map, AllByRecursion};
ghost use Rattle.tp_opid.specs.declared.hash.Hash.{Hash};
ghost use Rattle.tp_layout.specs.Limits.{IsChange, IsRecord};
ghost use Rattle.tp_layout.specs.Puts.{Puts};
ghost use Rattle.tp_layout.specs.Spelling.{spelling, spelling_of_id, spelling_of_place, spelling_of_run, spelling_of_message, spelling_of_deps, spelling_of_record, spelling_of_records};

use crate::body::Body;
use crate::record::Record;
use crate::sink::Sink;
use crate::version::version_of;
use std::alloc::AllocError;
use tp_list::Text;
use tp_opid::{Hash, OpId, Place};

/// Eight bytes.
fn put_u64<S: Sink>(out: &mut S, number: u64) -> Result<(), AllocError>
    ensures puts { OnOk result (Puts S.holds out.old out.new (to_be_bytes w64 number)) }
    ensures taken { S.takes_all → IsOk result }
{
    out.put(&number.to_be_bytes())
}

/// A counter and an actor.
fn put_id<S: Sink>(out: &mut S, id: &OpId) -> Result<(), AllocError>
    ensures puts { OnOk result (Puts S.holds out.old out.new (spelling_of_id id.now)) }
    ensures taken { S.takes_all → IsOk result }
{
    put_u64(out, id.counter)?;
    out.put(&id.actor.0)
}

/// The tag of a reference, and what is after it.
fn put_place<S: Sink>(out: &mut S, place: &Place) -> Result<(), AllocError>
    ensures puts { OnOk result (Puts S.holds out.old out.new (spelling_of_place place.now)) }
    ensures taken { S.takes_all → IsOk result }
{
    match place {
        Place::Start => out.put(&[0]),
        Place::After(id) => {
            out.put(&[1])?;
            put_id(out, id)
        }
    }
}

/// The length and the text of a run.
fn put_run<S: Sink>(out: &mut S, text: &Text) -> Result<(), AllocError>
    requires { length (encode_utf8_all text.now) < 2 ^ 32 }
    ensures puts { OnOk result (Puts S.holds out.old out.new (spelling_of_run text.now)) }
    ensures taken { S.takes_all → IsOk result }
{
    out.put(&(text.byte_len() as u32).to_be_bytes())?;
    out.put(text.as_str().as_bytes())
}

/// The length and the text of the message.
fn put_message<S: Sink>(out: &mut S, body: &Body) -> Result<(), AllocError>
    requires { length (encode_utf8_all body.now.message) < 2 ^ 16 }
    ensures puts { OnOk result (Puts S.holds out.old out.new (spelling_of_message body.now.message)) }
    ensures taken { S.takes_all → IsOk result }
{
    let text = body.message();
    out.put(&(text.len() as u16).to_be_bytes())?;
    out.put(text.as_bytes())
}

/// The tag of a record, and what is after it.
fn put_record<S: Sink>(out: &mut S, entry: &Record) -> Result<(), AllocError>
    requires { IsRecord entry.now }
    ensures puts { OnOk result (Puts S.holds out.old out.new (spelling_of_record entry.now)) }
    ensures taken { S.takes_all → IsOk result }
{
    match entry {
        Record::Insert { after, text } => {
            out.put(&[1])?;
            put_place(out, after)?;
            put_run(out, text)
        }
        Record::Delete { target } => {
            out.put(&[2])?;
            put_id(out, target)
        }
        Record::DeleteRun { first, count } => {
            out.put(&[3])?;
            put_id(out, first)?;
            out.put(&count.to_be_bytes())
        }
    }
}

/// The hashes, one after another.
fn put_hashes<S: Sink>(out: &mut S, hashes: &[Hash]) -> Result<(), AllocError>
    ensures puts { OnOk result
        (Puts S.holds out.old out.new (flat_map (λ (h : Hash). h.0) hashes.now)) }
    ensures taken { S.takes_all → IsOk result }
{
    for hash in hashes {
        out.put(&hash.0)?;
    }
    Ok(())
}

/// The records, one after another.
fn put_records<S: Sink>(out: &mut S, records: &[Record]) -> Result<(), AllocError>
    requires { AllByRecursion IsRecord records.now }
    ensures puts { OnOk result
        (Puts S.holds out.old out.new (flat_map spelling_of_record records.now)) }
    ensures taken { S.takes_all → IsOk result }
{
    for entry in records {
        put_record(out, entry)?;
    }
    Ok(())
}

/// The dependency count and the dependencies.
fn put_deps<S: Sink>(out: &mut S, deps: &[Hash]) -> Result<(), AllocError>
    requires { length deps.now < 2 ^ 16 }
    ensures puts { OnOk result (Puts S.holds out.old out.new (spelling_of_deps deps.now)) }
    ensures taken { S.takes_all → IsOk result }
{
    out.put(&(deps.len() as u16).to_be_bytes())?;
    put_hashes(out, deps)
}

/// The record count and the records.
#[tactic(auto, using(crate::proofs::Counts::few_records))]
fn put_counted<S: Sink>(out: &mut S, body: &Body) -> Result<(), AllocError>
    requires { IsChange body.now }
    ensures puts { OnOk result
        (Puts S.holds out.old out.new (spelling_of_records body.now.records)) }
    ensures taken { S.takes_all → IsOk result }
{
    let records = body.records();
    out.put(&(records.len() as u32).to_be_bytes())?;
    put_records(out, records)
}

/// Puts the bytes of a change, as docs/FORMATS.md lays them out. The cost is that of putting each of them once.
pub fn put_change<S: Sink>(out: &mut S, body: &Body) -> Result<(), AllocError>
    requires { IsChange body.now }
    ensures puts { OnOk result (Puts S.holds out.old out.new (spelling body.now)) }
    ensures taken { S.takes_all → IsOk result }
{
    out.put(&[version_of(body.records())])?;
    out.put(&body.actor.0)?;
    put_u64(out, body.seq())?;
    put_u64(out, body.start)?;
    put_u64(out, body.time)?;
    put_message(out, body)?;
    put_deps(out, body.deps())?;
    put_counted(out, body)
}
