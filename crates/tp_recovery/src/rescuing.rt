//! What can be had of a journal that is damaged.

ghost use Rattle.std.specs.Prelude.{◌≡◌, ◌⊎◌, ◌≤◌, ◌<◌, ◌++◌, [], ◌∷◌, length, Some, None, IfOk, IfErr, IfNone, IfSome, MatchBool, OnOk, IsOkUnless};
ghost use Rattle.tp_layout.specs.Limits.{IsChange};
ghost use Rattle.tp_document.specs.DocState.{HasRoomFor, MakesRoom};
ghost use Rattle.tp_history.specs.Fit.{cause};
ghost use Rattle.tp_recovery.specs.Layout.{IsDocId, header_of, record_of};
ghost use Rattle.tp_recovery.specs.Pieces.{BeginsWithJournal};
ghost use Rattle.tp_recovery.specs.Refusals.{IsHeaderFault};
ghost use Rattle.tp_recovery.specs.Whole.{AreFound, BeginsNone, TailFault, HoldsRecord, Inspects, KeepsPart, LooksIn, EntersFitting, Rescues};
ghost use Rattle.tp_store.specs.declared.error.StoreError.TheVariants.{OutOfMemory};

use crate::layout::HEADER_BYTES;
use crate::reading::{change_of, id_of, next_four, read_header, split_record};
use crate::recovering::{enter_next, history};
use std::alloc::Global;
use tp_change::Change;
use tp_digest::Ahead;
use tp_document::Document;
use tp_graph::GraphError;
use tp_opid::{DocId, Hash};
use tp_rga::Sequence;
use tp_store::StoreError;

/// A whole record, with the digest that is right, that is after the bytes that are kept.
#[derive(Clone, Copy, Debug, PartialEq, Eq)]
pub struct WholeRecord {
    /// The offset at which it begins, in bytes from 0.
    pub at: u64,
    /// The offset after its last byte.
    pub end: u64,
    /// The hash of its change.
    pub hash: Hash,
}

/// What is in the bytes of a journal.
#[derive(Drop)]
pub struct Inspection<S: Sequence> {
    /// The document of the changes that recovering keeps: those before the end, or before the fault. Nothing waits in it.
    pub document: Document<S>,
    /// How many bytes these have with the header. 0 where the header itself has the fault.
    pub keep: u64,
    /// Why [`recover`](crate::recover) refuses the bytes. `None` where all after those that are kept is one record that
    /// wasn't written to its end, or nothing.
    pub fault: Option<StoreError>,
    /// The whole records after the bytes that are kept, rising. Where no change is kept they may begin within the header.
    pub records: Vec<WholeRecord>,
    /// Their changes.
    pub changes: Vec<Change>,
}

// Enters the changes of the records at the prefix of the bytes, up to a short tail or a fault. Gives that fault, and the
// bytes from it on.
fn keep_records<'a, S: Sequence>(
    alloc: Global,
    document: &mut Document<S>,
    keep: &mut u64,
    bytes: &'a [u8],
    _all: &[u8],
) -> Result<(Option<StoreError>, &'a [u8]), StoreError>
    requires { BeginsWithJournal _all.now document.old keep.old bytes.now }
    ensures ok { IfOk result (λ end. BeginsWithJournal _all.now document.new keep.new end.1.now
        × TailFault document.new.applied keep.new end.1.now end.0) }
    ensures err { IsOkUnless result OutOfMemory }
{
    let mut rest = bytes;
    let mut ahead = Ahead::none();
    'records: loop {
        if ahead.is_used_up() {
            ahead = next_four(rest);
        }
        match enter_next(alloc, document, rest, *keep, &mut ahead) {
            Ok(Some(next)) => {
                history(document);
                *keep += (rest.len() - next.len()) as u64;
                rest = next;
            }
            Ok(None) => return Ok((None, rest)),
            Err(StoreError::OutOfMemory) => return Err(StoreError::OutOfMemory),
            Err(fault) => return Ok((Some(fault), rest)),
        }
    }
}

/// What recovering keeps of bytes, why they are refused, and the bytes after those that are kept.
type Kept<'a, S> = (Document<S>, u64, Option<StoreError>, &'a [u8]);

// What recovering keeps where the header is whole.
fn keep_after<'a, S: Sequence>(
    alloc: Global,
    id: DocId,
    beyond: &'a [u8],
    bytes: &[u8],
) -> Result<Kept<'a, S>, StoreError>
    requires id { IsDocId id }
    requires spelled { bytes.now ≡ header_of id ++ beyond.now }
    ensures ok { IfOk result (λ k. KeepsPart bytes.now k.0.id k.0.applied k.1 k.3.now k.2
        × (k.0.waiting ≡ [])) }
    ensures err { IsOkUnless result OutOfMemory }
{
    let mut document = Document::new(alloc, id);
    let mut keep = HEADER_BYTES as u64;
    match keep_records(alloc, &mut document, &mut keep, beyond, bytes) {
        Ok((fault, rest)) => Ok((document, keep, fault, rest)),
        Err(error) => {
            drop(document);
            Err(error)
        }
    }
}

// What recovering keeps of the bytes. Where the magic is damaged that is nothing, and all after the header is left.
fn keep_whole<'a, S: Sequence>(alloc: Global, bytes: &'a [u8]) -> Result<Kept<'a, S>, StoreError>
    ensures ok { IfOk result (λ k. KeepsPart bytes.now k.0.id k.0.applied k.1 k.3.now k.2
        × (k.0.waiting ≡ [])) }
    ensures err { IfErr result (λ e. (e ≡ OutOfMemory)
        ⊎ (IsHeaderFault bytes.now e × (length bytes.now < 24))) }
{
    match read_header(bytes) {
        Ok((id, beyond)) => keep_after(alloc, id, beyond, bytes),
        Err(error) => {
            if bytes.len() < HEADER_BYTES {
                return Err(error);
            }
            let (_magic, beyond) = bytes.split_at(8);
            let (id, rest) = beyond.split_at(16);
            Ok((Document::new(alloc, id_of(id)), 0, Some(error), rest))
        }
    }
}

// The change whose record is at the start of the bytes, and the bytes after that.
fn whole_record<'a>(
    alloc: Global,
    bytes: &'a [u8],
) -> Result<Option<(Change, &'a [u8])>, StoreError>
    ensures found { IfOk result (λ found. IfSome found
        (λ x. IsChange x.0 × (bytes.now ≡ record_of x.0 ++ x.1.now))) }
    ensures none { IfOk result (λ found. IfNone found (BeginsNone bytes.now)) }
    ensures err { IsOkUnless result OutOfMemory }
{
    match split_record(bytes, 0) {
        Ok(Some(laid)) => {
            match change_of(alloc, laid.change, &laid.digest, 0, &mut Ahead::none()) {
                Ok(change) => Ok(Some((change, laid.rest))),
                Err(StoreError::Damaged { at: _ }) => Ok(None),
                Err(_) => Err(StoreError::OutOfMemory),
            }
        }
        Ok(None) => Ok(None),
        Err(_) => Ok(None),
    }
}

/// Whether a whole record, with the digest that is right, is anywhere in the bytes. The only refusal is `OutOfMemory`.
///
/// The cost is that of a look at each byte; where a length that may be a record's is there, also of decoding and
/// hashing what would be its change.
pub fn holds_record(alloc: Global, bytes: &[u8]) -> Result<bool, StoreError>
    ensures ok { IfOk result
        (λ holds. MatchBool holds (HoldsRecord bytes.now) (HoldsRecord bytes.now → ⊥)) }
    ensures err { IsOkUnless result OutOfMemory }
{
    let mut rest = bytes;
    'bytes: while !rest.is_empty() {
        match whole_record(alloc, rest)? {
            Some((change, _beyond)) => {
                drop(change);
                return Ok(true);
            }
            None => {
                let (_first, later) = rest.split_at(1);
                rest = later;
            }
        }
    }
    Ok(false)
}

/// The whole records in bytes, and their changes.
type Found = (Vec<WholeRecord>, Vec<Change>);

// The whole records in the bytes, which are the last of as many as `total`.
fn find_whole(alloc: Global, bytes: &[u8], total: usize) -> Result<Found, StoreError>
    requires { length bytes.now ≤ total }
    ensures ok { IfOk result (λ f. AreFound total bytes.now f.0.items f.1.items) }
    ensures err { IsOkUnless result OutOfMemory }
{
    let mut records = Vec::new(alloc);
    let mut changes = Vec::new(alloc);
    let mut rest = bytes;
    'bytes: while !rest.is_empty() {
        match whole_record(alloc, rest)? {
            Some((change, next)) => {
                records.push(WholeRecord {
                    at: (total - rest.len()) as u64,
                    end: (total - next.len()) as u64,
                    hash: change.hash(),
                })?;
                changes.push(change)?;
                rest = next;
            }
            None => {
                let (_byte, beyond) = rest.split_at(1);
                rest = beyond;
            }
        }
    }
    Ok((records, changes))
}

/// The whole records anywhere in bytes, each with the digest that is right, and their changes. One is looked for at each
/// byte, after the one before, and offsets count from the first byte. The only refusal is `OutOfMemory`.
///
/// The cost is that of hashing and decoding each change, and of a look at each other byte.
pub fn whole_records(
    alloc: Global,
    bytes: &[u8],
) -> Result<(Vec<WholeRecord>, Vec<Change>), StoreError>
    ensures ok { IfOk result
        (λ f. AreFound (length bytes.now) bytes.now f.0.items f.1.items) }
    ensures err { IsOkUnless result OutOfMemory }
{
    find_whole(alloc, bytes, bytes.len())
}

// The bytes in which whole records are looked for: those after what is kept. Where no change is, a byte of the header may
// be missing or be there twice, so that all after its first 8 bytes are looked through.
fn to_look_through<'a, S: Sequence>(
    document: &Document<S>,
    bytes: &'a [u8],
    rest: &'a [u8],
) -> &'a [u8]
    requires header { 8 ≤ length bytes.now }
    requires rest { length rest.now ≤ length bytes.now }
    ensures looks { LooksIn bytes.now document.now.applied rest.now result.now }
    ensures few { length result.now ≤ length bytes.now }
{
    if document.changes().is_empty() {
        let (_magic, beyond) = bytes.split_at(8);
        beyond
    } else {
        rest
    }
}

/// What is in the bytes of a journal, whatever is damaged in it: what [`recover`](crate::recover) keeps, and all whole
/// records after that, each with the digest that is right. One is looked for at each byte, after the one before.
///
/// Where the first 8 bytes aren't the magic nothing is kept, and the document has the identifier that is in the 16 after
/// them. Where no change is kept, records are looked for from the ninth byte on, so that a header that lost a byte hides
/// none but the first. It is refused as `BadMagic` or `NoHeader` only where there are fewer than 24 bytes, as by `recover`.
/// The only other refusal is `OutOfMemory`.
///
/// The cost is that of `recover`, and of a look at each byte after the fault; where a length that may be a record's is
/// there, also of hashing and decoding what would be its change.
pub fn inspect<S: Sequence>(alloc: Global, bytes: &[u8]) -> Result<Inspection<S>, StoreError>
    ensures ok { IfOk result (λ i. Inspects bytes.now i.document.id i.document.applied i.keep i.fault
        i.records.items i.changes.items × (i.document.waiting ≡ [])) }
    ensures err { IfErr result (λ e. (e ≡ OutOfMemory)
        ⊎ (IsHeaderFault bytes.now e × (length bytes.now < 24))) }
{
    let (document, keep, fault, rest) = keep_whole(alloc, bytes)?;
    let look = to_look_through(&document, bytes, rest);
    match find_whole(alloc, look, bytes.len()) {
        Ok((records, changes)) => Ok(Inspection {
            document,
            keep,
            fault,
            records,
            changes,
        }),
        Err(error) => {
            drop(document);
            Err(error)
        }
    }
}

// Makes ready for a change, or says why it can't enter.
fn ready_or_cause<S: Sequence>(
    document: &mut Document<S>,
    change: &Change,
) -> Result<Option<GraphError>, StoreError>
    ensures fits { IfOk result (λ found. IfNone found
        ((cause document.old.applied change.now ≡ None) × HasRoomFor document.new change.now)) }
    ensures unfit { IfOk result
        (λ found. IfSome found (λ g. cause document.old.applied change.now ≡ Some g)) }
    ensures stays { MakesRoom document.old document.new }
    ensures err { IsOkUnless result OutOfMemory }
{
    match document.ready(change) {
        Ok(()) => Ok(None),
        Err(GraphError::OutOfMemory) => Err(StoreError::OutOfMemory),
        Err(error) => Ok(Some(error)),
    }
}

// Enters the change if it fits.
fn enter_if_fits<S: Sequence>(document: &mut Document<S>, change: &Change) -> Result<(), StoreError>
    ensures ok { OnOk result
        (EntersFitting (change.now ∷ []) document.old.applied document.new.applied) }
    ensures id { document.new.id ≡ document.old.id }
    ensures waiting { document.new.waiting ≡ document.old.waiting }
    ensures err { IsOkUnless result OutOfMemory }
{
    match ready_or_cause(document, change)? {
        None => match change.copy() {
            Ok(copy) => {
                document.enter(copy);
                Ok(())
            }
            Err(_) => Err(StoreError::OutOfMemory),
        },
        Some(_) => Ok(()),
    }
}

// Enters each of the changes that fits, in their order.
fn enter_fitting<S: Sequence>(
    document: &mut Document<S>,
    changes: &[Change],
) -> Result<(), StoreError>
    ensures ok { OnOk result
        (EntersFitting changes.now document.old.applied document.new.applied) }
    ensures id { document.new.id ≡ document.old.id }
    ensures waiting { document.new.waiting ≡ document.old.waiting }
    ensures err { IsOkUnless result OutOfMemory }
{
    for change in changes {
        enter_if_fits(document, change)?;
    }
    Ok(())
}

/// Enters all changes that fit, whatever their order: one that lacks another is asked again once others have entered. What
/// is left out is known already, depends on a change that isn't there, or can never enter. The only refusal is
/// `OutOfMemory`, by which some may have entered.
///
/// The cost is that of entering them, and of asking each once more for each time that some entered.
pub fn rescue<S: Sequence>(document: &mut Document<S>, changes: &[Change]) -> Result<(), StoreError>
    ensures ok { OnOk result
        (Rescues changes.now document.old.applied document.new.applied) }
    ensures id { document.new.id ≡ document.old.id }
    ensures waiting { document.new.waiting ≡ document.old.waiting }
    ensures err { IsOkUnless result OutOfMemory }
{
    'passes: loop {
        let count = document.changes().len();
        enter_fitting(document, changes)?;
        history(document);
        if document.changes().len() == count {
            return Ok(());
        }
    }
}
