//! Calls that make saved files and journals.

use crate::world::World;
use std::alloc::Global;
use tp_change::Change;
use tp_document::Document;
use tp_opid::DocId;
use tp_recovery::{header, put_record, record};
use tp_rga::Sequence;
use tp_store::{StoreError, save};
use tp_test_runner::{Fault, Words, answer_ok, copies, document_id, refusal};

/// Why what has no refusal but for want of memory was refused.
pub fn fault_of(error: StoreError) -> Fault {
    match error {
        StoreError::OutOfMemory => Fault::Refused,
        _ => Fault::Row("another refusal"),
    }
}

// The document with the changes.
fn document_of<S: Sequence>(
    alloc: Global,
    id: DocId,
    changes: Vec<Change>,
) -> Result<Document<S>, Fault> {
    let mut document = Document::new(alloc, id);
    match document.apply(changes) {
        Ok(applied) if applied.refused.is_empty() => Ok(document),
        Ok(_) => Err(Fault::Row("a change is refused")),
        Err(_) => Err(Fault::Refused),
    }
}

// The bytes with the records of the changes after them.
fn put_records(bytes: Vec<u8>, changes: &[Change]) -> Result<Vec<u8>, Fault> {
    let mut bytes = bytes;
    for change in changes {
        bytes = put_record(bytes, change).map_err(fault_of)?;
    }
    Ok(bytes)
}

/// The journal of a document.
pub fn journal_of<S: Sequence>(alloc: Global, document: &Document<S>) -> Result<Vec<u8>, Fault> {
    let begun = header(alloc, document.id()).map_err(fault_of)?;
    put_records(begun, document.changes())
}

// The saved file of a document, or its journal.
fn bytes_of<S: Sequence>(
    alloc: Global,
    document: &Document<S>,
    is_journal: bool,
) -> Result<Vec<u8>, Fault> {
    if is_journal {
        journal_of(alloc, document)
    } else {
        save(alloc, document).map_err(fault_of)
    }
}

// `BYTE CHANGES`: a document with these changes, whose identifier is the byte sixteen times.
fn document<S: Sequence>(world: &World<S>, words: &mut Words) -> Result<Document<S>, Fault> {
    let id = document_id(words.next()?)?;
    let changes = copies(&world.changes, &world.documents, words.next()?)?;
    document_of(world.alloc, id, changes)
}

// `save NAME BYTE CHANGES`: the saved file of a document; `journal NAME BYTE CHANGES`: its journal.
fn make<S: Sequence>(
    world: &mut World<S>,
    is_journal: bool,
    words: &mut Words,
) -> Result<String, Fault> {
    let name = words.next()?;
    let made = bytes_of(world.alloc, &document(world, words)?, is_journal)?;
    world.bytes.put(name, made)?;
    answer_ok(world.alloc)
}

// `records NAME OF CHANGES`: the bytes with the records of the changes after them.
fn records<S: Sequence>(world: &mut World<S>, words: &mut Words) -> Result<String, Fault> {
    let name = words.next()?;
    let bytes = Vec::from_slice(world.alloc, world.bytes.get(words.next()?)?)?;
    let changes = copies(&world.changes, &world.documents, words.next()?)?;
    let bytes = put_records(bytes, &changes)?;
    world.bytes.put(name, bytes)?;
    answer_ok(world.alloc)
}

// `record NAME CHANGE`: the bytes of the change's record.
fn keep_record<S: Sequence>(world: &mut World<S>, words: &mut Words) -> Result<String, Fault> {
    let name = words.next()?;
    let change = world.changes.get(words.next()?)?;
    let bytes = record(world.alloc, change).map_err(fault_of)?;
    world.bytes.put(name, bytes)?;
    answer_ok(world.alloc)
}

fn sizes_of<S: Sequence>(alloc: Global, document: &Document<S>) -> Result<String, Fault> {
    match save(alloc, document) {
        Ok(saved) => {
            let journal = journal_of(alloc, document)?.len();
            Ok(format!(in alloc; "saved {}, journal {journal}", saved.len())?)
        }
        Err(error) => refusal(alloc, error),
    }
}

// `sizes CHANGES`: how many bytes a document with these changes has, saved and as a journal.
fn sizes<S: Sequence>(world: &World<S>, words: &mut Words) -> Result<String, Fault> {
    let changes = copies(&world.changes, &world.documents, words.next()?)?;
    let document: Document<S> = document_of(world.alloc, DocId([7; 16]), changes)?;
    sizes_of(world.alloc, &document)
}

/// Makes such a call; `None` where the word is none of these.
pub fn call<S: Sequence>(
    world: &mut World<S>,
    word: &str,
    words: &mut Words,
) -> Option<Result<String, Fault>> {
    Some(match word {
        "save" => make(world, false, words),
        "journal" => make(world, true, words),
        "record" => keep_record(world, words),
        "records" => records(world, words),
        "sizes" => sizes(world, words),
        _ => return None,
    })
}
