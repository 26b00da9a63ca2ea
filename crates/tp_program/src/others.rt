//! Other files in which whole records are looked for, and what records inserted.

ghost use Rattle.std.specs.Prelude.{◌≡◌, ◌++◌, length, map, IfOk, OnOk};
ghost use Rattle.std.specs.List.{flat_map};
ghost use Rattle.std.specs.String.{string_bytes};
ghost use Rattle.tp_program.specs.Rescuing.{AreOthers, AreTexts, Other, WasSearched, id_in, header_ids, ids_of_other, inserted_run, inserted_runs};

use std::alloc::{AllocError, Global};
use tp_change::{Change, Record};
use tp_commands::CommandError;
use tp_disk::Disk;
use tp_journal::{HEADER_BYTES, MAGIC};
use tp_opid::DocId;
use tp_recovery::whole_records;

/// What is in files in which whole records were looked for.
#[derive(Drop)]
pub(crate) struct Others {
    /// The changes of the records, in the order of the files and the records.
    pub(crate) changes: Vec<Change>,
    /// The identifiers in the headers of those that begin as a journal does, in their order.
    pub(crate) ids: Vec<DocId>,
}

// 16 bytes as an identifier.
fn id_of(bytes: &[u8]) -> DocId
    requires { length bytes.now ≡ 16 }
    ensures { result.0 ≡ bytes.now }
{
    let mut array = [0; 16];
    array.copy_from_slice(bytes);
    DocId(array)
}

// The identifier in the header of a journal, where the bytes begin with one.
fn header_id(bytes: &[u8]) -> Option<DocId>
    ensures { result ≡ id_in bytes.now }
{
    if bytes.starts_with(&MAGIC) {
        if HEADER_BYTES <= bytes.len() {
            let (_magic, beyond) = bytes.split_at(8);
            let (id, _rest) = beyond.split_at(16);
            Some(id_of(id))
        } else {
            None
        }
    } else {
        None
    }
}

// Puts the identifier after the others, if there is one.
fn put_id(ids: &mut Vec<DocId>, id: Option<DocId>) -> Result<(), CommandError>
    ensures { OnOk result (ids.new.items ≡ ids.old.items ++ header_ids id) }
{
    if let Some(id) = id {
        ids.push(id)?;
    }
    Ok(())
}

// Takes in what is in the file at the path.
fn read_other<D: Disk + AllocGlobal>(
    rt: &D,
    path: &str,
    others: &mut Others,
) -> Result<(), CommandError>
    ensures { OnOk result ((o : Other) × (o.path ≡ path.now) × WasSearched (D.saw rt.now) o
        × (others.new.changes.items ≡ others.old.changes.items ++ o.changes)
        × (others.new.ids.items ≡ others.old.ids.items ++ ids_of_other o)) }
{
    rt.check_journal(path)?;
    let bytes = rt.read(path)?;
    let (_records, mut changes) = whole_records(rt.alloc(), &bytes)?;
    others.changes.append(&mut changes)?;
    put_id(&mut others.ids, header_id(&bytes))
}

/// What is in the files at the paths. What can't be read as a journal is refused as `Io`.
pub(crate) fn read_others<D: Disk + AllocGlobal>(
    rt: &D,
    paths: &[&str],
) -> Result<Others, CommandError>
    ensures { IfOk result (λ o. AreOthers (D.saw rt.now) (map (λ p. p.now) paths.now)
        o.changes.items o.ids.items) }
{
    let mut others = Others {
        changes: Vec::new(rt.alloc()),
        ids: Vec::new(rt.alloc()),
    };
    for path in paths {
        read_other(rt, path, &mut others)?;
    }
    Ok(others)
}

// Puts what a record inserted.
fn put_inserted(text: &mut String, entry: &Record) -> Result<(), AllocError>
    ensures { OnOk result
        (string_bytes text.new ≡ string_bytes text.old ++ inserted_run entry.now) }
{
    match entry {
        Record::Insert { text: run, .. } => text.push_str(run.as_str()),
        Record::Delete { .. } => Ok(()),
        Record::DeleteRun { .. } => Ok(()),
    }
}

// Puts what a change inserted.
fn put_inserted_by(text: &mut String, change: &Change) -> Result<(), AllocError>
    ensures { OnOk result
        (string_bytes text.new ≡ string_bytes text.old ++ inserted_runs change.now) }
{
    for entry in change.records() {
        put_inserted(text, entry)?;
    }
    Ok(())
}

// Puts what the changes inserted, in their order.
fn put_texts(text: &mut String, changes: &[Change]) -> Result<(), AllocError>
    ensures { OnOk result
        (string_bytes text.new ≡ string_bytes text.old ++ flat_map inserted_runs changes.now) }
{
    for change in changes {
        put_inserted_by(text, change)?;
    }
    Ok(())
}

/// What the whole records anywhere in the bytes inserted, and then the other changes, in their order, and a newline. The
/// only refusal is `OutOfMemory`.
pub(crate) fn inserted_texts(
    alloc: Global,
    bytes: &[u8],
    more: &[Change],
) -> Result<String, CommandError>
    ensures { IfOk result (λ t. AreTexts bytes.now more.now (string_bytes t)) }
{
    let (_records, changes) = whole_records(alloc, bytes)?;
    let mut text = String::new(alloc);
    put_texts(&mut text, &changes)?;
    put_texts(&mut text, more)?;
    text.push('\n')?;
    Ok(text)
}
