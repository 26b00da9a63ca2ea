//! What the folder holds, before and after a run.

use crate::paths::{FOLDER, inside};
use std::alloc::Global;
use std::fs::DirEntry;
use std::io::ErrorKind;
use std::rt::Files;
use std::{fs, io};
use tp_test_runner::Fault;

/// A file of the folder with its bytes, or a folder in it.
#[derive(Drop)]
pub struct Entry {
    /// Its name.
    pub name: String,
    /// Its bytes; of a folder, and of a link that leads nowhere, none.
    pub bytes: Option<Vec<u8>>,
}

/// Why a row couldn't be run, where a file of its own couldn't be read or written.
pub fn fault(error: &io::Error) -> Fault {
    if error.kind() == ErrorKind::OutOfMemory {
        Fault::Memory
    } else {
        Fault::Row("a file of the row can't be read or written")
    }
}

/// Removes the folder, where it is there.
pub fn remove<R: Files + AllocGlobal>(rt: &R) {
    let _ = fs::remove_dir_all(rt, FOLDER);
}

/// Makes the folder, with nothing in it.
pub fn make<R: Files + AllocGlobal>(rt: &R) -> Result<(), Fault> {
    remove(rt);
    match fs::create_dir(rt, FOLDER) {
        Ok(()) => Ok(()),
        Err(error) => Err(fault(&error)),
    }
}

// What is in the folder under the name.
fn entry_at<R: Files + AllocGlobal>(rt: &R, name: &str, is_empty: bool) -> io::Result<Entry> {
    let bytes = if is_empty {
        None
    } else {
        Some(fs::read(rt, inside(rt.alloc(), name)?.as_str())?)
    };
    Ok(Entry {
        name: String::from_str(rt.alloc(), name)?,
        bytes,
    })
}

fn entry_of<R: Files + AllocGlobal>(rt: &R, found: &DirEntry<R, Global>) -> io::Result<Entry> {
    let name = found.file_name();
    let kind = found.file_type()?;
    let leads_nowhere = kind.is_symlink() && !fs::exists(rt, inside(rt.alloc(), name)?.as_str())?;
    entry_at(rt, name, kind.is_dir() || leads_nowhere)
}

fn all_of<R: Files + AllocGlobal + Clone + Drop>(rt: &R) -> io::Result<Vec<Entry>> {
    let mut entries = Vec::new(rt.alloc());
    for found in fs::read_dir(rt, FOLDER)? {
        entries.push(entry_of(rt, &found?)?)?;
    }
    Ok(entries)
}

/// What the folder holds.
pub fn entries_of<R: Files + AllocGlobal + Clone + Drop>(rt: &R) -> Result<Vec<Entry>, Fault> {
    match all_of(rt) {
        Ok(entries) => Ok(entries),
        Err(error) => Err(fault(&error)),
    }
}

// Puts an entry back into the folder.
fn put_back<R: Files + AllocGlobal>(rt: &R, entry: &Entry) -> io::Result<()> {
    let path = inside(rt.alloc(), entry.name.as_str())?;
    match &entry.bytes {
        Some(bytes) => fs::write(rt, path.as_str(), bytes.as_slice()),
        None => fs::create_dir(rt, path.as_str()),
    }
}

/// Makes the folder hold just these entries.
pub fn restore<R: Files + AllocGlobal>(rt: &R, entries: &[Entry]) -> Result<(), Fault> {
    make(rt)?;
    for entry in entries {
        if let Err(error) = put_back(rt, entry) {
            return Err(fault(&error));
        }
    }
    Ok(())
}

// The entry of that name.
fn entry_of_name<'a>(entries: &'a [Entry], name: &str) -> Option<&'a Entry> {
    entries.iter().find(|entry| entry.name.as_str() == name)
}

// Whether the bytes are those of an entry.
fn is_as_before(before: Option<&Entry>, bytes: &Option<Vec<u8>>) -> bool {
    match (before, bytes) {
        (
            Some(
                Entry {
                    bytes: Some(old),
                    ..
                },
            ),
            Some(new),
        ) => old.as_slice() == new.as_slice(),
        (Some(Entry { bytes: None, .. }), None) => true,
        _ => false,
    }
}

// The names of the files that are new or have other bytes than before, in their order, and after a hyphen those
// of files that are gone.
fn changed_names(alloc: Global, before: &[Entry], after: &[Entry]) -> Result<Vec<String>, Fault> {
    let mut names = Vec::new(alloc);
    for entry in after {
        let name = entry.name.as_str();
        if !is_as_before(entry_of_name(before, name), &entry.bytes) {
            names.push(String::from_str(alloc, name)?)?;
        }
    }
    push_gone(alloc, &mut names, before, after)?;
    names.sort()?;
    Ok(names)
}

fn push_gone(
    alloc: Global,
    names: &mut Vec<String>,
    before: &[Entry],
    after: &[Entry],
) -> Result<(), Fault> {
    for entry in before {
        let name = entry.name.as_str();
        if entry_of_name(after, name).is_none() {
            names.push(format!(in alloc; "-{name}")?)?;
        }
    }
    Ok(())
}

/// Adds `, changed NAME ..`, where files are new or have other bytes than before, and of one that is gone `-NAME`.
pub fn put_changes(out: &mut String, before: &[Entry], after: &[Entry]) -> Result<(), Fault> {
    let names = changed_names(*out.allocator(), before, after)?;
    if !names.is_empty() {
        out.push_str(", changed")?;
    }
    for name in &names {
        out.push(' ')?;
        out.push_str(name.as_str())?;
    }
    Ok(())
}
