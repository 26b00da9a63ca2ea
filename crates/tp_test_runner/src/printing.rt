//! Values as answers print them.

use crate::fault::Fault;
use crate::lists::UNKNOWN;
use crate::shelf::Shelf;
use std::alloc::Global;
use std::fmt::Display;
use tp_change::{Change, Op, Record};
use tp_opid::{Actor, Hash, OpId, Place};

/// How many names a list is printed with; a longer one is printed as their number.
const MOST_NAMES: usize = 12;

// Whether the text is one character many times, and then which.
fn repeated_char(text: &str) -> Option<char> {
    let first = text.chars().next()?;
    if text.len() > 16 && text.chars().all(|ch| ch == first) {
        Some(first)
    } else {
        None
    }
}

/// Adds a text in quotes, its newlines as `\n`; a long one of one character as that and its number.
pub fn put_text(out: &mut String, text: &str) -> Result<(), Fault> {
    if let Some(ch) = repeated_char(text) {
        let count = text.chars().count();
        write!(out, "\"{ch}\"*{count}")?;
        return Ok(());
    }
    out.push('"')?;
    for ch in text.chars() {
        if ch == '\n' {
            out.push_str("\\n")?;
        } else {
            out.push(ch)?;
        }
    }
    out.push('"')?;
    Ok(())
}

/// A text in quotes, as [`put_text`] adds it.
pub fn in_quotes(alloc: Global, text: &str) -> Result<String, Fault> {
    let mut out = String::new(alloc);
    put_text(&mut out, text)?;
    Ok(out)
}

/// Adds an actor: the number of its last two bytes.
pub fn put_actor(out: &mut String, actor: &Actor) -> Result<(), Fault> {
    let number = u16::from_be_bytes([actor.0[14], actor.0[15]]);
    write!(out, "{number}")?;
    Ok(())
}

/// Adds an identifier.
pub fn put_id(out: &mut String, id: &OpId) -> Result<(), Fault> {
    let counter = id.counter;
    write!(out, "{counter}@")?;
    put_actor(out, &id.actor)
}

/// Adds a reference.
pub fn put_place(out: &mut String, place: &Place) -> Result<(), Fault> {
    match place {
        Place::Start => Ok(out.push_str("start")?),
        Place::After(id) => put_id(out, id),
    }
}

/// Adds a record.
pub fn put_record(out: &mut String, record: &Record) -> Result<(), Fault> {
    match record {
        Record::Delete { target } => {
            out.push('-')?;
            put_id(out, target)
        }
        Record::DeleteRun { first, count } => {
            out.push('-')?;
            put_id(out, first)?;
            write!(out, "*{count}")?;
            Ok(())
        }
        Record::Insert { after, text } => {
            put_place(out, after)?;
            out.push('+')?;
            put_text(out, text.as_str())
        }
    }
}

/// Adds an operation.
pub fn put_op(out: &mut String, op: &Op) -> Result<(), Fault> {
    match op {
        Op::Delete { id, target } => {
            put_id(out, id)?;
            out.push_str(":-")?;
            put_id(out, target)
        }
        Op::Insert { id, after, ch } => {
            put_id(out, id)?;
            out.push(':')?;
            put_place(out, after)?;
            write!(out, "+{ch}")?;
            Ok(())
        }
    }
}

/// Adds the name of the change with the hash, or `unknown`, or its digits.
pub fn put_name(changes: &Shelf<Change>, out: &mut String, hash: &Hash) -> Result<(), Fault> {
    for (name, change) in changes.all() {
        if change.hash().is(hash) {
            return Ok(out.push_str(name.as_str())?);
        }
    }
    if hash.is(&UNKNOWN) {
        return Ok(out.push_str("unknown")?);
    }
    match hash.to_text(changes.alloc()) {
        Ok(digits) => Ok(out.push_str(digits.as_str())?),
        Err(_) => Err(Fault::Memory),
    }
}

/// Adds a list of names, or how many there are.
pub fn put_names(changes: &Shelf<Change>, out: &mut String, hashes: &[Hash]) -> Result<(), Fault> {
    let count = hashes.len();
    if count > MOST_NAMES {
        write!(out, "[{count} changes]")?;
        return Ok(());
    }
    out.push('[')?;
    for (i, hash) in hashes.iter().enumerate() {
        if i > 0 {
            out.push(',')?;
        }
        put_name(changes, out, hash)?;
    }
    out.push(']')?;
    Ok(())
}

/// Adds the number and the name of an error, after a comma where something is before it.
pub fn put_error(out: &mut String, code: u8, error: impl Display + Drop) -> Result<(), Fault> {
    let comma = if out.is_empty() { "" } else { ", " };
    write!(out, "{comma}{code} {error}")?;
    Ok(())
}

// The hashes of changes.
fn hashes_of(alloc: Global, changes: &[Change]) -> Result<Vec<Hash>, Fault> {
    let mut hashes = Vec::new(alloc);
    for change in changes {
        hashes.push(change.hash())?;
    }
    Ok(hashes)
}

/// The names of hashes.
pub fn names(changes: &Shelf<Change>, hashes: &[Hash]) -> Result<String, Fault> {
    let mut out = String::new(changes.alloc());
    put_names(changes, &mut out, hashes)?;
    Ok(out)
}

/// The names of these changes.
pub fn names_of(changes: &Shelf<Change>, these: &[Change]) -> Result<String, Fault> {
    let hashes = hashes_of(changes.alloc(), these)?;
    names(changes, &hashes)
}
