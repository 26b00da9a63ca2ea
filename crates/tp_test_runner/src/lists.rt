//! Lists in brackets, of changes and of their hashes.

use crate::fault::Fault;
use crate::literals::count;
use crate::shelf::Shelf;
use tp_change::Change;
use tp_document::Document;
use tp_opid::Hash;
use tp_rga::Sequence;

/// The hash that the word `unknown` stands for, which no change of the rows has.
pub const UNKNOWN: Hash = Hash([7; 32]);

/// What is between the brackets of a list: its items, separated by commas.
pub fn inside(word: &str) -> Result<&str, Fault> {
    let fault = Fault::Row("no list");
    let (inside, beyond) = word
        .strip_prefix('[')
        .ok_or(fault)?
        .split_once(']')
        .ok_or(fault)?;
    if beyond.is_empty() {
        Ok(inside)
    } else {
        Err(fault)
    }
}

// Adds hashes that begin with the numbers from 0 on, so they rise.
fn push_rising(hashes: &mut Vec<Hash>, number: &str) -> Result<(), Fault> {
    let number = number.parse::<u32>().ok().ok_or(Fault::Row("no number"))?;
    for i in 0..number {
        let [a, b, c, d] = i.to_be_bytes();
        let mut bytes = [0; 32];
        bytes[0] = a;
        bytes[1] = b;
        bytes[2] = c;
        bytes[3] = d;
        hashes.push(Hash(bytes))?;
    }
    Ok(())
}

/// Adds the hashes that an item stands for: the name of a change, `unknown`, or `rising:N` for N hashes of no change,
/// which rise.
pub fn push_hashes(
    changes: &Shelf<Change>,
    hashes: &mut Vec<Hash>,
    item: &str,
) -> Result<(), Fault> {
    if item == "unknown" {
        return Ok(hashes.push(UNKNOWN)?);
    }
    if let Some(number) = item.strip_prefix("rising:") {
        return push_rising(hashes, number);
    }
    hashes.push(changes.get(item)?.hash())?;
    Ok(())
}

/// Hashes: `[]`, or items in brackets, parted by commas, each as [`push_hashes`] takes it.
pub fn hashes(changes: &Shelf<Change>, word: &str) -> Result<Vec<Hash>, Fault> {
    let mut hashes = Vec::new(changes.alloc());
    let inside = inside(word)?;
    if !inside.is_empty() {
        for item in inside.split(',') {
            push_hashes(changes, &mut hashes, item)?;
        }
    }
    Ok(hashes)
}

/// A copy of a change.
pub fn copy(change: &Change) -> Result<Change, Fault> {
    change.copy().ok().ok_or(Fault::Memory)
}

/// A range: `FROM..TO`.
pub fn range(word: &str) -> Result<(usize, usize), Fault> {
    let (from, to) = word.split_once("..").ok_or(Fault::Row("no range"))?;
    Ok((count(from)?, count(to)?))
}

// The changes from one place up to, but without, another.
fn between(there: &[Change], from: usize, to: usize) -> &[Change] {
    there.get(from..to.min(there.len())).unwrap_or(&[])
}

// Adds copies of changes from one place up to, but without, another.
fn push_range(
    changes: &mut Vec<Change>,
    there: &[Change],
    from: usize,
    to: usize,
) -> Result<(), Fault> {
    for change in between(there, from, to) {
        changes.push(copy(change)?)?;
    }
    Ok(())
}

// Adds copies of changes from before one place down to another.
fn push_range_back(
    changes: &mut Vec<Change>,
    there: &[Change],
    from: usize,
    to: usize,
) -> Result<(), Fault> {
    for change in between(there, to, from).iter().rev() {
        changes.push(copy(change)?)?;
    }
    Ok(())
}

// Adds copies of a document's applied changes in a range of places, `3..5`, or `5..3` for the other way round.
fn push_places(changes: &mut Vec<Change>, there: &[Change], places: &str) -> Result<(), Fault> {
    let (from, to) = range(places)?;
    if from <= to {
        push_range(changes, there, from, to)
    } else {
        push_range_back(changes, there, from, to)
    }
}

fn push_named(made: &mut Vec<Change>, changes: &Shelf<Change>, name: &str) -> Result<(), Fault> {
    made.push(copy(changes.get(name)?)?)?;
    Ok(())
}

// Adds copies of the changes that an item stands for.
fn push_changes<S: Sequence>(
    changes: &Shelf<Change>,
    documents: &Shelf<Document<S>>,
    made: &mut Vec<Change>,
    item: &str,
) -> Result<(), Fault> {
    match item.split_once(':') {
        Some((name, places)) => push_places(made, documents.get(name)?.changes(), places),
        None => push_named(made, changes, item),
    }
}

/// Copies of changes: `[]`, or items in brackets, parted by commas. An item is the name of a change, or `NAME:3..5`
/// for a document's applied changes at the places 3 and 4, or `NAME:5..3` for these the other way round.
pub fn copies<S: Sequence>(
    changes: &Shelf<Change>,
    documents: &Shelf<Document<S>>,
    word: &str,
) -> Result<Vec<Change>, Fault> {
    let mut made = Vec::new(changes.alloc());
    let inside = inside(word)?;
    if !inside.is_empty() {
        for item in inside.split(',') {
            push_changes(changes, documents, &mut made, item)?;
        }
    }
    Ok(made)
}
