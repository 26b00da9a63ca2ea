//! Bytes laid out as a message, whatever its limits.

use crate::world::World;
use std::alloc::Global;
use tp_change::Change;
use tp_opid::Hash;
use tp_test_runner::{Fault, Shelf, Words, answer_ok, count, hashes, inside};

fn put_count(out: &mut Vec<u8>, count: usize) -> Result<(), Fault> {
    let count = u32::try_from(count).ok().ok_or(Fault::Row("too many"))?;
    Ok(out.extend_from_slice(&count.to_be_bytes())?)
}

fn put_hashes(out: &mut Vec<u8>, hashes: &[Hash]) -> Result<(), Fault> {
    put_count(out, hashes.len())?;
    for hash in hashes {
        out.extend_from_slice(&hash.0)?;
    }
    Ok(())
}

fn put_change(out: &mut Vec<u8>, change: &Change) -> Result<(), Fault> {
    let bytes = change.encode().ok().ok_or(Fault::Memory)?;
    put_count(out, bytes.len())?;
    Ok(out.extend_from_slice(&bytes)?)
}

// How often a change is listed, and its name: `3*NAME`, or `NAME` for once.
fn times_and_name(item: &str) -> Result<(usize, &str), Fault> {
    match item.split_once('*') {
        Some((times, name)) => Ok((count(times)?, name)),
        None => Ok((1, item)),
    }
}

fn put_often(out: &mut Vec<u8>, change: &Change, times: usize) -> Result<(), Fault> {
    for _ in 0..times {
        put_change(out, change)?;
    }
    Ok(())
}

// The changes without their number; answers that.
fn put_changes(out: &mut Vec<u8>, changes: &Shelf<Change>, items: &str) -> Result<usize, Fault> {
    let mut total = 0usize;
    for item in items.split(',') {
        let (times, name) = times_and_name(item)?;
        put_often(out, changes.get(name)?, times)?;
        total = total.saturating_add(times);
    }
    Ok(total)
}

// The bytes of a message of version 1 or 2, by the hashes and changes that the words list.
fn laid_out(
    alloc: Global,
    changes: &Shelf<Change>,
    version: u8,
    words: &mut Words,
) -> Result<Vec<u8>, Fault> {
    let mut out = Vec::new(alloc);
    out.push(version)?;
    for _ in 0..=version {
        put_hashes(&mut out, &hashes(changes, words.next()?)?)?;
    }
    let items = inside(words.next()?)?;
    let mut carried = Vec::new(alloc);
    let total = if items.is_empty() {
        0
    } else {
        put_changes(&mut carried, changes, items)?
    };
    put_count(&mut out, total)?;
    out.extend_from_slice(&carried)?;
    Ok(out)
}

/// `laid_out NAME HASHES HASHES CHANGES`: the bytes of a message of version 1 with these heads, wants and changes;
/// `laid_out_2 NAME HASHES HASHES HASHES CHANGES` of version 2 with these heads, wants, known hashes and changes.
pub fn call(world: &mut World, version: u8, words: &mut Words) -> Result<String, Fault> {
    let name = words.next()?;
    let bytes = laid_out(world.alloc, &world.changes, version, words)?;
    world.bytes.put(name, bytes)?;
    answer_ok(world.alloc)
}
