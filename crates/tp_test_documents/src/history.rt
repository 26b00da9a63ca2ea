//! Calls that read a document.

use crate::differences;
use crate::lists::hashes;
use crate::world::World;
use std::alloc::Global;
use tp_change::Change;
use tp_document::Document;
use tp_opid::Hash;
use tp_rga::Sequence;
use tp_test_runner::{
    Fault, Words, answer_ok, answer_position, answer_text, count, names, refusal,
};

// `text_at DOCUMENT HASHES`.
fn text_at<S: Sequence>(
    document: &Document<S>,
    world: &World<S>,
    words: &mut Words,
) -> Result<String, Fault> {
    let at = hashes(world, words.next()?)?;
    answer_text(world.alloc, document.text_at(&at))
}

// `len DOCUMENT`.
fn len<S: Sequence>(alloc: Global, document: &Document<S>) -> Result<String, Fault> {
    let len = document.len();
    Ok(format!(in alloc; "{len}")?)
}

// `len_at DOCUMENT HASHES`.
fn len_at<S: Sequence>(
    document: &Document<S>,
    world: &World<S>,
    words: &mut Words,
) -> Result<String, Fault> {
    let at = hashes(world, words.next()?)?;
    answer_position(world.alloc, document.len_at(&at))
}

// `char_at DOCUMENT PLACE`.
fn char_at<S: Sequence>(
    alloc: Global,
    document: &Document<S>,
    words: &mut Words,
) -> Result<String, Fault> {
    match document.char_at(count(words.next()?)?) {
        Some(ch) => Ok(format!(in alloc; "{ch}")?),
        None => Ok(String::from_str(alloc, "none")?),
    }
}

// `position DOCUMENT CURSOR`.
fn position<S: Sequence>(
    document: &Document<S>,
    world: &World<S>,
    words: &mut Words,
) -> Result<String, Fault> {
    let cursor = world.cursors.get(words.next()?)?;
    answer_position(world.alloc, document.cursor_position(cursor))
}

// `position_at DOCUMENT CURSOR HASHES`.
fn position_at<S: Sequence>(
    document: &Document<S>,
    world: &World<S>,
    words: &mut Words,
) -> Result<String, Fault> {
    let cursor = world.cursors.get(words.next()?)?;
    let at = hashes(world, words.next()?)?;
    answer_position(world.alloc, document.cursor_position_at(cursor, &at))
}

// `get DOCUMENT HASHES`: those of the changes that are there.
fn get<S: Sequence>(
    document: &Document<S>,
    world: &World<S>,
    words: &mut Words,
) -> Result<String, Fault> {
    let asked = hashes(world, words.next()?)?;
    let mut found = Vec::new(world.alloc);
    for hash in &asked {
        if let Some(change) = document.get(hash) {
            found.push(change.hash())?;
        }
    }
    names(&world.changes, &found)
}

// `check DOCUMENT CHANGE`.
fn check<S: Sequence>(
    document: &Document<S>,
    world: &World<S>,
    words: &mut Words,
) -> Result<String, Fault> {
    match document.graph().check(world.changes.get(words.next()?)?) {
        Ok(()) => answer_ok(world.alloc),
        Err(error) => refusal(world.alloc, error),
    }
}

// `missing DOCUMENT`.
fn missing<S: Sequence>(document: &Document<S>, world: &World<S>) -> Result<String, Fault> {
    match document.missing() {
        Ok(hashes) => names(&world.changes, &hashes),
        Err(error) => refusal(world.alloc, error),
    }
}

// The hashes of the changes.
fn hashes_of(alloc: Global, changes: &[&Change]) -> Result<Vec<Hash>, Fault> {
    let mut found = Vec::with_capacity(alloc, changes.len())?;
    for change in changes {
        found.push(change.hash())?;
    }
    Ok(found)
}

// `since DOCUMENT HASHES`.
fn since<S: Sequence>(
    document: &Document<S>,
    world: &World<S>,
    words: &mut Words,
) -> Result<String, Fault> {
    let at = hashes(world, words.next()?)?;
    match document.changes_since(&at) {
        Ok(changes) => names(&world.changes, &hashes_of(world.alloc, &changes)?),
        Err(error) => refusal(world.alloc, error),
    }
}

/// Makes a call `WORD DOCUMENT ..` that reads the document.
pub fn call<S: Sequence>(
    document: &Document<S>,
    world: &World<S>,
    word: &str,
    words: &mut Words,
) -> Result<String, Fault> {
    match word {
        "text_at" => text_at(document, world, words),
        "len" => len(world.alloc, document),
        "len_at" => len_at(document, world, words),
        "char_at" => char_at(world.alloc, document, words),
        "get" => get(document, world, words),
        "position" => position(document, world, words),
        "position_at" => position_at(document, world, words),
        "check" => check(document, world, words),
        "missing" => missing(document, world),
        "since" => since(document, world, words),
        "differences" => differences::between(document, world, words),
        "differences_since" => differences::since(document, world, words),
        "effect" => differences::effect(document, world, words),
        _ => Err(Fault::Row("no such call")),
    }
}
