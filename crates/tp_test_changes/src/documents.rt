//! Calls on documents that receive.

use crate::world::{Doc, World};
use std::alloc::Global;
use tp_test_runner::{Fault, Words, copies, read_document, reply};

// `apply DOCUMENT CHANGES`.
fn apply(world: &mut World, words: &mut Words) -> Result<String, Fault> {
    let on = words.next()?;
    let came = copies(&world.changes, &world.documents, words.next()?)?;
    let answer = world.documents.get_mut(on)?.apply(came);
    reply(&world.changes, answer)
}

// How many characters a document has, how many applied changes, how many heads, and how many changes wait in it.
fn sizes(alloc: Global, document: &Doc) -> Result<String, Fault> {
    let (len, changes) = (document.len(), document.changes().len());
    let (heads, waiting) = (document.heads().len(), document.pending_len());
    Ok(format!(in alloc; "{len} characters, {changes} changes, {heads} heads, {waiting} wait")?)
}

// `text DOCUMENT`, `heads DOCUMENT`, `changes DOCUMENT`, `pending DOCUMENT`, `sizes DOCUMENT`.
fn read(world: &World, word: &str, words: &mut Words) -> Result<String, Fault> {
    let document = world.documents.get(words.next()?)?;
    match read_document(&world.changes, document, word) {
        Some(answer) => answer,
        None => sizes(world.alloc, document),
    }
}

/// Makes a call that puts changes into a document or reads one; `None` where the word is none of these.
pub fn call(world: &mut World, word: &str, words: &mut Words) -> Option<Result<String, Fault>> {
    Some(match word {
        "apply" => apply(world, words),
        "text" | "heads" | "changes" | "pending" | "sizes" => read(world, word, words),
        _ => return None,
    })
}
