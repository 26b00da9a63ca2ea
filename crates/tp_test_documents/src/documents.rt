//! Calls on documents by heads and places, and what enters with no check.

use crate::lists::hashes;
use crate::world::World;
use std::alloc::Global;
use tp_change::Change;
use tp_document::Document;
use tp_rga::Sequence;
use tp_test_runner::{Fault, Shelf, Words, answer_ok, copy, count, keep_document, refusal};

// `fork_at NEW DOCUMENT HASHES`.
fn fork_at<S: Sequence>(world: &mut World<S>, words: &mut Words) -> Result<String, Fault> {
    let name = words.next()?;
    let on = words.next()?;
    let at = hashes(world, words.next()?)?;
    let made = world.documents.get(on)?.fork_at(&at);
    keep_document(&mut world.documents, name, made)
}

// `name NAME DOCUMENT PLACE`: names an applied change, by its place in applied order.
fn name<S: Sequence>(
    changes: &mut Shelf<Change>,
    documents: &Shelf<Document<S>>,
    words: &mut Words,
) -> Result<String, Fault> {
    let name = words.next()?;
    let there = documents.get(words.next()?)?.changes();
    let at = count(words.next()?)?;
    let change = copy(there.get(at).ok_or(Fault::Row("there is no change"))?)?;
    changes.put(name, change)?;
    answer_ok(changes.alloc())
}

// `forget DOCUMENT`: drops what waits.
fn forget<S: Sequence>(
    documents: &mut Shelf<Document<S>>,
    words: &mut Words,
) -> Result<String, Fault> {
    documents.get_mut(words.next()?)?.forget_pending();
    answer_ok(documents.alloc())
}

// `enter DOCUMENT CHANGE`: `ready`, and then `enter`.
fn enter<S: Sequence>(
    documents: &mut Shelf<Document<S>>,
    changes: &Shelf<Change>,
    words: &mut Words,
) -> Result<String, Fault> {
    let alloc = changes.alloc();
    let document = documents.get_mut(words.next()?)?;
    let change = copy(changes.get(words.next()?)?)?;
    enter_ready(alloc, document, change)
}

fn enter_ready<S: Sequence>(
    alloc: Global,
    document: &mut Document<S>,
    change: Change,
) -> Result<String, Fault> {
    match document.ready(&change) {
        Ok(()) => {
            document.enter(change);
            answer_ok(alloc)
        }
        Err(error) => refusal(alloc, error),
    }
}

/// Makes such a call; `None` where the word is none of these.
pub fn call<S: Sequence>(
    world: &mut World<S>,
    word: &str,
    words: &mut Words,
) -> Option<Result<String, Fault>> {
    Some(match word {
        "name" => name(&mut world.changes, &world.documents, words),
        "fork_at" => fork_at(world, words),
        "forget" => forget(&mut world.documents, words),
        "enter" => enter(&mut world.documents, &world.changes, words),
        _ => return None,
    })
}
