//! Calls that receive: lists that are applied, and merges.

use crate::world::World;
use std::alloc::Global;
use tp_change::Change;
use tp_document::{Applied, DocError, Document};
use tp_graph::Graph;
use tp_receive::{ReceiveError, receive};
use tp_rga::Sequence;
use tp_test_runner::{Fault, Few, Shelf, Words, copies, count, reply};

// A graph receives.
fn receive_some(
    alloc: Global,
    graph: &mut Graph,
    left: usize,
    came: Vec<Change>,
) -> Result<Applied, ReceiveError> {
    receive(alloc, graph, &mut Few { left }, came)
}

// A document receives, with a keeper where a number is given.
fn apply_some<S: Sequence>(
    document: &mut Document<S>,
    left: Option<usize>,
    came: Vec<Change>,
) -> Result<Applied, DocError> {
    match left {
        Some(left) => document.apply_with(came, &mut Few { left }),
        None => document.apply(came),
    }
}

// `apply ON CHANGES`, where a graph receives with a keeper that never refuses, or `apply_with KEPT ON CHANGES`: the
// keeper keeps `KEPT` changes and refuses those after them.
fn apply<S: Sequence>(
    world: &mut World<S>,
    left: Option<usize>,
    words: &mut Words,
) -> Result<String, Fault> {
    let on = words.next()?;
    let came = copies(&world.changes, &world.documents, words.next()?)?;
    if let Ok(graph) = world.graphs.get_mut(on) {
        let answer = receive_some(world.alloc, graph, left.unwrap_or(usize::MAX), came);
        return reply(&world.changes, answer);
    }
    let answer = apply_some(world.documents.get_mut(on)?, left, came);
    reply(&world.changes, answer)
}

// `merge INTO FROM`, or `merge_with KEPT INTO FROM`.
fn merge<S: Sequence>(
    world: &mut World<S>,
    left: Option<usize>,
    words: &mut Words,
) -> Result<String, Fault> {
    let answer = merge_named(&mut world.documents, left, words.next()?, words.next()?)?;
    reply(&world.changes, answer)
}

// Takes out the document that receives, so that the other one can be lent beside it.
fn merge_named<S: Sequence>(
    documents: &mut Shelf<Document<S>>,
    left: Option<usize>,
    into: &str,
    from: &str,
) -> Result<Result<Applied, DocError>, Fault> {
    let mut into = documents.take(into)?;
    let answer = match documents.get(from) {
        Ok(from) => Ok(merge_some(&mut into.1, left, from)),
        Err(fault) => Err(fault),
    };
    documents.put_back(into)?;
    answer
}

fn merge_some<S: Sequence>(
    into: &mut Document<S>,
    left: Option<usize>,
    from: &Document<S>,
) -> Result<Applied, DocError> {
    match left {
        Some(left) => into.merge_with(from, &mut Few { left }),
        None => into.merge(from),
    }
}

fn call_with<S: Sequence>(
    world: &mut World<S>,
    word: &str,
    words: &mut Words,
) -> Result<String, Fault> {
    let left = count(words.next()?)?;
    if word == "apply_with" {
        apply(world, Some(left), words)
    } else {
        merge(world, Some(left), words)
    }
}

/// Makes a call that receives changes; `None` where the word is none of these.
pub fn call<S: Sequence>(
    world: &mut World<S>,
    word: &str,
    words: &mut Words,
) -> Option<Result<String, Fault>> {
    Some(match word {
        "apply" => apply(world, None, words),
        "merge" => merge(world, None, words),
        "apply_with" | "merge_with" => call_with(world, word, words),
        _ => return None,
    })
}
