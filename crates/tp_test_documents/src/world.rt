//! What the rows of an example have made so far, and what makes their calls.

use crate::{
    blocks, cursors, documents, edits, elements, errors, graphs, history, orders, receiving,
    restored, saved,
};
use std::alloc::Global;
use tp_change::Change;
use tp_document::{Cursor, Document};
use tp_graph::Graph;
use tp_rga::Sequence;
use tp_test_runner::{
    Calls, Fault, Shelf, Words, call_on_bytes, call_on_documents, call_on_fields, read_document,
};

/// What the rows of an example have made so far, with texts kept in sequences of one kind.
#[derive(Drop)]
pub struct World<S: Sequence> {
    /// Where all of it lies.
    pub alloc: Global,
    /// Changes.
    pub changes: Shelf<Change>,
    /// Documents.
    pub documents: Shelf<Document<S>>,
    /// Graphs.
    pub graphs: Shelf<Graph>,
    /// Cursors.
    pub cursors: Shelf<Cursor>,
    /// Sequences.
    pub sequences: Shelf<S>,
    /// Saved files, journals, and what alters them.
    pub bytes: Shelf<Vec<u8>>,
}

impl<S: Sequence> World<S> {
    /// Nothing made yet.
    pub fn new(alloc: Global) -> World<S> {
        World {
            alloc,
            changes: Shelf::new(alloc),
            documents: Shelf::new(alloc),
            graphs: Shelf::new(alloc),
            cursors: Shelf::new(alloc),
            sequences: Shelf::new(alloc),
            bytes: Shelf::new(alloc),
        }
    }
}

// Makes a call that other programs of rows make too.
fn common<S: Sequence>(
    world: &mut World<S>,
    word: &str,
    words: &mut Words,
) -> Option<Result<String, Fault>> {
    if let Some(answer) = call_on_fields(&mut world.changes, word, words) {
        return Some(answer);
    }
    if let Some(answer) = call_on_bytes(&world.changes, &mut world.bytes, word, words) {
        return Some(answer);
    }
    call_on_documents(&mut world.changes, &mut world.documents, word, words)
}

// Makes a call that makes or changes a document, a graph, a cursor, a sequence, or bytes.
fn change<S: Sequence>(
    world: &mut World<S>,
    word: &str,
    words: &mut Words,
) -> Option<Result<String, Fault>> {
    if word == "make_edit" {
        return Some(edits::call(world, words));
    }
    if let Some(answer) = documents::call(world, word, words) {
        return Some(answer);
    }
    if let Some(answer) = graphs::call(world, word, words) {
        return Some(answer);
    }
    if let Some(answer) = receiving::call(world, word, words) {
        return Some(answer);
    }
    if let Some(answer) = elements::call(world, word, words) {
        return Some(answer);
    }
    if let Some(answer) = saved::call(world, word, words) {
        return Some(answer);
    }
    cursors::call(world, word, words)
}

// Reads a document.
fn look_at<S: Sequence>(
    world: &World<S>,
    document: &Document<S>,
    word: &str,
    words: &mut Words,
) -> Result<String, Fault> {
    match read_document(&world.changes, document, word) {
        Some(answer) => answer,
        None => history::call(document, world, word, words),
    }
}

// Makes a call that changes nothing, on the document, the bytes or the graph with the name.
fn look_at_named<S: Sequence>(
    world: &World<S>,
    word: &str,
    words: &mut Words,
) -> Result<String, Fault> {
    let on = words.next()?;
    if let Ok(document) = world.documents.get(on) {
        return look_at(world, document, word, words);
    }
    if let Ok(bytes) = world.bytes.get(on) {
        return restored::look(world, word, bytes);
    }
    graphs::look(world.graphs.get(on)?, &world.changes, word, words)
}

// Makes a call that changes nothing.
fn look<S: Sequence>(world: &World<S>, word: &str, words: &mut Words) -> Result<String, Fault> {
    match word {
        "errors" => errors::call(world.alloc, words),
        "blocks" => blocks::call(world.alloc, words),
        "orders" => orders::call(world, words),
        _ => look_at_named(world, word, words),
    }
}

impl<S: Sequence> Calls for World<S> {
    fn call(&mut self, words: &mut Words) -> Result<String, Fault> {
        let word = words.next()?;
        if let Some(answer) = common(self, word, words) {
            return answer;
        }
        if let Some(answer) = change(self, word, words) {
            return answer;
        }
        look(self, word, words)
    }

    fn clear(&mut self) {
        self.changes.clear();
        self.documents.clear();
        self.graphs.clear();
        self.cursors.clear();
        self.sequences.clear();
        self.bytes.clear();
    }

    fn is_partial(&self, row: &str) -> bool {
        row.starts_with("apply") || row.starts_with("merge")
    }
}
