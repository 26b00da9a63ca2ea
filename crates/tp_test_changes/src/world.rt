//! What the rows of an example have made so far, and what makes their calls.

use crate::{
    changes, documents, errors, exchanges, identifiers, judges, layouts, logs, messages, pieces,
    splices, states, streams,
};
use std::alloc::Global;
use tp_change::Change;
use tp_document::Document;
use tp_frame::Framer;
use tp_posindex::BlockSequence;
use tp_sync::{Message, SyncState};
use tp_test_runner::{
    Calls, Fault, Shelf, Words, call_on_bytes, call_on_documents, call_on_fields,
};

/// A document of the rows.
pub type Doc = Document<BlockSequence>;

/// What the rows of an example have made so far.
#[derive(Drop)]
pub struct World {
    /// Where all of it lies.
    pub alloc: Global,
    /// Changes.
    pub changes: Shelf<Change>,
    /// Documents.
    pub documents: Shelf<Doc>,
    /// What documents know of other ones.
    pub states: Shelf<SyncState>,
    /// Messages that were made, whether they are received or not.
    pub messages: Shelf<Message>,
    /// Changes, logs, messages and streams of frames, as bytes.
    pub bytes: Shelf<Vec<u8>>,
    /// Framers.
    pub framers: Shelf<Framer>,
}

impl World {
    /// Nothing made yet.
    pub fn new(alloc: Global) -> World {
        World {
            alloc,
            changes: Shelf::new(alloc),
            documents: Shelf::new(alloc),
            states: Shelf::new(alloc),
            messages: Shelf::new(alloc),
            bytes: Shelf::new(alloc),
            framers: Shelf::new(alloc),
        }
    }
}

// Makes a call that other programs of rows make too.
fn common(world: &mut World, word: &str, words: &mut Words) -> Option<Result<String, Fault>> {
    if let Some(answer) = call_on_fields(&mut world.changes, word, words) {
        return Some(answer);
    }
    if let Some(answer) = call_on_bytes(&world.changes, &mut world.bytes, word, words) {
        return Some(answer);
    }
    call_on_documents(&mut world.changes, &mut world.documents, word, words)
}

// Makes a call on changes alone, and on bytes and logs.
fn alone(world: &mut World, word: &str, words: &mut Words) -> Option<Result<String, Fault>> {
    if let Some(answer) = changes::call(&mut world.changes, &world.bytes, word, words) {
        return Some(answer);
    }
    if let Some(answer) = judges::call(&world.bytes, word, words) {
        return Some(answer);
    }
    if let Some(answer) = logs::call(&world.bytes, word, words) {
        return Some(answer);
    }
    if let Some(answer) = pieces::call(&world.bytes, word, words) {
        return Some(answer);
    }
    if let Some(answer) = splices::call(world.alloc, word, words) {
        return Some(answer);
    }
    identifiers::call(world.alloc, word, words)
}

// Makes a call on what carries changes.
fn call_on_carriers(world: &mut World, word: &str, words: &mut Words) -> Result<String, Fault> {
    if let Some(answer) = documents::call(world, word, words) {
        return answer;
    }
    if let Some(answer) = messages::call(world, word, words) {
        return answer;
    }
    if let Some(answer) = states::call(world, word, words) {
        return answer;
    }
    if let Some(answer) = streams::call(world, word, words) {
        return answer;
    }
    match word {
        "laid_out" => layouts::call(world, 1, words),
        "laid_out_2" => layouts::call(world, 2, words),
        "exchange" => exchanges::call(world, words),
        "errors" => errors::call(world.alloc, words),
        _ => Err(Fault::Row("no such call")),
    }
}

impl Calls for World {
    fn call(&mut self, words: &mut Words) -> Result<String, Fault> {
        let word = words.next()?;
        if let Some(answer) = common(self, word, words) {
            return answer;
        }
        if let Some(answer) = alone(self, word, words) {
            return answer;
        }
        call_on_carriers(self, word, words)
    }

    fn clear(&mut self) {
        self.changes.clear();
        self.documents.clear();
        self.states.clear();
        self.messages.clear();
        self.bytes.clear();
        self.framers.clear();
    }

    fn is_partial(&self, row: &str) -> bool {
        row.starts_with("apply") || row.starts_with("receive") || row.starts_with("exchange")
    }
}
