//! What the rows of an example have made so far, and what makes their calls.

use crate::table::Table;
use crate::{cursors, edits, errors, links, meeting, peers, reads, running, seated, serving};
use std::alloc::Global;
use tp_change::Change;
use tp_document::Cursor;
use tp_journal::FuseJournal;
use tp_peer::Peer;
use tp_test_runner::{Calls, Fault, Shelf, Words, call_on_bytes, call_on_fields};

/// A peer of the rows.
pub type RowPeer = Peer<FuseJournal>;

/// What the rows of an example have made so far.
#[derive(Drop)]
pub struct World {
    /// Where all of it lies.
    pub alloc: Global,
    /// Changes.
    pub changes: Shelf<Change>,
    /// Peers. A session is held over a fork of one, which is dropped afterwards.
    pub peers: Shelf<RowPeer>,
    /// Served peers, each with its seats. One that is closed is among the peers.
    pub tables: Shelf<Table>,
    /// Journals, messages and streams, as bytes.
    pub bytes: Shelf<Vec<u8>>,
    /// Cursors, of no peer.
    pub cursors: Shelf<Cursor>,
}

impl World {
    /// Nothing made yet.
    pub fn new(alloc: Global) -> World {
        World {
            alloc,
            changes: Shelf::new(alloc),
            peers: Shelf::new(alloc),
            tables: Shelf::new(alloc),
            bytes: Shelf::new(alloc),
            cursors: Shelf::new(alloc),
        }
    }
}

// Whether the next word is the name of a served peer.
fn is_served(world: &World, words: &Words) -> bool {
    match words.rest().first() {
        Some(name) => world.tables.has(name.as_str()),
        None => false,
    }
}

// Makes a call on bytes, on the fields of changes, or one that opens or closes a served peer.
fn common(world: &mut World, word: &str, words: &mut Words) -> Option<Result<String, Fault>> {
    if let Some(answer) = call_on_fields(&mut world.changes, word, words) {
        return Some(answer);
    }
    if let Some(answer) = call_on_bytes(&world.changes, &mut world.bytes, word, words) {
        return Some(answer);
    }
    serving::call(world, word, words)
}

// Makes a call that makes or changes a peer, a link or a cursor.
fn change(world: &mut World, word: &str, words: &mut Words) -> Option<Result<String, Fault>> {
    if let Some(answer) = peers::call(world, word, words) {
        return Some(answer);
    }
    if let Some(answer) = links::call(world, word, words) {
        return Some(answer);
    }
    if let Some(answer) = cursors::call(world, word, words) {
        return Some(answer);
    }
    match word {
        "edit" => Some(edits::call(world, words)),
        _ => None,
    }
}

// Makes a call that changes nothing.
fn look(world: &World, word: &str, words: &mut Words) -> Result<String, Fault> {
    if let Some(answer) = running::call(world, word, words) {
        return answer;
    }
    match word {
        "meet" => meeting::call(world, words),
        "errors" => errors::call(world.alloc, words),
        "fresh" => reads::fresh(world.alloc, words),
        _ => reads::call(world, word, words),
    }
}

impl Calls for World {
    fn call(&mut self, words: &mut Words) -> Result<String, Fault> {
        let word = words.next()?;
        if let Some(answer) = common(self, word, words) {
            return answer;
        }
        if is_served(self, words) {
            return seated::call(self, word, words);
        }
        if let Some(answer) = change(self, word, words) {
            return answer;
        }
        look(self, word, words)
    }

    fn clear(&mut self) {
        self.changes.clear();
        self.peers.clear();
        self.tables.clear();
        self.bytes.clear();
        self.cursors.clear();
    }

    fn is_partial(&self, row: &str) -> bool {
        row.starts_with("merge") || row.starts_with("receive")
    }
}
