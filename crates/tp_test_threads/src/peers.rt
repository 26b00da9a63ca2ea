//! The peers of the tests.

use std::alloc::Global;
use tp_edit::Splice;
use tp_journal::Journal;
use tp_opid::{Actor, DocId};
use tp_peer::Peer;

/// Their document.
pub const DOCUMENT: DocId = DocId([0; 16]);

/// A text at the start.
pub fn at_start(text: &str) -> Splice<'_> {
    Splice {
        at: 0,
        del: 0,
        text,
    }
}

/// A new peer of the actor with the number.
pub fn peer_on<J: Journal>(alloc: Global, journal: J, number: u8) -> Option<Peer<J>> {
    Peer::create(alloc, journal, DOCUMENT, Actor([number; 16])).ok()
}
