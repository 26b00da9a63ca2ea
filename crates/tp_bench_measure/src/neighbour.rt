//! A peer with a document, and what it knows of two others.

use std::alloc::Global;
use tp_document::{Applied, Document};
use tp_edit::Splice;
use tp_opid::{Actor, DocId};
use tp_posindex::BlockSequence;
use tp_sync::{Message, SyncError, SyncState, generate, generate_bytes, receive};

/// A neighbour of a peer in the ring.
#[derive(Clone, Copy)]
pub enum Link {
    /// The one before it.
    Before,
    /// The one after it.
    Behind,
}

impl Link {
    /// The same link, as the neighbour sees it.
    pub fn back(self) -> Link {
        match self {
            Link::Before => Link::Behind,
            Link::Behind => Link::Before,
        }
    }
}

/// A peer in a ring.
#[derive(Drop)]
pub struct Neighbour {
    alloc: Global,
    actor: Actor,
    document: Document<BlockSequence>,
    before: SyncState,
    beyond: SyncState,
}

impl Neighbour {
    /// A peer without changes, which knows nothing of others.
    pub fn new(alloc: Global, number: u8) -> Neighbour {
        Neighbour {
            alloc,
            actor: Actor([number; 16]),
            document: Document::new(alloc, DocId([7; 16])),
            before: SyncState::new(alloc),
            beyond: SyncState::new(alloc),
        }
    }

    /// Has another neighbour after it from now on, of whom it knows nothing.
    pub fn meet(&mut self) {
        self.beyond = SyncState::new(self.alloc);
    }

    /// Knows nothing of its neighbours from now on.
    pub fn part(&mut self) {
        self.before = SyncState::new(self.alloc);
        self.beyond = SyncState::new(self.alloc);
    }

    /// How many changes it has.
    pub fn change_count(&self) -> usize {
        self.document.changes().len()
    }

    /// Types `changes` characters at the end of the text, each a change.
    pub fn write(&mut self, changes: usize) -> anyhow::Result<()> {
        for _ in 0..changes {
            let end = self.document.len();
            self.insert_one(end)?;
        }
        Ok(())
    }

    /// Inserts `changes` characters at the start of the text, each a change.
    pub fn write_at_start(&mut self, changes: usize) -> anyhow::Result<()> {
        for _ in 0..changes {
            self.insert_one(0)?;
        }
        Ok(())
    }

    fn insert_one(&mut self, at: usize) -> anyhow::Result<()> {
        let splice = Splice {
            at,
            del: 0,
            text: "x",
        };
        self.document.edit(self.actor, &[splice], 0, "")?;
        Ok(())
    }

    // The next message to a neighbour.
    fn message(&mut self, link: Link) -> Result<Option<Message>, SyncError> {
        match link {
            Link::Before => generate(self.alloc, &self.document, &mut self.before),
            Link::Behind => generate(self.alloc, &self.document, &mut self.beyond),
        }
    }

    /// The bytes of the next message to a neighbour; `None` where there is nothing to say.
    pub fn send(&mut self, link: Link) -> anyhow::Result<Option<Vec<u8>>> {
        let bytes = match link {
            Link::Before => generate_bytes(self.alloc, &self.document, &mut self.before)?,
            Link::Behind => generate_bytes(self.alloc, &self.document, &mut self.beyond)?,
        };
        Ok(bytes)
    }

    /// Whether there is nothing to say to the neighbour after it.
    pub fn is_quiet(&mut self) -> anyhow::Result<bool> {
        let message = self.message(Link::Behind)?;
        Ok(message.is_none())
    }

    // Receives a neighbour's message.
    fn hear(&mut self, link: Link, message: Message) -> Result<Applied, SyncError> {
        match link {
            Link::Before => receive(&mut self.document, &mut self.before, message),
            Link::Behind => receive(&mut self.document, &mut self.beyond, message),
        }
    }

    /// Receives the bytes of a neighbour's message.
    pub fn take(&mut self, link: Link, bytes: &[u8]) -> anyhow::Result<()> {
        let message = Message::decode(self.alloc, bytes)?;
        self.hear(link, message)?;
        Ok(())
    }
}
