//! What an editor needs, in one import: a document and its edits, changes, cursors, saved files, what two documents tell
//! each other, and peers that keep a journal.
//!
//! Each name is that of the crate that declares it, with its contract. [`TextDocument`] is the document of this crate;
//! a [`Peer`] keeps one with its journal and its links to others.
#![tactic(auto)]

pub use tp_change::{Change, ChangeError, ChangeParts, Op, Record};
pub use tp_document::{Applied, Cursor, Difference, DocError, Document};
pub use tp_edit::Splice;
pub use tp_graph::GraphError;
pub use tp_journal::{
    DurableJournal, FileJournal, Journal, JournalError, Lockable, MemJournal, OpenError, Recovered,
    Recovering, recover,
};
pub use tp_opid::{Actor, DocId, Hash, HexError, OpId, Place};
pub use tp_peer::{Link, Outgoing, Peer, PeerError, Received, Unopened, fresh_actor};
pub use tp_posindex::BlockSequence;
pub use tp_store::{StoreError, load, save};
pub use tp_sync::{Exchanged, Message, SyncError, SyncState, exchange, generate, receive};

/// A document whose elements are in blocks, so that an edit, a look-up by position and a remote insert go over one
/// block and not over the whole text.
pub type TextDocument = Document<BlockSequence>;
