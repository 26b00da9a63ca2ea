//! The editor.

ghost use Rattle.std.specs.Prelude.{◌≡◌, []};
ghost use Rattle.tp_editor.specs.EditorState.{new_editor};

use crate::hosting::Hosted;
use std::alloc::Global;
use std::marker::Model;
use tp_document::Document;
use tp_journal::Journal;
use tp_opid::Actor;
use tp_peer::{Peer, PeerSequence};
use tp_session::Conversation;

/// A session that goes on.
#[derive(Drop)]
pub(crate) struct Held {
    pub(crate) conversation: Conversation,
}

impl Model for Held {
    ghost use Rattle.std.specs.Prelude.{◌≡◌, false};
    ghost use Rattle.tp_session.specs.Conversation.{ConversationState};
    ghost use Rattle.tp_session.specs.Laws.{is_over};

    ghost Value = { ConversationState };

    ghost view = { λ h. h.conversation };

    ghost invariant = { λ h. is_over h.conversation.session.phase ≡ false };
}

/// A peer on a journal, with its links, at most one session, and the last answer.
///
/// Contracts see the peer as its own crate does; how many links were opened, which are numbered from 0; the session
/// with the bytes that came for it and are no whole frame yet; how many changes entered in the last session; and the
/// bytes of the answer. What is read is of all changes that entered, also where the peer has stopped.
pub struct Editor<J: Journal> {
    pub(crate) alloc: Global,
    pub(crate) host: Hosted<J>,
    pub(crate) links: usize,
    pub(crate) held: Option<Held>,
    pub(crate) entered: u64,
    pub(crate) answer: Vec<u8>,
}

impl<J: Journal> Drop for Editor<J> {
    fn drop(self) {
        let Editor {
            alloc: _,
            host: _,
            links: _,
            held: _,
            entered: _,
            answer: _,
        } = self;
    }
}

impl<J: Journal> Model for Editor<J> {
    ghost use Rattle.tp_editor.specs.EditorState.{EditorState};

    ghost Value = { EditorState };

    ghost view = { λ e. record { peer = e.host.peer; links = e.links; held = e.held; entered = e.entered; answer = e.answer.items } };
}

impl<J: Journal> Editor<J> {
    /// An editor over the peer, with no links, no session and an empty answer. No memory.
    pub fn of(alloc: Global, peer: Peer<J>) -> Editor<J>
        ensures { result ≡ new_editor peer }
    {
        Editor {
            alloc,
            host: Hosted { peer },
            links: 0,
            held: None,
            entered: 0,
            answer: Vec::new(alloc),
        }
    }

    /// The document, to be read: all changes that entered, also where the peer has stopped.
    pub fn document(&self) -> &Document<PeerSequence>
        ensures id { result.now.id ≡ self.now.peer.id }
        ensures applied { result.now.applied ≡ self.now.peer.applied }
    {
        self.host.peer.document()
    }

    /// The actor of its edits.
    pub fn actor(&self) -> Actor
        ensures { result ≡ self.now.peer.actor }
    {
        self.host.peer.actor()
    }

    /// Whether the journal's device failed, since when no call edits or exchanges.
    pub fn is_stopped(&self) -> bool
        ensures { result ≡ self.now.peer.stopped }
    {
        self.host.peer.is_stopped()
    }

    /// How many changes entered in the session that goes on, or in the last one.
    pub fn entered_count(&self) -> u64
        ensures { result ≡ self.now.entered }
    {
        self.entered
    }

    /// The bytes of the last answer.
    pub fn answer(&self) -> &[u8]
        ensures { result.now ≡ self.now.answer }
    {
        self.answer.as_slice()
    }

    /// Makes the answer empty.
    pub fn clear_answer(&mut self)
        ensures { self.new ≡ record self.old { answer = [] } }
    {
        self.answer.clear();
    }

    /// Makes the bytes the answer.
    pub fn set_answer(&mut self, bytes: Vec<u8>)
        ensures { self.new ≡ record self.old { answer = bytes.items } }
    {
        self.answer = bytes;
    }
}
