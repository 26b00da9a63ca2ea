//! The peer: its parts, what is read of it, and how it ends.

ghost use Rattle.std.specs.Prelude.{◌≡◌, [], length};
ghost use Rattle.std.specs.Str.{chars};
ghost use Rattle.std.specs.String.{string_bytes};
ghost use Rattle.tp_peer.specs.PeerState.{IsPeer, HasJournal, opened_peer};
ghost use Rattle.tp_peer.specs.PeerStep.{PeerStep, Heads, Read, ReadAt, ReadHeads, Text, reply_of_result};
ghost use Rattle.tp_recovery.specs.Layout.{journal as journal_bytes};

use crate::appender::Appender;
use crate::error::PeerError;
use crate::links::Links;
use crate::sequence::PeerSequence;
use std::alloc::Global;
use std::marker::Model;
use tp_document::Document;
use tp_journal::Journal;
use tp_list::array_len;
use tp_opid::{Actor, DocId, Hash};

/// A document with the journal that keeps its changes, the actor under which it is edited, and links to other peers.
///
/// Each change is appended to the journal before it enters the document. Where the journal's device fails in a call,
/// the peer stops: it answers `Stopped` to every call but [`stop`](Peer::stop), [`document`](Peer::document),
/// [`actor`](Peer::actor), [`is_stopped`](Peer::is_stopped) and [`change_count`](Peer::change_count), and its journal
/// is opened again under a fresh actor.
///
/// Contracts see `PeerState`, and each call is a `PeerStep`.
#[derive(Drop)]
pub struct Peer<J: Journal> {
    pub(crate) alloc: Global,
    pub(crate) actor: Actor,
    pub(crate) document: Document<PeerSequence>,
    pub(crate) links: Links,
    pub(crate) appender: Appender<J>,
    pub(crate) stopped: bool,
}

impl<J: Journal> Model for Peer<J> {
    ghost use Rattle.tp_peer.specs.PeerState.{PeerState, IsPeer, peer_state};

    ghost Value = { PeerState };

    ghost view = { λ p. peer_state p.actor p.document p.links.known p.appender p.stopped };

    ghost invariant = { λ p. IsPeer (peer_state p.actor p.document p.links.known p.appender p.stopped) };
}

impl<J: Journal> Peer<J> {
    /// A peer that runs, with no links, on a journal that is the document's; nothing waits in this. Each of its edits
    /// is its actor's; a change of that actor may be there already. No memory.
    pub fn new(alloc: Global, journal: J, document: Document<PeerSequence>, actor: Actor) -> Peer<J>
        requires kept { J.content journal ≡ journal_bytes document.id document.applied }
        requires waiting { document.waiting ≡ [] }
        ensures { result ≡ opened_peer document.id actor document.applied (J.device journal) }
    {
        let _len = array_len(document.id().0);
        let _changes = document.changes();
        Peer {
            alloc,
            actor,
            document,
            links: Links::new(alloc),
            appender: Appender::new(alloc, journal),
            stopped: false,
        }
    }

    /// The text: the visible characters in order. The only refusals are `Stopped` and `OutOfMemory`.
    ///
    /// One pass over the elements, deleted ones among them.
    pub fn read(&self) -> Result<String, PeerError>
        ensures { PeerStep self.now Read
            (reply_of_result (λ t. Text (chars (string_bytes t))) result) self.now }
    {
        if self.stopped {
            return Err(PeerError::Stopped);
        }
        match self.document.text() {
            Ok(text) => Ok(text),
            Err(_) => Err(PeerError::OutOfMemory),
        }
    }

    /// The text of the past of the hashes, which may come in any order and more than once; no hash gives the empty
    /// text. It is refused as `Stopped`, then as `UnknownHead` of the document where no applied change has a hash; the
    /// only other refusal is `OutOfMemory`.
    ///
    /// The cost is that of [`Document::text_at`].
    pub fn read_at(&self, hashes: &[Hash]) -> Result<String, PeerError>
        ensures { PeerStep self.now (ReadAt hashes.now)
            (reply_of_result (λ t. Text (chars (string_bytes t))) result) self.now }
    {
        if self.stopped {
            return Err(PeerError::Stopped);
        }
        match self.document.text_at(hashes) {
            Ok(text) => Ok(text),
            Err(error) => Err(PeerError::from(error)),
        }
    }

    /// The hashes of the applied changes on which no applied change depends, rising. The only refusal is `Stopped`.
    pub fn heads(&self) -> Result<&[Hash], PeerError>
        ensures { PeerStep self.now ReadHeads
            (reply_of_result (λ hs. Heads hs.now) result) self.now }
    {
        if self.stopped {
            return Err(PeerError::Stopped);
        }
        Ok(self.document.heads())
    }

    /// The document, also of a peer that has stopped. It has all changes that entered.
    pub fn document(&self) -> &Document<PeerSequence>
        ensures id { result.now.id ≡ self.now.id }
        ensures applied { result.now.applied ≡ self.now.applied }
        ensures waiting { result.now.waiting ≡ self.now.waiting }
        ensures keeps { IsPeer self.now }
    {
        &self.document
    }

    /// The actor of its edits, also of a peer that has stopped.
    pub fn actor(&self) -> Actor
        ensures { result ≡ self.now.actor }
    {
        self.actor
    }

    /// Makes the edits from now on those of another actor; a change of that actor may be there already. No two peers
    /// may edit under one actor at a time.
    pub fn set_actor(&mut self, actor: Actor)
        ensures { self.new ≡ record self.old { actor = actor } }
    {
        self.actor = actor;
    }

    /// Whether the journal's device failed, since when the peer answers `Stopped`.
    pub fn is_stopped(&self) -> bool
        ensures { result ≡ self.now.stopped }
    {
        self.stopped
    }

    /// How many changes are applied, also of a peer that has stopped.
    pub fn change_count(&self) -> usize
        ensures { result ≡ length self.now.applied }
    {
        self.document.changes().len()
    }

    /// Ends the peer, also one that has stopped, and gives its journal back. No memory.
    pub fn stop(self) -> J
        ensures content { J.content result ≡ self.journal }
        ensures device { J.device result ≡ self.device }
        ensures kept { HasJournal self.stopped self.id self.applied (J.content result) }
    {
        let Peer {
            alloc: _,
            actor: _,
            document: _,
            links: _,
            appender,
            stopped: _,
        } = self;
        appender.journal
    }
}
