//! Opening an editor on a journal in a file, or on none.

ghost use Rattle.std.specs.Prelude.{◌≡◌, ◌⊎◌, [], IfOk, IfErr, IsOkUnless, OnOk, OnErr};
ghost use Rattle.tp_document.specs.declared.error.DocError.TheVariants as doc;
ghost use Rattle.tp_journal.specs.Journal.{no_device};
ghost use Rattle.tp_recovery.specs.Recovery.{HasTail, Recovers};
ghost use Rattle.tp_recovery.specs.Refusals.{IsJournalFault};
ghost use Rattle.tp_recovery.specs.Whole.{HoldsRecord};
ghost use Rattle.tp_peer.specs.Appending.{journal_state};
ghost use Rattle.tp_peer.specs.Opening.{Reopens};
ghost use Rattle.tp_peer.specs.PeerState.{opened_peer};
ghost use Rattle.tp_peer.specs.declared.error.PeerError.TheVariants.{OutOfMemory, Store};
ghost use Rattle.tp_codec.specs.Gives.{Gives};
ghost use Rattle.tp_store.specs.Loading as loading;
ghost use Rattle.tp_store.specs.Saved.{IsSaved};
ghost use Rattle.tp_store.specs.declared.error.StoreError.TheVariants.{Damaged, OutOfMemory as Lack};
ghost use Rattle.tp_editor.specs.EditorState.{new_editor};
ghost use Rattle.tp_editor.specs.Opening.{BeginsDocument, CutsRecord, RefusesNewDocument, RefusesOpening, RefusesOpeningOn, Opens};

use crate::editor::Editor;
use crate::error::EditorOpenError;
use crate::hosting::Hosted;
use std::alloc::Global;
use tp_document::{DocError, Document};
use tp_journal::{DurableJournal, Journal, OptionalJournal, Recovered, SystemFiles, holds_record};
use tp_opid::{Actor, DocId};
use tp_peer::{Peer, PeerError, PeerSequence};
use tp_store::{StoreError, load};

// Refuses what is cut off as `Damaged` where a whole record is in it.
fn check_tail(alloc: Global, recovered: &Recovered<PeerSequence>) -> Result<(), PeerError>
    ensures ok { OnOk result (HoldsRecord recovered.now.tail.items → ⊥) }
    ensures err { IfErr result (λ e. (e ≡ OutOfMemory)
        ⊎ ((e ≡ Store (Damaged recovered.now.keep)) × HoldsRecord recovered.now.tail.items)) }
{
    if holds_record(alloc, recovered.tail.as_slice())? {
        Err(PeerError::Store(StoreError::Damaged { at: recovered.keep }))
    } else {
        Ok(())
    }
}

// A peer on the journal, of which no whole record is cut off.
fn open_whole<J: Journal>(
    alloc: Global,
    journal: J,
    recovery: Result<Recovered<PeerSequence>, StoreError>,
    actor: Actor,
) -> Result<Peer<J>, PeerError>
    requires recovers { IfOk recovery (λ r.
        Recovers (J.content journal) r.document.id r.document.applied r.keep
        × (r.document.waiting ≡ [])) }
    requires tail { IfOk recovery
        (λ r. HasTail (J.content journal) r.keep r.tail.items) }
    requires refused { IfErr recovery
        (λ e. (e ≡ Lack) ⊎ IsJournalFault (J.content journal) e) }
    ensures ok { IfOk result
        (λ p. Reopens (journal_state (J.content journal) (J.device journal)) actor p) }
    ensures whole { OnOk result (CutsRecord (J.content journal) → ⊥) }
    ensures err { IfErr result
        (RefusesOpeningOn (journal_state (J.content journal) (J.device journal)) actor) }
{
    match recovery {
        Ok(recovered) => match check_tail(alloc, &recovered) {
            Ok(()) => match Peer::open_recovered(alloc, journal, Ok(recovered), actor) {
                Ok(peer) => Ok(peer),
                Err(unopened) => Err(unopened.error),
            },
            Err(error) => {
                drop(journal);
                drop(recovered);
                Err(error)
            }
        },
        Err(error) => {
            drop(journal);
            Err(PeerError::from(error))
        }
    }
}

// A peer of the document, of which nothing waits, in memory alone.
fn peer_of(alloc: Global, document: Document<PeerSequence>, actor: Actor) -> Peer<OptionalJournal>
    requires { document.waiting ≡ [] }
    ensures { result ≡ opened_peer document.id actor document.applied no_device }
{
    let journal = OptionalJournal::none(&document);
    Peer::new(alloc, journal, document, actor)
}

impl Editor<OptionalJournal> {
    /// An editor of a document with no changes, in memory alone, without links and with an empty answer. No memory.
    pub fn new(alloc: Global, id: DocId, actor: Actor) -> Editor<OptionalJournal>
        ensures { result ≡ new_editor (opened_peer id actor [] no_device) }
    {
        Editor::of(alloc, peer_of(alloc, Document::new(alloc, id), actor))
    }

    /// Puts the document whose saved file the bytes are in the place of this one, as [`load`] makes it and with its
    /// refusals, each of which leaves the editor as it was. It is in memory alone: a journal in a file is closed, and
    /// stays as it is. The links and a session are gone then; the actor and the answer stay.
    pub fn load(&mut self, bytes: &[u8]) -> Result<(), StoreError>
        ensures found { OnOk result (IsSaved bytes.now self.new.peer.id self.new.peer.applied) }
        ensures exact { Gives Lack (λ _. (self.new.peer.id, self.new.peer.applied)) result
            (loading.document_of_bytes bytes.now) }
        ensures fresh { OnOk result (self.new ≡ record (new_editor (opened_peer self.new.peer.id
            self.old.peer.actor self.new.peer.applied no_device)) { answer = self.old.answer }) }
        ensures err { OnErr result (self.new ≡ self.old) }
    {
        match load(self.alloc, bytes) {
            Ok(document) => {
                let peer = peer_of(self.alloc, document, self.actor());
                self.host = Hosted { peer };
                self.links = 0;
                self.held = None;
                self.entered = 0;
                Ok(())
            }
            Err(error) => Err(error),
        }
    }

    /// An editor of a copy of the document with the changes that entered, in memory alone, edited under the actor,
    /// without links and with an empty answer: as [`Document::fork`]. No two editors may edit under one actor at a time.
    /// The only refusal is `OutOfMemory`.
    pub fn fork(&self, actor: Actor) -> Result<Editor<OptionalJournal>, DocError>
        ensures ok { IfOk result (λ e. e
            ≡ new_editor (opened_peer self.now.peer.id actor self.now.peer.applied no_device)) }
        ensures err { IsOkUnless result doc.OutOfMemory }
    {
        let document = self.document().fork()?;
        Ok(Editor::of(self.alloc, peer_of(self.alloc, document, actor)))
    }

    /// Opens the journal in the file at the path, takes the file's lock, and makes an editor of the changes that it
    /// recovers to, edited under the actor, as [`Peer::reopen`] does.
    ///
    /// The file is refused as `Io` where it isn't there or can't be opened, locked or read, and as `Busy` where another
    /// has its lock; then the journal as `reopen` refuses it, and as `Damaged` where whole records are in what would be
    /// cut off; it stays as it was.
    pub fn open(
        alloc: Global,
        path: &str,
        actor: Actor,
    ) -> Result<Editor<OptionalJournal>, EditorOpenError>
        ensures ok { IfOk result (λ e. Opens actor e) }
        ensures err { IfErr result (λ e. RefusesOpening actor e) }
    {
        match DurableJournal::recovering(&SystemFiles, alloc, path, false) {
            Ok((journal, recovery)) => {
                let journal = OptionalJournal::Durable(journal);
                match open_whole(alloc, journal, recovery, actor) {
                    Ok(peer) => Ok(Editor::of(alloc, peer)),
                    Err(error) => Err(EditorOpenError::Peer(error)),
                }
            }
            Err(error) => Err(EditorOpenError::File(error)),
        }
    }

    /// Makes the file at the path where it isn't there, takes its lock, and begins the journal of a new document in it,
    /// edited under the actor, as [`Peer::create`] does.
    ///
    /// The file is refused as by [`open`](Editor::open); then the journal as `create` refuses it: one that has a header
    /// already as `JournalNotEmpty`, and it stays as it was.
    pub fn create(
        alloc: Global,
        path: &str,
        id: DocId,
        actor: Actor,
    ) -> Result<Editor<OptionalJournal>, EditorOpenError>
        ensures ok { IfOk result (λ e. BeginsDocument id actor e) }
        ensures err { IfErr result (λ e. RefusesNewDocument id e) }
    {
        match DurableJournal::recovering(&SystemFiles, alloc, path, true) {
            Ok((journal, recovered)) => {
                let journal = OptionalJournal::Durable(journal);
                match Peer::create_recovered(alloc, journal, recovered, id, actor) {
                    Ok(peer) => Ok(Editor::of(alloc, peer)),
                    Err(unopened) => Err(EditorOpenError::Peer(unopened.error)),
                }
            }
            Err(error) => Err(EditorOpenError::File(error)),
        }
    }
}
