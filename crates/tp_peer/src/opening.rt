//! Opening a peer on a journal: anew, again, or as a fork.

ghost use Rattle.std.specs.Prelude.{◌≡◌, ◌⊎◌, ℕ, List, [], false, MatchBool, OnOk, IfOk, IfErr, IsOkUnless};
ghost use Rattle.tp_journal.specs.Journal.{without_fuse};
ghost use Rattle.tp_recovery.specs.Layout.{journal as journal_bytes};
ghost use Rattle.tp_recovery.specs.Recovery.{Recovers};
ghost use Rattle.tp_recovery.specs.Refusals.{IsJournalFault};
ghost use Rattle.tp_store.specs.declared.error.StoreError.TheVariants.{OutOfMemory as Lack};
ghost use Rattle.tp_peer.specs.Actors.{has_actor as is_used};
ghost use Rattle.tp_peer.specs.Appending.{journal_state};
ghost use Rattle.tp_peer.specs.Opening.{IsUnused, RefusesNewJournal, RefusesCopy, Forks, RefusesFork, Reopens, RefusesReopening};
ghost use Rattle.tp_peer.specs.PeerState.{opened_peer};

use crate::actors::has_actor;
use crate::error::PeerError;
use crate::peer::Peer;
use crate::sequence::PeerSequence;
use std::alloc::Global;
use tp_change::Change;
use tp_document::Document;
use tp_journal::{DIGEST_BYTES, HEADER_BYTES, Journal, Recovered, header, put_record, recover};
use tp_opid::{Actor, DocId};
use tp_store::StoreError;

/// A journal on which no peer was opened.
#[derive(Drop)]
pub struct Unopened<J: Journal> {
    /// The journal, given back.
    pub journal: J,
    /// Why it wasn't.
    pub error: PeerError,
}

// Whether bytes are those of an unused journal. Only fewer bytes than a header has are looked at.
fn is_unused(alloc: Global, bytes: &[u8]) -> Result<bool, PeerError>
    ensures ok { IfOk result
        (λ unused. MatchBool unused (IsUnused bytes.now) (IsUnused bytes.now → ⊥)) }
    ensures err { IsOkUnless result PeerError.OutOfMemory }
{
    if bytes.len() >= HEADER_BYTES {
        return Ok(false);
    }
    match recover::<PeerSequence>(alloc, bytes) {
        Ok(recovered) => {
            drop(recovered);
            Ok(false)
        }
        Err(StoreError::NoHeader) => Ok(true),
        Err(StoreError::OutOfMemory) => Err(PeerError::OutOfMemory),
        Err(_) => Ok(false),
    }
}

// Refuses a journal that isn't unused, whatever bytes were to be put into it.
fn check_unused<J: Journal>(alloc: Global, journal: &mut J) -> Result<(), PeerError>
    ensures ok { OnOk result (IsUnused (J.content journal.old)) }
    ensures stays { OnOk result
        (journal_state (J.content journal.new) (J.device journal.new)
        ≡ journal_state (J.content journal.old) (J.device journal.old)) }
    ensures err { (bytes : List ℕ) → IfErr result
        (λ e. RefusesNewJournal bytes (journal_state (J.content journal.old) (J.device journal.old)) e
        (journal_state (J.content journal.new) (J.device journal.new))) }
{
    let bytes = journal.read_all()?;
    if is_unused(alloc, &bytes)? {
        Ok(())
    } else {
        Err(PeerError::JournalNotEmpty)
    }
}

// Cuts an unused journal to nothing and appends the bytes.
fn begin<J: Journal>(journal: &mut J, bytes: &[u8]) -> Result<(), PeerError>
    requires { IsUnused (J.content journal.old) }
    ensures ok { OnOk result (J.content journal.new ≡ bytes.now) }
    ensures quiet { OnOk result (J.device journal.new ≡ without_fuse (J.device journal.old)) }
    ensures err { IfErr result
        (λ e. RefusesNewJournal bytes.now (journal_state (J.content journal.old) (J.device journal.old)) e
        (journal_state (J.content journal.new) (J.device journal.new))) }
{
    journal.cut(0)?;
    Ok(journal.append(bytes)?)
}

// How many bytes the records of the changes have, or the greatest number there is. Room alone depends on it.
fn records_len(changes: &[Change]) -> usize {
    let mut len: usize = 0;
    for change in changes {
        len = len
            .saturating_add(change.encoded_len())
            .saturating_add(4 + DIGEST_BYTES);
    }
    len
}

// The journal of a document: its header and its records.
fn journal_of(alloc: Global, document: &Document<PeerSequence>) -> Result<Vec<u8>, StoreError>
    ensures { IfOk result
        (λ bytes. bytes.items ≡ journal_bytes document.now.id document.now.applied) }
{
    let mut bytes = header(alloc, document.id())?;
    bytes.reserve(records_len(document.changes()))?;
    for change in document.changes() {
        bytes = put_record(bytes, change)?;
    }
    Ok(bytes)
}

// The bytes with which an unused journal begins that is to keep a copy of the document, for a peer under the actor.
fn bytes_for<J: Journal>(
    alloc: Global,
    document: &Document<PeerSequence>,
    journal: &mut J,
    actor: &Actor,
) -> Result<Vec<u8>, PeerError>
    ensures unused { OnOk result (IsUnused (J.content journal.old)) }
    ensures free { OnOk result (is_used document.now.applied actor.now ≡ false) }
    ensures bytes { IfOk result
        (λ bytes. bytes.items ≡ journal_bytes document.now.id document.now.applied) }
    ensures stays { OnOk result
        (journal_state (J.content journal.new) (J.device journal.new)
        ≡ journal_state (J.content journal.old) (J.device journal.old)) }
    ensures err { IfErr result
        (λ e. RefusesCopy document.now.id document.now.applied actor.now
        (journal_state (J.content journal.old) (J.device journal.old)) e
        (journal_state (J.content journal.new) (J.device journal.new))) }
{
    check_unused(alloc, journal)?;
    if has_actor(document.changes(), actor) {
        return Err(PeerError::ActorInUse);
    }
    match journal_of(alloc, document) {
        Ok(bytes) => Ok(bytes),
        Err(_) => Err(PeerError::OutOfMemory),
    }
}

// A copy of the document, for a peer under the actor on an unused journal, which is begun with the document's header
// and records. All that can fail comes before the append.
fn copy_to<J: Journal>(
    alloc: Global,
    document: &Document<PeerSequence>,
    journal: &mut J,
    actor: &Actor,
) -> Result<Document<PeerSequence>, PeerError>
    ensures unused { OnOk result (IsUnused (J.content journal.old)) }
    ensures free { OnOk result (is_used document.now.applied actor.now ≡ false) }
    ensures id { IfOk result (λ d. d.id ≡ document.now.id) }
    ensures applied { IfOk result (λ d. d.applied ≡ document.now.applied) }
    ensures waiting { IfOk result (λ d. d.waiting ≡ []) }
    ensures begun { OnOk result
        (J.content journal.new ≡ journal_bytes document.now.id document.now.applied) }
    ensures quiet { OnOk result (J.device journal.new ≡ without_fuse (J.device journal.old)) }
    ensures err { IfErr result
        (λ e. RefusesCopy document.now.id document.now.applied actor.now
        (journal_state (J.content journal.old) (J.device journal.old)) e
        (journal_state (J.content journal.new) (J.device journal.new))) }
{
    let bytes = bytes_for(alloc, document, journal, actor)?;
    match document.fork() {
        Ok(copy) => match begin(journal, &bytes) {
            Ok(()) => Ok(copy),
            Err(error) => {
                drop(copy);
                Err(error)
            }
        },
        Err(_) => Err(PeerError::OutOfMemory),
    }
}

// Begins the journal of a document with no changes, where what its content recovered to says that it is unused.
fn begin_empty<J: Journal>(
    alloc: Global,
    journal: &mut J,
    recovered: Result<Recovered<PeerSequence>, StoreError>,
    id: DocId,
) -> Result<(), PeerError>
    requires recovers { IfOk recovered (λ r.
        Recovers (J.content journal.old) r.document.id r.document.applied r.keep
        × (r.document.waiting ≡ [])) }
    requires refused { IfErr recovered
        (λ e. (e ≡ Lack) ⊎ IsJournalFault (J.content journal.old) e) }
    ensures unused { OnOk result (IsUnused (J.content journal.old)) }
    ensures begun { OnOk result (J.content journal.new ≡ journal_bytes id []) }
    ensures quiet { OnOk result (J.device journal.new ≡ without_fuse (J.device journal.old)) }
    ensures err { IfErr result
        (λ e. RefusesNewJournal (journal_bytes id [])
        (journal_state (J.content journal.old) (J.device journal.old)) e
        (journal_state (J.content journal.new) (J.device journal.new))) }
{
    match recovered {
        Ok(recovered) => {
            drop(recovered);
            Err(PeerError::JournalNotEmpty)
        }
        Err(StoreError::NoHeader) => match header(alloc, id) {
            Ok(first) => begin(journal, &first),
            Err(_) => Err(PeerError::OutOfMemory),
        },
        Err(StoreError::OutOfMemory) => Err(PeerError::OutOfMemory),
        Err(_) => Err(PeerError::JournalNotEmpty),
    }
}

// Cuts the journal to what is kept of it, for a peer under the actor.
fn cut_to<J: Journal>(
    journal: &mut J,
    recovered: &Recovered<PeerSequence>,
    actor: &Actor,
) -> Result<(), PeerError>
    requires { Recovers (J.content journal.old) recovered.now.document.id
        recovered.now.document.applied recovered.now.keep }
    ensures free { OnOk result (is_used recovered.now.document.applied actor.now ≡ false) }
    ensures kept { OnOk result
        (J.content journal.new
        ≡ journal_bytes recovered.now.document.id recovered.now.document.applied) }
    ensures quiet { OnOk result (J.device journal.new ≡ J.device journal.old) }
    ensures err { IfErr result
        (λ e. RefusesReopening (journal_state (J.content journal.old) (J.device journal.old)) actor.now
        e (journal_state (J.content journal.new) (J.device journal.new))) }
{
    if has_actor(recovered.document.changes(), actor) {
        return Err(PeerError::ActorInUse);
    }
    Ok(journal.cut(recovered.keep)?)
}

// What the journal's content recovered to, for a peer under the actor: its document. The journal is cut to what is kept of
// it.
fn cut_for<J: Journal>(
    journal: &mut J,
    recovered: Result<Recovered<PeerSequence>, StoreError>,
    actor: &Actor,
) -> Result<Document<PeerSequence>, PeerError>
    requires recovers { IfOk recovered (λ r.
        Recovers (J.content journal.old) r.document.id r.document.applied r.keep
        × (r.document.waiting ≡ [])) }
    requires refused { IfErr recovered
        (λ e. (e ≡ Lack) ⊎ IsJournalFault (J.content journal.old) e) }
    ensures ok { IfOk result
        (λ d. (keep : ℕ) × Recovers (J.content journal.old) d.id d.applied keep) }
    ensures free { IfOk result (λ d. is_used d.applied actor.now ≡ false) }
    ensures waiting { IfOk result (λ d. d.waiting ≡ []) }
    ensures kept { IfOk result (λ d. J.content journal.new ≡ journal_bytes d.id d.applied) }
    ensures quiet { OnOk result (J.device journal.new ≡ J.device journal.old) }
    ensures err { IfErr result
        (λ e. RefusesReopening (journal_state (J.content journal.old) (J.device journal.old)) actor.now
        e (journal_state (J.content journal.new) (J.device journal.new))) }
{
    match recovered {
        Ok(recovered) => match cut_to(journal, &recovered, actor) {
            Ok(()) => Ok(recovered.document),
            Err(error) => {
                drop(recovered);
                Err(error)
            }
        },
        Err(error) => Err(PeerError::from(error)),
    }
}

/// Begins a journal in which no header was written with a document: its header and its records, which are appended at
/// once, so that [`Peer::reopen`] finds the document's changes there. What waits in the document isn't kept.
///
/// It is refused as [`create`](Peer::create) refuses a journal: as `JournalNotEmpty`, which leaves it as it was;
/// `JournalFailed` where its device failed, and then it is as it was, or empty but for a beginning of what was appended;
/// `OutOfMemory`, which leaves it as it was or empty.
///
/// It makes the whole journal in memory.
pub fn create_journal<J: Journal>(
    alloc: Global,
    journal: &mut J,
    document: &Document<PeerSequence>,
) -> Result<(), PeerError>
    ensures unused { OnOk result (IsUnused (J.content journal.old)) }
    ensures begun { OnOk result
        (J.content journal.new ≡ journal_bytes document.now.id document.now.applied) }
    ensures quiet { OnOk result (J.device journal.new ≡ without_fuse (J.device journal.old)) }
    ensures err { IfErr result
        (λ e. RefusesNewJournal (journal_bytes document.now.id document.now.applied)
        (journal_state (J.content journal.old) (J.device journal.old)) e
        (journal_state (J.content journal.new) (J.device journal.new))) }
{
    check_unused(alloc, journal)?;
    match journal_of(alloc, document) {
        Ok(bytes) => begin(journal, &bytes),
        Err(_) => Err(PeerError::OutOfMemory),
    }
}

impl<J: Journal> Peer<J> {
    /// A peer with no changes, edited under the actor, on a journal in which no header was written: one that
    /// [`recover`] refuses as `NoHeader`. It is cut to nothing, and the header of the document is appended.
    ///
    /// Another journal is refused as `JournalNotEmpty`. `JournalFailed` where its device failed; it is then as it was,
    /// or empty but for a beginning of the header. The only other refusal is `OutOfMemory`, which leaves it as it was
    /// or empty. Each refusal gives the journal back.
    pub fn create(
        alloc: Global,
        mut journal: J,
        id: DocId,
        actor: Actor,
    ) -> Result<Peer<J>, Unopened<J>>
        ensures ok { IfOk result (λ p. p ≡ opened_peer id actor [] (without_fuse (J.device journal))) }
        ensures unused { OnOk result (IsUnused (J.content journal)) }
        ensures err { IfErr result
            (λ u. RefusesNewJournal (journal_bytes id [])
            (journal_state (J.content journal) (J.device journal))
            u.error (journal_state (J.content u.journal) (J.device u.journal))) }
    {
        let document = Document::new(alloc, id);
        match create_journal(alloc, &mut journal, &document) {
            Ok(()) => Ok(Peer::new(alloc, journal, document, actor)),
            Err(error) => {
                drop(document);
                Err(Unopened { journal, error })
            }
        }
    }

    /// A peer as [`create`](Peer::create) gives it, by what the journal's content was recovered to already, as by
    /// [`FileJournal::recovering`](tp_journal::FileJournal::recovering). The journal isn't read.
    ///
    /// It is refused as `create` refuses the journal, and as `OutOfMemory` for that refusal too.
    pub fn create_recovered(
        alloc: Global,
        mut journal: J,
        recovered: Result<Recovered<PeerSequence>, StoreError>,
        id: DocId,
        actor: Actor,
    ) -> Result<Peer<J>, Unopened<J>>
        requires recovers { IfOk recovered (λ r.
            Recovers (J.content journal) r.document.id r.document.applied r.keep
            × (r.document.waiting ≡ [])) }
        requires refused { IfErr recovered
            (λ e. (e ≡ Lack) ⊎ IsJournalFault (J.content journal) e) }
        ensures ok { IfOk result (λ p. p ≡ opened_peer id actor [] (without_fuse (J.device journal))) }
        ensures unused { OnOk result (IsUnused (J.content journal)) }
        ensures err { IfErr result
            (λ u. RefusesNewJournal (journal_bytes id [])
            (journal_state (J.content journal) (J.device journal))
            u.error (journal_state (J.content u.journal) (J.device u.journal))) }
    {
        match begin_empty(alloc, &mut journal, recovered, id) {
            Ok(()) => {
                let document = Document::new(alloc, id);
                Ok(Peer::new(alloc, journal, document, actor))
            }
            Err(error) => Err(Unopened { journal, error }),
        }
    }

    /// A peer with the changes that the journal recovers to, edited under the actor; nothing waits. What is in the
    /// journal after its whole records is cut off.
    ///
    /// It is refused as [`recover`] refuses the bytes; then as `ActorInUse` where a change is the actor's: each peer
    /// that is opened has an actor of its own. `JournalFailed` where the journal's device failed. The only other
    /// refusal is `OutOfMemory`. Each refusal gives the journal back with its content as it was.
    ///
    /// The cost is that of `recover`, and of one copy of the journal.
    pub fn reopen(alloc: Global, mut journal: J, actor: Actor) -> Result<Peer<J>, Unopened<J>>
        ensures ok { IfOk result
            (λ p. Reopens (journal_state (J.content journal) (J.device journal)) actor p) }
        ensures err { IfErr result
            (λ u. RefusesReopening (journal_state (J.content journal) (J.device journal)) actor
            u.error (journal_state (J.content u.journal) (J.device u.journal))) }
    {
        match journal.read_all() {
            Ok(bytes) => Peer::open_recovered(alloc, journal, recover(alloc, &bytes), actor),
            Err(error) => Err(Unopened {
                journal,
                error: PeerError::from(error),
            }),
        }
    }

    /// A peer as [`reopen`](Peer::reopen) gives it, by what the journal's content was recovered to already, as by
    /// [`FileJournal::recovering`](tp_journal::FileJournal::recovering). The journal isn't read.
    ///
    /// It is refused as `reopen` refuses the journal, for the refusal that is passed too.
    pub fn open_recovered(
        alloc: Global,
        mut journal: J,
        recovered: Result<Recovered<PeerSequence>, StoreError>,
        actor: Actor,
    ) -> Result<Peer<J>, Unopened<J>>
        requires recovers { IfOk recovered (λ r.
            Recovers (J.content journal) r.document.id r.document.applied r.keep
            × (r.document.waiting ≡ [])) }
        requires refused { IfErr recovered
            (λ e. (e ≡ Lack) ⊎ IsJournalFault (J.content journal) e) }
        ensures ok { IfOk result
            (λ p. Reopens (journal_state (J.content journal) (J.device journal)) actor p) }
        ensures err { IfErr result
            (λ u. RefusesReopening (journal_state (J.content journal) (J.device journal)) actor
            u.error (journal_state (J.content u.journal) (J.device u.journal))) }
    {
        match cut_for(&mut journal, recovered, &actor) {
            Ok(document) => Ok(Peer::new(alloc, journal, document, actor)),
            Err(error) => Err(Unopened { journal, error }),
        }
    }

    /// A peer with the same identifier and changes, edited under another actor, on a journal in which no header was
    /// written; nothing waits. The journal is cut to nothing, and the header and all records are appended at once. This
    /// peer stays as it is.
    ///
    /// It is refused as `Stopped`; then as `JournalNotEmpty`, as [`create`](Peer::create) refuses a journal; then as
    /// `ActorInUse` where a change is the actor's. `JournalFailed` where the device of the other journal failed; that
    /// is then as it was, or empty but for a beginning of what was appended. The only other refusal is `OutOfMemory`,
    /// which leaves it as it was or empty. Each refusal gives the journal back.
    ///
    /// The document is copied as [`fork`](tp_document::Document::fork) does, and the whole journal is made in memory.
    pub fn fork<K: Journal>(&self, mut journal: K, actor: Actor) -> Result<Peer<K>, Unopened<K>>
        ensures ok { IfOk result
            (λ p. Forks self.now actor (journal_state (K.content journal) (K.device journal)) p) }
        ensures err { IfErr result
            (λ u. RefusesFork self.now actor (journal_state (K.content journal) (K.device journal))
            u.error (journal_state (K.content u.journal) (K.device u.journal))) }
    {
        if self.stopped {
            return Err(Unopened {
                journal,
                error: PeerError::Stopped,
            });
        }
        match copy_to(self.alloc, &self.document, &mut journal, &actor) {
            Ok(document) => Ok(Peer::new(self.alloc, journal, document, actor)),
            Err(error) => Err(Unopened { journal, error }),
        }
    }
}
