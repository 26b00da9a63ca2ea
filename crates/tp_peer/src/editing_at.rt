//! Edits of earlier texts, each under an actor of its own.

ghost use Rattle.std.specs.Prelude.{◌≡◌, ◌∷◌, [], ℕ, List, IfErr, IfOk, IfSome, MatchOption, MatchResult, false, IsTrue};
ghost use Rattle.tp_document.specs.Editing.{AsksNothing, DoesSplices, IsAcceptedEdit, asking};
ghost use Rattle.tp_history.specs.Named.{has_all};
ghost use Rattle.tp_history.specs.Past.{past};
ghost use Rattle.tp_peer.specs.Common.{SyncParts, chars};
ghost use Rattle.tp_opid.specs.declared.actor.Actor.{Actor as ActorOf};
ghost use Rattle.tp_peer.specs.Appending.{IsDurable};
ghost use Rattle.tp_peer.specs.EditingAt.{EditsAt, EntersMade, RefusesMakingAt, RefusesEditAt, RefusesMade, StepsAt, has_failed};
ghost use Rattle.tp_peer.specs.PeerState.{peer_state};
ghost use Rattle.tp_peer.specs.Taking.{journal_of};

use crate::appender::Appender;
use crate::editing::append_and_enter;
use crate::error::PeerError;
use crate::peer::Peer;
use crate::sequence::PeerSequence;
use thiserror::Error;
use tp_change::Change;
use tp_document::{DocError, Document, KeepError};
use tp_edit::Splice;
use tp_graph::{GraphError, same_hashes};
use tp_journal::Journal;
use tp_opid::{Actor, Hash};

/// Why an edit of an earlier text was refused. It leaves the peer as it was, but for `JournalFailed`, which stops it.
#[derive(Clone, Copy, Debug, PartialEq, Eq, Error)]
pub enum EditAtError {
    /// The change doesn't fit after all that is applied: its actor made another one since those heads, or the document
    /// is full.
    #[error("{0}")]
    Unfit(GraphError),
    /// As an edit of the peer's is refused, or a head isn't that of an applied change.
    #[error("{0}")]
    Peer(PeerError),
}

impl EditAtError {
    // Whether it says that the device of the journal failed.
    fn is_failed(&self) -> bool
        ensures { result ≡ has_failed self.now }
    {
        match self {
            EditAtError::Unfit(_) => false,
            EditAtError::Peer(error) => error.is_failed(),
        }
    }
}

// The change that an edit makes of the text at the heads. Where these are all heads there is no copy of anything.
fn make_edit_at(
    document: &Document<PeerSequence>,
    heads: &[Hash],
    actor: Actor,
    splices: &[Splice],
    time: u64,
    message: &str,
) -> Result<Option<Change>, DocError>
    ensures known { IfOk result (λ _. IsTrue (has_all document.now.applied heads.now)) }
    ensures made { MatchResult result
        (λ made. MatchOption made
        (AsksNothing (past document.now.applied heads.now) (asking actor splices.now time (chars message.now)))
        (λ c. IsAcceptedEdit (past document.now.applied heads.now) (asking actor splices.now time (chars message.now)) c))
        (λ e. RefusesMakingAt document.now.applied heads.now (asking actor splices.now time (chars message.now)) e) }
{
    let _changes = document.changes();
    if same_hashes(heads, document.heads()) {
        return document.make_edit(actor, splices, time, message);
    }
    let fork = document.fork_at(heads)?;
    fork.make_edit(actor, splices, time, message)
}

// Appends the record of a change, settles the journal, and enters the change, where it fits.
fn enter_made<J: Journal>(
    document: &mut Document<PeerSequence>,
    appender: &mut Appender<J>,
    change: Change,
) -> Result<Hash, EditAtError>
    ensures settled { IfOk result (λ _. IsDurable J.content J.device J.is_settled appender.new) }
    ensures enters { (own : ActorOf) (links : List (ℕ × SyncParts)) → MatchResult result
        (λ h. EntersMade (peer_state own document.old links appender.old false) change h
        (peer_state own document.new links appender.new false))
        (λ e. RefusesMade (peer_state own document.old links appender.old false) change e
        (peer_state own document.new links appender.new (has_failed e))) }
{
    match document.graph().check(&change) {
        Ok(()) => match append_and_enter(document, appender, change) {
            Ok(hash) => Ok(hash),
            Err(KeepError::OutOfMemory) => Err(EditAtError::Peer(PeerError::OutOfMemory)),
            Err(KeepError::NotKept) => Err(EditAtError::Peer(PeerError::JournalFailed)),
        },
        Err(GraphError::OutOfMemory) => Err(EditAtError::Peer(PeerError::OutOfMemory)),
        Err(error) => Err(EditAtError::Unfit(error)),
    }
}

// Edits on the parts of a running peer, which stops where the device failed.
fn edit_at_on<J: Journal>(
    document: &mut Document<PeerSequence>,
    appender: &mut Appender<J>,
    heads: &[Hash],
    actor: Actor,
    splices: &[Splice],
    time: u64,
    message: &str,
) -> Result<Option<Hash>, EditAtError>
    ensures settled { IfOk result (λ made. IfSome made
        (λ _. IsDurable J.content J.device J.is_settled appender.new)) }
    ensures ok { (own : ActorOf) (links : List (ℕ × SyncParts)) → IfOk result
        (λ made. EditsAt (peer_state own document.old links appender.old false) heads.now
        (asking actor splices.now time (chars message.now)) made
        (peer_state own document.new links appender.new false)) }
    ensures err { (own : ActorOf) (links : List (ℕ × SyncParts)) → IfErr result
        (λ e. RefusesEditAt (peer_state own document.old links appender.old false) heads.now
        (asking actor splices.now time (chars message.now)) e
        (peer_state own document.new links appender.new (has_failed e))) }
{
    match make_edit_at(document, heads, actor, splices, time, message) {
        Ok(Some(change)) => match enter_made(document, appender, change) {
            Ok(hash) => Ok(Some(hash)),
            Err(error) => Err(error),
        },
        Ok(None) => Ok(None),
        Err(error) => Err(EditAtError::Peer(PeerError::from(error))),
    }
}

impl<J: Journal> Peer<J> {
    /// Edits the text at some hashes, as Automerge's `transaction_at` does, under an actor that need not be the peer's: the
    /// change is the one that [`Document::edit`] makes of their past alone. It is appended to the journal, the journal is
    /// settled, and it enters after all that is applied; what was applied beside it is merged with it so. Answers the
    /// change's hash; `None` where the splices are in range and change nothing. At the hash the text is that at the hashes with
    /// each splice done in turn. The hashes may come in any order and more than once.
    ///
    /// It is refused as `Stopped`; then as `UnknownHead` of the document where a hash isn't that of an applied change; then as
    /// [`Document::make_edit`] is on their past; then as `Unfit` where the change doesn't fit after all that is
    /// applied, which is so where its actor made a change that isn't in that past; as `JournalFailed` where the device
    /// failed while the record was appended or the journal settled: the change didn't enter, and the peer has stopped.
    /// Every other refusal, `OutOfMemory` among them, leaves the peer as it was.
    ///
    /// Where the hashes are [`heads`](Peer::heads), as these give them, it costs what [`edit`](Peer::edit) does. Otherwise their
    /// past is copied, change by change.
    pub fn edit_at(
        &mut self,
        heads: &[Hash],
        actor: Actor,
        splices: &[Splice],
        time: u64,
        message: &str,
    ) -> Result<Option<Hash>, EditAtError>
        ensures step { StepsAt self.old heads.now (asking actor splices.now time (chars message.now)) result self.new }
        ensures settled { IfOk result (λ made. IfSome made
            (λ _. IsDurable J.content J.device J.is_settled (journal_of self.new))) }
        ensures text { IfOk result (λ made. IfSome made (λ h. DoesSplices (past self.old.applied heads.now)
            (past self.new.applied (h ∷ [])) splices.now)) }
    {
        if self.stopped {
            return Err(EditAtError::Peer(PeerError::Stopped));
        }
        match edit_at_on(
            &mut self.document,
            &mut self.appender,
            heads,
            actor,
            splices,
            time,
            message,
        ) {
            Ok(made) => Ok(made),
            Err(error) => {
                self.stopped = error.is_failed();
                Err(error)
            }
        }
    }
}
