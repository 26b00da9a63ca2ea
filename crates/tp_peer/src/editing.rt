//! Edits of a peer.

ghost use Rattle.std.specs.Prelude.{◌≡◌, ℕ, List, ◌++◌, ◌∷◌, [], false, None, OnOk, OnErr, IfOk, IfErr, IfSome};
ghost use Rattle.tp_peer.specs.Common.{chars, hash_of, cause, SyncParts};
ghost use Rattle.tp_document.specs.Editing.{DoesSplices, asking};
ghost use Rattle.tp_peer.specs.Appending.{AppendsRecord, IsDurable, RefusesRecord};
ghost use Rattle.tp_peer.specs.PeerState.{peer_state};
ghost use Rattle.tp_peer.specs.PeerError.{is_failed};
ghost use Rattle.tp_peer.specs.Taking.{journal_of};
ghost use Rattle.tp_peer.specs.PeerStep.{PeerStep, Edit, Edits, Made, RefusesEdit, reply_of_result};

use crate::appender::Appender;
use crate::error::{PeerError, stops};
use crate::peer::Peer;
use crate::sequence::PeerSequence;
use tp_change::Change;
use tp_document::{Document, KeepError};
use tp_edit::Splice;
use tp_journal::Journal;
use tp_opid::{Actor, Hash};

/// Appends the record of a change that can enter, settles the journal, and enters it. What can fail besides comes before the
/// append.
pub(crate) fn append_and_enter<J: Journal>(
    document: &mut Document<PeerSequence>,
    appender: &mut Appender<J>,
    change: Change,
) -> Result<Hash, KeepError>
    requires { cause document.old.applied change ≡ None }
    ensures id { document.new.id ≡ document.old.id }
    ensures waiting { document.new.waiting ≡ document.old.waiting }
    ensures kept { OnOk result (AppendsRecord appender.old change appender.new) }
    ensures settled { OnOk result (IsDurable J.content J.device J.is_settled appender.new) }
    ensures hash { IfOk result (λ h. h ≡ hash_of change) }
    ensures applied { OnOk result (document.new.applied ≡ document.old.applied ++ change ∷ []) }
    ensures err { IfErr result (λ e. RefusesRecord appender.old change e appender.new) }
    ensures stays { OnErr result (document.new.applied ≡ document.old.applied) }
{
    match document.reserve(&change) {
        Ok(()) => match appender.keep_settled(&change) {
            Ok(()) => {
                let hash = change.hash();
                document.enter(change);
                Ok(hash)
            }
            Err(error) => Err(error),
        },
        Err(_) => Err(KeepError::OutOfMemory),
    }
}

// Edits on the parts of a running peer, which stops where the device failed, once the change was appended to the journal.
fn edit_on<J: Journal>(
    actor: Actor,
    document: &mut Document<PeerSequence>,
    appender: &mut Appender<J>,
    splices: &[Splice],
    time: u64,
    message: &str,
) -> Result<Option<Hash>, PeerError>
    ensures settled { IfOk result (λ made. IfSome made
        (λ _. IsDurable J.content J.device J.is_settled appender.new)) }
    ensures ok { (links : List (ℕ × SyncParts)) → IfOk result
        (λ made. Edits (peer_state actor document.old links appender.old false)
        (asking actor splices.now time (chars message.now)) made
        (peer_state actor document.new links appender.new false)) }
    ensures err { (links : List (ℕ × SyncParts)) → IfErr result
        (λ e. RefusesEdit (peer_state actor document.old links appender.old false)
        (asking actor splices.now time (chars message.now)) e
        (peer_state actor document.new links appender.new (is_failed e))) }
{
    match document.make_edit(actor, splices, time, message) {
        Ok(Some(change)) => match append_and_enter(document, appender, change) {
            Ok(hash) => Ok(Some(hash)),
            Err(KeepError::OutOfMemory) => Err(PeerError::OutOfMemory),
            Err(KeepError::NotKept) => Err(PeerError::JournalFailed),
        },
        Ok(None) => Ok(None),
        Err(error) => Err(PeerError::from(error)),
    }
}

impl<J: Journal> Peer<J> {
    /// Edits the text under the peer's actor, as [`Document::edit`] does, once the change was appended to the journal and
    /// the journal was settled. Answers the change's hash; `None` where the splices are in range and change nothing.
    ///
    /// It is refused as `Stopped`; then as the document refuses it; as `JournalFailed` where the device failed while
    /// the record was appended or the journal settled: the change didn't enter, and the peer has stopped. Every other refusal, `OutOfMemory`
    /// among them, leaves the peer as it was.
    ///
    /// Beside the edit itself it costs one append of the change's bytes and 36 more.
    pub fn edit(
        &mut self,
        splices: &[Splice],
        time: u64,
        message: &str,
    ) -> Result<Option<Hash>, PeerError>
        ensures step { PeerStep self.old (Edit splices.now time (chars message.now))
            (reply_of_result Made result) self.new }
        ensures settled { IfOk result (λ made. IfSome made
            (λ _. IsDurable J.content J.device J.is_settled (journal_of self.new))) }
        ensures text { IfOk result
            (λ _. DoesSplices self.old.applied self.new.applied splices.now) }
    {
        if self.stopped {
            return Err(PeerError::Stopped);
        }
        let made = edit_on(
            self.actor,
            &mut self.document,
            &mut self.appender,
            splices,
            time,
            message,
        );
        self.stopped = stops(&made);
        made
    }
}
