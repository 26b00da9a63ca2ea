//! Changes of others.

ghost use Rattle.std.specs.Prelude.{◌≡◌};
ghost use Rattle.tp_peer.specs.PeerStep.{PeerStep, Merge, Merged, reply_of_result};
ghost use Rattle.tp_peer.specs.Taking.{report_of};
ghost use Rattle.tp_editor.specs.EditorState.{KeepsAnswer};
ghost use Rattle.tp_editor.specs.Exchanging.{TakesChange, refusal_of_change};

use crate::editor::Editor;
use crate::hosting::APPLYING;
use tp_change::Change;
use tp_document::{Applied, DocError};
use tp_journal::Journal;
use tp_peer::{Link, PeerError};
use tp_sync::{Message, SyncError};

// The refusal of a message with one change, as that of the change.
fn of_change(error: PeerError) -> PeerError
    ensures { result ≡ refusal_of_change error }
{
    match error {
        PeerError::Sync(SyncError::PendingFull) => PeerError::Doc(DocError::PendingFull),
        error => error,
    }
}

impl<J: Journal> Editor<J> {
    /// Receives a change: it enters, waits for what it depends on, or is refused for good, as one that is there
    /// already. It is received as a message with nothing else, on a link of its own that is forgotten afterwards, and
    /// with the refusals of [`Peer::receive_message`](tp_peer::Peer::receive_message), but `PendingFull` of the
    /// document for that of the message. In a file it is on the disk with the next edit or message.
    pub fn apply(&mut self, change: Change) -> Result<Applied, PeerError>
        ensures done { TakesChange self.old.peer change result self.new.peer }
        ensures rest { KeepsAnswer self.old self.new }
    {
        let message = match Message::of_change(self.alloc, change) {
            Ok(message) => message,
            Err(_) => return Err(PeerError::OutOfMemory),
        };
        let received = self.host.peer.receive_message(Link(APPLYING), message);
        let _ = self.host.peer.forget_link(Link(APPLYING));
        match received {
            Ok(received) => Ok(received.applied),
            Err(error) => Err(of_change(error)),
        }
    }

    /// Receives the other editor's applied changes that are absent here, as [`Peer::merge`](tp_peer::Peer::merge) does
    /// and with its refusals. In a file they are on the disk with the next edit or message.
    pub fn merge<K: Journal>(&mut self, other: &Editor<K>) -> Result<Applied, PeerError>
        ensures step { PeerStep self.old.peer (Merge other.now.peer)
            (reply_of_result (λ a. Merged (report_of a)) result) self.new.peer }
        ensures rest { KeepsAnswer self.old self.new }
    {
        self.host.peer.merge(&other.host.peer)
    }
}
