//! Merges of peers.

ghost use Rattle.tp_peer.specs.PeerStep.{PeerStep, Merge, Merged, reply_of_result};
ghost use Rattle.tp_peer.specs.Taking.{report_of};

use crate::error::PeerError;
use crate::peer::Peer;
use tp_document::Applied;
use tp_journal::Journal;

impl<J: Journal> Peer<J> {
    /// Receives the other peer's applied changes that are absent here, as [`Document::merge_with`] does: each is
    /// appended to the journal before it enters. The other peer stays as it is.
    ///
    /// It is refused as `Stopped` where either has stopped; then as `OtherDocument` of the document where the
    /// identifiers differ. `JournalFailed` where the device failed while a record was appended: what entered before
    /// stays, and the peer has stopped. `OutOfMemory`, the only other refusal, leaves what had entered as well, and of
    /// what waited nothing is lost.
    ///
    /// One look-up for each of the other's changes, and one append for each that enters.
    pub fn merge<K: Journal>(&mut self, other: &Peer<K>) -> Result<Applied, PeerError>
        ensures { PeerStep self.old (Merge other.now)
            (reply_of_result (λ a. Merged (report_of a)) result) self.new }
    {
        if self.stopped || other.stopped {
            return Err(PeerError::Stopped);
        }
        match self
            .document
            .merge_with(&other.document, &mut self.appender)
        {
            Ok(applied) => Ok(applied),
            Err(error) => {
                let error = PeerError::from(error);
                self.stopped = error.is_failed();
                Err(error)
            }
        }
    }
}
