//! Bringing to the disk what a peer has.

ghost use Rattle.std.specs.Prelude.{◌≡◌, ℕ, IfErr, OnOk};
ghost use Rattle.tp_peer.specs.Appending.{IsDurable};
ghost use Rattle.tp_peer.specs.PeerStep.{PeerStep, Generate, Refused};
ghost use Rattle.tp_peer.specs.Taking.{journal_of};

use crate::error::{PeerError, stops};
use crate::peer::Peer;
use tp_journal::Journal;

impl<J: Journal> Peer<J> {
    /// Settles the journal: all that the peer has is kept then. So a device that has failed is noticed though nothing else is asked
    /// of the peer.
    ///
    /// It is refused as `Stopped`; then as `JournalFailed` where the device failed: the peer has stopped. It changes nothing else:
    /// among the steps of a peer a refused one is a message that couldn't be made, on whatever link.
    pub fn settle(&mut self) -> Result<(), PeerError>
        ensures settled { OnOk result
            (IsDurable J.content J.device J.is_settled (journal_of self.new)) }
        ensures ok { OnOk result (self.new ≡ self.old) }
        ensures stays { self.new
            ≡ record self.old { device = self.new.device; stopped = self.new.stopped } }
        ensures err { (link : ℕ) → IfErr result
            (λ e. PeerStep self.old (Generate link) (Refused e) self.new) }
    {
        if self.stopped {
            return Err(PeerError::Stopped);
        }
        let settled = self.appender.settle();
        self.stopped = stops(&settled);
        settled
    }
}
