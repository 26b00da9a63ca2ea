//! Peers on a journal that fails where it is set to.

ghost use Rattle.std.specs.Prelude.{◌≡◌, length};
ghost use Rattle.tp_journal.specs.Journal.{fallible};
ghost use Rattle.tp_peer.specs.PeerState.{arming, disarming};

use crate::peer::Peer;
use tp_journal::FuseJournal;

impl Peer<FuseJournal> {
    /// Lets the next append to the journal fail, as [`FuseJournal::arm`] does. Nothing else changes.
    pub fn arm(&mut self, kept: u64)
        ensures { self.new ≡ arming self.old kept }
    {
        self.appender.journal.arm(kept);
    }

    /// Lets the next cut of the journal fail, as [`FuseJournal::arm_cut`] does. Nothing else changes.
    pub fn arm_cut(&mut self)
        ensures { self.new ≡ record self.old { device = fallible self.old.device } }
    {
        self.appender.journal.arm_cut();
    }

    /// Lets neither fail. Nothing else changes.
    pub fn disarm(&mut self)
        ensures { self.new ≡ disarming self.old }
    {
        self.appender.journal.disarm();
    }

    /// How many bytes the journal has, also that of a peer that has stopped.
    pub fn journal_len(&self) -> u64
        ensures { result ≡ length self.now.journal }
    {
        self.appender.journal.len()
    }
}
