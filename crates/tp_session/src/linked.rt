//! A peer with one of its links, as the host of a session.

ghost use Rattle.std.specs.Prelude.{◌≡◌};
ghost use Rattle.tp_peer.specs.PeerStep.{PeerStep};
ghost use Rattle.tp_session.specs.HostCalls.{on};

use crate::host::Host;
use tp_journal::Journal;
use tp_peer::{Link, Outgoing, Peer, PeerError, Received};
use tp_sync::Message;

/// A peer that is lent, and the link on which it holds a session.
#[derive(Drop)]
pub struct LinkedPeer<'a, J: Journal> {
    peer: &'a mut Peer<J>,
    link: Link,
}

impl<'a, J: Journal> LinkedPeer<'a, J> {
    /// The peer with the link, which need not be there.
    pub fn new(peer: &'a mut Peer<J>, link: Link) -> LinkedPeer<'a, J>
        ensures same_reference { result.peer.ghost_name ≡ peer.entry.ghost_name }
        ensures peer { result.peer.now ≡ peer.old }
        ensures link { result.link ≡ link }
    {
        LinkedPeer { peer, link }
    }
}

impl<'a, J: Journal> Host for LinkedPeer<'a, J> {
    ghost use Rattle.std.specs.Prelude.{ℕ};
    ghost use Rattle.std.proofs.Common.{refl, ◌∙◌};
    ghost use Rattle.tp_peer.specs.PeerState.{PeerState};

    ghost Seen = { ℕ × PeerState };

    ghost seen = { λ h. (h.link.0, h.peer.now) };

    ghost steps = { λ p call reply q. (q.0 ≡ p.0) × PeerStep p.1 (on p.0 call) reply q.1 };

    ghost goes_on = { λ a b. (b.link.0 ≡ a.link.0) × (b.peer.ghost_name ≡ a.peer.ghost_name) };

    fn receive(&mut self, bytes: &[u8]) -> Result<Received, PeerError> {
        self.peer.receive_bytes(self.link, bytes)
    }

    fn receive_message(&mut self, message: Message) -> Result<Received, PeerError> {
        self.peer.receive_message(self.link, message)
    }

    fn generate(&mut self) -> Result<Option<Outgoing>, PeerError> {
        self.peer.generate_bytes(self.link)
    }

    fn forget(&mut self) -> Result<(), PeerError> {
        self.peer.forget_link(self.link)
    }

    ghost stays = { λ h. (refl, refl) };

    ghost joins = { λ a b c first then. (then.0 ∙ first.0, then.1 ∙ first.1) };
}
