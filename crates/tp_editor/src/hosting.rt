//! The peer of an editor, as the host of its sessions, and how its links are numbered.

use tp_journal::Journal;
use tp_peer::{Link, Outgoing, Peer, PeerError, Received};
use tp_session::Host;
use tp_sync::Message;

/// The most links that an editor opens, which have the numbers from 0 on. With the two below these are all that a peer
/// has.
pub const MOST_LINKS: usize = 1_022;

/// The number of the link on which sessions are held.
pub const SESSION: u64 = 1_022;

/// The number of the link on which a single change is received, which is forgotten afterwards.
pub const APPLYING: u64 = 1_023;

/// A peer that holds its sessions on one link.
#[derive(Drop)]
pub(crate) struct Hosted<J: Journal> {
    pub(crate) peer: Peer<J>,
}

impl<J: Journal> Host for Hosted<J> {
    ghost use Rattle.tp_peer.specs.PeerState.{PeerState};
    ghost use Rattle.tp_editor.specs.Meeting.{StepsOnSession};

    ghost Seen = { PeerState };

    ghost seen = { λ h. h.peer };

    ghost steps = { StepsOnSession };

    ghost goes_on = { λ _ _. Unit {0} };

    fn receive(&mut self, bytes: &[u8]) -> Result<Received, PeerError> {
        self.peer.receive_bytes(Link(SESSION), bytes)
    }

    fn receive_message(&mut self, message: Message) -> Result<Received, PeerError> {
        self.peer.receive_message(Link(SESSION), message)
    }

    fn generate(&mut self) -> Result<Option<Outgoing>, PeerError> {
        self.peer.generate_bytes(Link(SESSION))
    }

    fn forget(&mut self) -> Result<(), PeerError> {
        self.peer.forget_link(Link(SESSION))
    }

    ghost stays = { λ _. tt };

    ghost joins = { λ _ _ _ _ _. tt };
}
