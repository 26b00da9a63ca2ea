//! What is done on a seat's turn, where it is more than one call.

ghost use Rattle.std.specs.Prelude.{ℕ};
ghost use Rattle.tp_peer.specs.PeerState.{PeerState};
ghost use Rattle.tp_served.specs.Steps.{StepsAsSeat};

use tp_journal::Journal;
use tp_peer::Peer;

/// Whom a served peer is lent to, for one turn of a seat. It may read whatever it likes of the peer, and have it do what touches
/// no link.
pub trait Visitor<J: Journal> {
    /// What it answers.
    type Answer;

    /// What it does: the visitor, the peer before, and the peer after.
    ghost does: { Self → PeerState → PeerState → Type 0 };

    /// Visits the peer.
    fn visit(&self, peer: &mut Peer<J>) -> Self::Answer
        ensures { does self.now peer.old peer.new };

    /// The peer stays the same document under the same actor, its list grows at its end, and it knows what it knew on each link.
    ghost serves: { (v : Self) (p p' : PeerState) → does v p p' → (n : ℕ) → StepsAsSeat n p p' };
}
