//! What a session is held over.

ghost use Rattle.tp_peer.specs.PeerStep.{Reply, Received as Reported, Generated, Forgotten, reply_of_result};
ghost use Rattle.tp_peer.specs.Sent.{sent_of};
ghost use Rattle.tp_peer.specs.Taking.{report_of};
ghost use Rattle.tp_message.specs.Spelling.{message_spelling};
ghost use Rattle.tp_session.specs.HostCalls.{HostCall, Receive, Generate, Forget};

use tp_peer::{Outgoing, PeerError, Received};
use tp_sync::Message;

/// A document's side of one session: it receives the other's messages and makes its own, on one link.
///
/// Each call is one step of a relation of the host's own, in the words of a peer's replies.
pub trait Host {
    /// What contracts see of such a host.
    ghost Seen: { Type 0 };

    /// What they see of this one.
    ghost seen: { Self → Seen };

    /// What a call does: what is seen of the host before, the call, what is replied, and what is seen after.
    ghost steps: { Seen → HostCall → Reply → Seen → Type 0 };

    /// That it is the same host, before calls and after.
    ghost goes_on: { Self → Self → Type 0 };

    /// Receives a message by its bytes.
    fn receive(&mut self, bytes: &[u8]) -> Result<Received, PeerError>
        ensures reply { steps (seen self.old) (Receive bytes.now)
            (reply_of_result (λ r. Reported (report_of r.applied) r.same_heads) result) (seen self.new) }
        ensures host { goes_on self.old self.new };

    /// Receives a message that was decoded, as [`receive`](Host::receive) receives its bytes.
    fn receive_message(&mut self, message: Message) -> Result<Received, PeerError>
        ensures reply { steps (seen self.old) (Receive (message_spelling message))
            (reply_of_result (λ r. Reported (report_of r.applied) r.same_heads) result) (seen self.new) }
        ensures host { goes_on self.old self.new };

    /// The next message, or `None` where there is nothing to say.
    fn generate(&mut self) -> Result<Option<Outgoing>, PeerError>
        ensures reply { steps (seen self.old) Generate
            (reply_of_result (λ sent. Generated (sent_of sent)) result) (seen self.new) }
        ensures host { goes_on self.old self.new };

    /// Forgets what the messages so far said.
    fn forget(&mut self) -> Result<(), PeerError>
        ensures reply { steps (seen self.old) Forget
            (reply_of_result (λ _. Forgotten) result) (seen self.new) }
        ensures host { goes_on self.old self.new };

    /// It is, where there was no call.
    ghost stays: { (h : Self) → goes_on h h };

    /// And over calls after calls.
    ghost joins: { (a b c : Self) → goes_on a b → goes_on b c → goes_on a c };
}
