//! Calls on a peer as values, and what is replied to them.

ghost use Rattle.std.specs.Prelude.{◌≡◌, ◌⊎◌, ℕ, List};
ghost use Rattle.std.specs.Str.{chars};
ghost use Rattle.std.specs.String.{string_bytes};
ghost use Rattle.tp_call.specs.Calls.{IsReplyTo, reply_of};
ghost use Rattle.tp_edit.specs.declared.splice.Splice.{Splice};
ghost use Rattle.tp_opid.specs.declared.hash.Hash.{Hash as HashOf};
ghost use Rattle.tp_peer.specs.PeerStep as step;
ghost use Rattle.tp_peer.specs.Sent.{sent_of};
ghost use Rattle.tp_peer.specs.Taking.{report_of};

use tp_document::Applied;
use tp_edit::Splice;
use tp_opid::Hash;
use tp_peer::{Link, Outgoing, PeerError, Received};
use tp_sync::Message;

/// A call on a peer. A merge, which needs the other peer, and the heads, which are lent, are methods alone.
#[derive(Clone, Copy, Debug)]
pub enum Call<'a> {
    /// [`Peer::edit`](tp_peer::Peer::edit).
    Edit {
        /// The splices, each in the text that the ones before it leave.
        splices: &'a [Splice<'a>],
        /// When, as the caller counts time.
        time: u64,
        /// The message for people.
        message: &'a str,
    },
    /// [`Peer::receive_bytes`](tp_peer::Peer::receive_bytes).
    Receive {
        /// The link on which they came.
        link: Link,
        /// The bytes, whether or not they are a message.
        bytes: &'a [u8],
    },
    /// [`Peer::generate_bytes`](tp_peer::Peer::generate_bytes).
    Generate {
        /// The link on which the message is to go.
        link: Link,
    },
    /// [`Peer::forget_link`](tp_peer::Peer::forget_link).
    Forget {
        /// The link.
        link: Link,
    },
    /// [`Peer::read`](tp_peer::Peer::read).
    Read,
    /// [`Peer::read_at`](tp_peer::Peer::read_at).
    ReadAt {
        /// The hashes, in any order.
        hashes: &'a [Hash],
    },
}

/// What a peer is asked: a call, or that it receives a message, which is given away and no change of it copied.
#[derive(Drop)]
pub enum Request<'a> {
    /// A call.
    Call(Call<'a>),
    /// [`Peer::receive_message`](tp_peer::Peer::receive_message).
    Message {
        /// The link on which it came.
        link: Link,
        /// The message, as it was decoded.
        message: Message,
    },
}

/// What a peer replies to a call.
#[derive(Drop)]
pub enum Reply {
    /// An edit was made: the hash of its change; `None` where the splices change nothing.
    Made(Option<Hash>),
    /// What a message that came led to.
    Received(Received),
    /// The next message; `None` where there is nothing to say.
    Generated(Option<Outgoing>),
    /// The link is gone.
    Forgotten,
    /// The text.
    Text(String),
    /// Why the call was refused.
    Refused(PeerError),
}

impl Reply {
    /// What an edit replied.
    pub fn into_made(self) -> Result<Option<Hash>, PeerError>
        requires { (splices : List Splice) × (time : ℕ) × (message : List ℕ)
            × IsReplyTo (step.Edit splices time message) (reply_of self) }
        ensures { step.reply_of_result step.Made result ≡ reply_of self }
    {
        match self {
            Reply::Made(made) => Ok(made),
            Reply::Refused(error) => Err(error),
            _ => unreachable!(),
        }
    }

    /// What a receive replied.
    pub fn into_received(self) -> Result<Received, PeerError>
        requires { (link : ℕ) × (bytes : List ℕ)
            × IsReplyTo (step.Receive link bytes) (reply_of self) }
        ensures { step.reply_of_result (λ r. step.Received (report_of r.applied) r.same_heads) result
            ≡ reply_of self }
    {
        match self {
            Reply::Received(received) => Ok(received),
            Reply::Refused(error) => Err(error),
            _ => unreachable!(),
        }
    }

    /// What a generate replied.
    pub fn into_generated(self) -> Result<Option<Outgoing>, PeerError>
        requires { (link : ℕ) × IsReplyTo (step.Generate link) (reply_of self) }
        ensures { step.reply_of_result (λ sent. step.Generated (sent_of sent)) result ≡ reply_of self }
    {
        match self {
            Reply::Generated(sent) => Ok(sent),
            Reply::Refused(error) => Err(error),
            _ => unreachable!(),
        }
    }

    /// What a forget replied.
    pub fn into_forgotten(self) -> Result<(), PeerError>
        requires { (link : ℕ) × IsReplyTo (step.Forget link) (reply_of self) }
        ensures { step.reply_of_result (λ _. step.Forgotten) result ≡ reply_of self }
    {
        match self {
            Reply::Forgotten => Ok(()),
            Reply::Refused(error) => Err(error),
            _ => unreachable!(),
        }
    }

    /// What a read replied, of the text now or at hashes.
    pub fn into_text(self) -> Result<String, PeerError>
        requires { IsReplyTo step.Read (reply_of self)
            ⊎ (hashes : List HashOf) × IsReplyTo (step.ReadAt hashes) (reply_of self) }
        ensures { step.reply_of_result (λ t. step.Text (chars (string_bytes t))) result ≡ reply_of self }
    {
        match self {
            Reply::Text(text) => Ok(text),
            Reply::Refused(error) => Err(error),
            _ => unreachable!(),
        }
    }
}
