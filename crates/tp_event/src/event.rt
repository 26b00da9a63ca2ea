//! What may happen in a world.

use tp_call::Call as PeerCall;
use tp_opid::Actor;

/// A call of a peer of a world.
#[derive(Clone, Copy, Debug)]
pub enum Call<'a> {
    /// One that needs no other peer. The number of its link, if it is on one, is that of the peer at the other end, which
    /// has no part in it. A message that is made goes on the wire, and a text that is read is recorded. Bytes that come
    /// may have any origin.
    Alone(PeerCall<'a>),
    /// The peer takes what another one has. From itself it takes what it would from a peer with no changes.
    Merge {
        /// The number of the other one.
        from: usize,
    },
    /// The peer receives a message that was sent, on its link to the peer that sent it. The message stays on the wire: it
    /// may be delivered never, once or many times, to any peer.
    Deliver {
        /// The number of the message's entry on the wire.
        entry: usize,
    },
}

/// What happens in a world. Peers are numbered from 0, in the order in which they joined.
#[derive(Clone, Copy, Debug)]
pub enum Event<'a> {
    /// A peer with an empty document joins.
    Start {
        /// The actor of its edits.
        actor: Actor,
    },
    /// A peer with a copy of another one's document joins.
    Fork {
        /// The number of the other one.
        of: usize,
        /// The actor of its edits.
        actor: Actor,
    },
    /// A peer makes a call.
    Call {
        /// Its number.
        peer: usize,
        /// The call.
        call: Call<'a>,
    },
    /// A peer crashes, and is opened again.
    Crash {
        /// Its number.
        peer: usize,
        /// The call during which it crashes; `None` between calls.
        during: Option<Call<'a>>,
        /// How many bytes of what the call appends the journal keeps.
        kept: u64,
        /// The actor under which it is opened.
        actor: Actor,
    },
    /// The device of a peer's journal is to fail in the next append, in whatever call that is. A crash before takes that
    /// away. It takes the place of one before.
    Fail {
        /// The peer's number.
        peer: usize,
        /// How many bytes of what is appended the journal keeps, all where there are fewer.
        kept: u64,
    },
}
