//! What a line of a script asks for.

use tp_edit::Splice;
use tp_opid::Actor;

/// A call that a line asks a peer to make. Peers and messages go by their numbers, marks by their names.
#[derive(Drop)]
pub enum AskedCall<'a> {
    /// `edit P AT DEL TEXT`: it edits.
    Edit(Splice<'a>),
    /// `merge P Q`: it takes what another one has.
    Merge(usize),
    /// `send P Q`: it makes a message to another one.
    Send(usize),
    /// `deliver N P`: it receives a message that was sent.
    Deliver(usize),
    /// `bytes P Q HEX`: it receives bytes as from another one.
    Bytes(usize, Vec<u8>),
    /// `read P`: its text is read.
    Read,
    /// `readat P M`: its text is read at the heads that have a name.
    ReadAt(&'a str),
}

/// What a line of a script asks for.
#[derive(Drop)]
pub enum Asked<'a> {
    /// `start ACTOR`: a peer with an empty document joins.
    Start {
        /// The actor of its edits.
        actor: Actor,
    },
    /// `fork P ACTOR`: a peer with a copy of another one's document joins.
    Fork {
        /// The other one.
        of: usize,
        /// The actor of its edits.
        actor: Actor,
    },
    /// The line of a call, or `crash P ACTOR KEPT` and one of the same peer: it crashes during the call, and is opened
    /// again.
    Call {
        /// The peer.
        peer: usize,
        /// What it is asked to do.
        call: AskedCall<'a>,
        /// How many bytes of what the call appends the journal keeps, and the actor under which the peer is opened, where
        /// it crashes.
        crash: Option<(u64, Actor)>,
    },
    /// `crash P ACTOR`: a peer crashes between calls, and is opened again.
    Crash {
        /// The peer.
        peer: usize,
        /// The actor under which it is opened.
        actor: Actor,
    },
    /// `fail P KEPT`: the device of a peer's journal is to fail in the next append.
    Fail {
        /// The peer.
        peer: usize,
        /// How many bytes of what is appended the journal keeps.
        kept: u64,
    },
    /// `mark M P`: the heads of a peer get a name.
    Mark {
        /// The name.
        name: &'a str,
        /// The peer.
        peer: usize,
    },
}
