//! A call on a peer, made by its value.

ghost use Rattle.tp_call.specs.Calls.{Owes, call_in, call_of, reply_of};
ghost use Rattle.tp_peer.specs.Appending.{IsDurable};
ghost use Rattle.tp_peer.specs.PeerStep.{PeerStep};
ghost use Rattle.tp_peer.specs.Taking.{journal_of};

use crate::call::{Call, Reply, Request};
use tp_journal::Journal;
use tp_peer::Peer;

impl<'a> Call<'a> {
    /// Makes the call on the peer, as the method of its name does.
    pub fn make_on<J: Journal>(self, peer: &mut Peer<J>) -> Reply
        ensures settled { Owes (IsDurable J.content J.device J.is_settled (journal_of peer.new))
            (reply_of result) }
        ensures step { PeerStep peer.old (call_of self.entry) (reply_of result) peer.new }
    {
        match self {
            Call::Edit {
                splices,
                time,
                message,
            } => match peer.edit(splices, time, message) {
                Ok(made) => Reply::Made(made),
                Err(error) => Reply::Refused(error),
            },
            Call::Receive { link, bytes } => match peer.receive_bytes(link, bytes) {
                Ok(received) => Reply::Received(received),
                Err(error) => Reply::Refused(error),
            },
            Call::Generate { link } => match peer.generate_bytes(link) {
                Ok(sent) => Reply::Generated(sent),
                Err(error) => Reply::Refused(error),
            },
            Call::Forget { link } => match peer.forget_link(link) {
                Ok(()) => Reply::Forgotten,
                Err(error) => Reply::Refused(error),
            },
            Call::Read => match peer.read() {
                Ok(text) => Reply::Text(text),
                Err(error) => Reply::Refused(error),
            },
            Call::ReadAt { hashes } => match peer.read_at(hashes) {
                Ok(text) => Reply::Text(text),
                Err(error) => Reply::Refused(error),
            },
        }
    }
}

impl<'a> Request<'a> {
    /// Has the peer do what is asked, as the method of its name does.
    pub fn ask<J: Journal>(self, peer: &mut Peer<J>) -> Reply
        ensures settled { Owes (IsDurable J.content J.device J.is_settled (journal_of peer.new))
            (reply_of result) }
        ensures step { PeerStep peer.old (call_in self.entry) (reply_of result) peer.new }
    {
        match self {
            Request::Call(call) => call.make_on(peer),
            Request::Message { link, message } => match peer.receive_message(link, message) {
                Ok(received) => Reply::Received(received),
                Err(error) => Reply::Refused(error),
            },
        }
    }
}
