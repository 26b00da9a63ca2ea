//! Calls that answer `Busy` where the word is taken.

ghost use Rattle.std.specs.Prelude.{◌≡◌, MatchOption};
ghost use Rattle.std.specs.Str.{chars};
ghost use Rattle.std.specs.String.{string_bytes};
ghost use Rattle.tp_message.specs.Spelling.{message_spelling};
ghost use Rattle.tp_call.specs.Calls.{call_in, reply_of};
ghost use Rattle.tp_peer.specs.PeerStep.{Edit, Made, Receive, Received as Reported, Generate, Generated, Forget, Forgotten, Read, Reply as ReplyOf, Text, reply_of_result};
ghost use Rattle.tp_peer.specs.Sent.{sent_of};
ghost use Rattle.tp_peer.specs.Taking.{report_of};
ghost use Rattle.tp_served.specs.ServedError.{Missed, Replied, outcome_of_try};
ghost use Rattle.tp_served.specs.Calls.{IsOnlyOn, Tries};

use crate::error::ServedError;
use crate::seat::Seat;
use crate::served::Served;
use atomic_table::Badge;
use std::mem;
use tp_call::{Call, Reply, Request};
use tp_edit::Splice;
use tp_journal::Journal;
use tp_opid::Hash;
use tp_peer::{Link, Outgoing, PeerError, Received};
use tp_sync::Message;

// What the peer answered, as the answer of a try.
fn of_peer<T>(outcome: Result<T, PeerError>) -> Result<T, ServedError>
    ensures { (f : T → ReplyOf) → outcome_of_try f result ≡ Replied (reply_of_result f outcome) }
{
    match outcome {
        Ok(value) => Ok(value),
        Err(error) => Err(ServedError::Peer(error)),
    }
}

impl<J: Journal> Served<J> {
    // Has the peer answer where no other seat has the peer.
    fn try_call(&self, seat: &mut Seat, request: Request) -> Option<Reply>
        requires served { seat.old.served ≡ self.now.served }
        requires link { IsOnlyOn seat.old.state.number (call_in request) }
        ensures served { seat.new.served ≡ seat.old.served }
        ensures tries { MatchOption result
            (Tries seat.old.state (call_in request.entry) Missed seat.new.state)
            (λ reply. Tries seat.old.state (call_in request.entry) (Replied (reply_of reply))
            seat.new.state) }
    {
        let badge = mem::replace(&mut seat.badge, Badge::blank());
        match self.take(badge) {
            Ok(turn) => {
                let (badge, reply) = self.call_on(turn, request);
                seat.badge = badge;
                Some(reply)
            }
            Err(badge) => {
                seat.badge = badge;
                None
            }
        }
    }

    /// Reads the text, as `Peer::read` does. `Busy` where another seat has the peer.
    pub fn try_read(&self, seat: &mut Seat) -> Result<String, ServedError>
        requires { seat.old.served ≡ self.now.served }
        ensures served { seat.new.served ≡ seat.old.served }
        ensures tries { Tries seat.old.state Read
            (outcome_of_try (λ t. Text (chars (string_bytes t))) result) seat.new.state }
    {
        match self.try_call(seat, Request::Call(Call::Read)) {
            Some(reply) => of_peer(reply.into_text()),
            None => Err(ServedError::Busy),
        }
    }

    /// Edits the text, as `Peer::edit` does. `Busy` where another seat has the peer.
    pub fn try_edit(
        &self,
        seat: &mut Seat,
        splices: &[Splice],
        time: u64,
        message: &str,
    ) -> Result<Option<Hash>, ServedError>
        requires { seat.old.served ≡ self.now.served }
        ensures served { seat.new.served ≡ seat.old.served }
        ensures tries { Tries seat.old.state (Edit splices.now time (chars message.now))
            (outcome_of_try Made result) seat.new.state }
    {
        match self.try_call(
            seat,
            Request::Call(Call::Edit {
                splices,
                time,
                message,
            }),
        ) {
            Some(reply) => of_peer(reply.into_made()),
            None => Err(ServedError::Busy),
        }
    }

    /// Receives a message that came on the link with the seat's number, as `Peer::receive_bytes` does. `Busy` where
    /// another seat has the peer.
    pub fn try_receive(&self, seat: &mut Seat, bytes: &[u8]) -> Result<Received, ServedError>
        requires { seat.old.served ≡ self.now.served }
        ensures served { seat.new.served ≡ seat.old.served }
        ensures tries { Tries seat.old.state (Receive seat.old.state.number bytes.now)
            (outcome_of_try (λ r. Reported (report_of r.applied) r.same_heads) result)
            seat.new.state }
    {
        let link = Link(seat.number());
        match self.try_call(seat, Request::Call(Call::Receive { link, bytes })) {
            Some(reply) => of_peer(reply.into_received()),
            None => Err(ServedError::Busy),
        }
    }

    /// Receives a message that was decoded, on the link with the seat's number, as `Peer::receive_message` does. `Busy`
    /// where another seat has the peer: the message is gone then.
    pub fn try_receive_message(
        &self,
        seat: &mut Seat,
        message: Message,
    ) -> Result<Received, ServedError>
        requires { seat.old.served ≡ self.now.served }
        ensures served { seat.new.served ≡ seat.old.served }
        ensures tries { Tries seat.old.state
            (Receive seat.old.state.number (message_spelling message))
            (outcome_of_try (λ r. Reported (report_of r.applied) r.same_heads) result)
            seat.new.state }
    {
        let link = Link(seat.number());
        match self.try_call(seat, Request::Message { link, message }) {
            Some(reply) => of_peer(reply.into_received()),
            None => Err(ServedError::Busy),
        }
    }

    /// Makes the next message on the link with the seat's number, as `Peer::generate_bytes` does. `Busy` where another
    /// seat has the peer.
    pub fn try_generate(&self, seat: &mut Seat) -> Result<Option<Outgoing>, ServedError>
        requires { seat.old.served ≡ self.now.served }
        ensures served { seat.new.served ≡ seat.old.served }
        ensures tries { Tries seat.old.state (Generate seat.old.state.number)
            (outcome_of_try (λ sent. Generated (sent_of sent)) result)
            seat.new.state }
    {
        let link = Link(seat.number());
        match self.try_call(seat, Request::Call(Call::Generate { link })) {
            Some(reply) => of_peer(reply.into_generated()),
            None => Err(ServedError::Busy),
        }
    }

    /// Forgets the link with the seat's number, as `Peer::forget_link` does. `Busy` where another seat has the peer.
    pub fn try_forget(&self, seat: &mut Seat) -> Result<(), ServedError>
        requires { seat.old.served ≡ self.now.served }
        ensures served { seat.new.served ≡ seat.old.served }
        ensures tries { Tries seat.old.state (Forget seat.old.state.number)
            (outcome_of_try (λ _. Forgotten) result)
            seat.new.state }
    {
        let link = Link(seat.number());
        match self.try_call(seat, Request::Call(Call::Forget { link })) {
            Some(reply) => of_peer(reply.into_forgotten()),
            None => Err(ServedError::Busy),
        }
    }
}
