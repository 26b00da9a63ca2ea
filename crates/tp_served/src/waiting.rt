//! Calls that try again until they have the peer.

ghost use Rattle.std.specs.Prelude.{◌≡◌, ℕ, [], ◌∷◌};
ghost use Rattle.std.specs.Str.{chars};
ghost use Rattle.std.specs.String.{string_bytes};
ghost use Rattle.tp_message.specs.Spelling.{message_spelling};
ghost use Rattle.tp_call.specs.Calls.{call_in, reply_of};
ghost use Rattle.tp_peer.specs.PeerStep.{Edit, Made, Receive, Received as Reported, Generate, Generated, Forget, Forgotten, Read, Text, reply_of_result};
ghost use Rattle.tp_peer.specs.Sent.{sent_of};
ghost use Rattle.tp_peer.specs.Taking.{report_of};
ghost use Rattle.tp_served.specs.Seats.{SeatKnowledge, CallTakesTurn, Visits, missed_by};
ghost use Rattle.tp_served.specs.Rule.{idle_seat};
ghost use Rattle.tp_served.specs.Calls.{IsOnlyOn, IsTurn};

use crate::rule::View;
use crate::seat::Seat;
use crate::served::Served;
use crate::turn::Turn;
use crate::visitor::Visitor;
use atomic_table::Badge;
use std::sync::Wait;
use std::{mem, thread};
use tp_call::{Call, Reply, Request};
use tp_edit::Splice;
use tp_journal::Journal;
use tp_opid::Hash;
use tp_peer::{Link, Outgoing, PeerError, Received};
use tp_sync::Message;

impl<J: Journal> Served<J> {
    /// Tries to take the peer until it has it.
    pub(crate) fn wait<R: Wait>(&self, rt: &R, badge: Badge<View>) -> Turn<J>
        requires served { badge.table_id ≡ self.now.served }
        requires seat { (t : SeatKnowledge) × (badge.views ≡ idle_seat t ∷ []) }
        ensures served { result.token.table_id ≡ self.now.served }
        ensures taken { (t : SeatKnowledge) → badge.views ≡ idle_seat t ∷ []
            → (k : ℕ) × IsTurn (missed_by k t) result.token.me result.peer }
    {
        let mut badge = badge;
        for _ in rt.forever() {
            match self.take(badge) {
                Ok(turn) => return turn,
                Err(back) => badge = back,
            }
            thread::yield_now();
        }
        unreachable!()
    }

    // Has the peer answer once the seat has the peer.
    fn call<R: Wait>(&self, rt: &R, seat: &mut Seat, request: Request) -> Reply
        requires served { seat.old.served ≡ self.now.served }
        requires link { IsOnlyOn seat.old.state.number (call_in request) }
        ensures served { seat.new.served ≡ seat.old.served }
        ensures shows { CallTakesTurn seat.old.state (call_in request.entry) (reply_of result)
            seat.new.state }
    {
        let badge = mem::replace(&mut seat.badge, Badge::blank());
        let turn = self.wait(rt, badge);
        let (badge, reply) = self.call_on(turn, request);
        seat.badge = badge;
        reply
    }

    /// Lends the peer to a visitor, once the seat has it: all that it does is one turn, and no other seat has the peer meanwhile.
    pub fn visit<R: Wait, V: Visitor<J>>(&self, rt: &R, seat: &mut Seat, visitor: &V) -> V::Answer
        requires served { seat.old.served ≡ self.now.served }
        ensures served { seat.new.served ≡ seat.old.served }
        ensures visits { Visits seat.old.state (V.does visitor.now) seat.new.state }
    {
        let badge = mem::replace(&mut seat.badge, Badge::blank());
        let turn = self.wait(rt, badge);
        let (badge, answer) = self.visit_on(turn, visitor);
        seat.badge = badge;
        answer
    }

    /// Reads the text, as `Peer::read` does, once the seat has the peer.
    pub fn read<R: Wait>(&self, rt: &R, seat: &mut Seat) -> Result<String, PeerError>
        requires { seat.old.served ≡ self.now.served }
        ensures served { seat.new.served ≡ seat.old.served }
        ensures shows { CallTakesTurn seat.old.state Read
            (reply_of_result (λ t. Text (chars (string_bytes t))) result) seat.new.state }
    {
        let reply = self.call(rt, seat, Request::Call(Call::Read));
        reply.into_text()
    }

    /// Edits the text, as `Peer::edit` does, once the seat has the peer.
    pub fn edit<R: Wait>(
        &self,
        rt: &R,
        seat: &mut Seat,
        splices: &[Splice],
        time: u64,
        message: &str,
    ) -> Result<Option<Hash>, PeerError>
        requires { seat.old.served ≡ self.now.served }
        ensures served { seat.new.served ≡ seat.old.served }
        ensures shows { CallTakesTurn seat.old.state (Edit splices.now time (chars message.now))
            (reply_of_result Made result) seat.new.state }
    {
        let reply = self.call(
            rt,
            seat,
            Request::Call(Call::Edit {
                splices,
                time,
                message,
            }),
        );
        reply.into_made()
    }

    /// Receives a message that came on the link with the seat's number, as `Peer::receive_bytes` does, once the seat has
    /// the peer.
    pub fn receive<R: Wait>(
        &self,
        rt: &R,
        seat: &mut Seat,
        bytes: &[u8],
    ) -> Result<Received, PeerError>
        requires { seat.old.served ≡ self.now.served }
        ensures served { seat.new.served ≡ seat.old.served }
        ensures shows { CallTakesTurn seat.old.state (Receive seat.old.state.number bytes.now)
            (reply_of_result (λ r. Reported (report_of r.applied) r.same_heads) result)
            seat.new.state }
    {
        let link = Link(seat.number());
        let reply = self.call(rt, seat, Request::Call(Call::Receive { link, bytes }));
        reply.into_received()
    }

    /// Receives a message that was decoded, on the link with the seat's number, as `Peer::receive_message` does, once the
    /// seat has the peer.
    pub fn receive_message<R: Wait>(
        &self,
        rt: &R,
        seat: &mut Seat,
        message: Message,
    ) -> Result<Received, PeerError>
        requires { seat.old.served ≡ self.now.served }
        ensures served { seat.new.served ≡ seat.old.served }
        ensures shows { CallTakesTurn seat.old.state
            (Receive seat.old.state.number (message_spelling message))
            (reply_of_result (λ r. Reported (report_of r.applied) r.same_heads) result)
            seat.new.state }
    {
        let link = Link(seat.number());
        let reply = self.call(rt, seat, Request::Message { link, message });
        reply.into_received()
    }

    /// Makes the next message on the link with the seat's number, as `Peer::generate_bytes` does, once the seat has the
    /// peer.
    pub fn generate<R: Wait>(&self, rt: &R, seat: &mut Seat) -> Result<Option<Outgoing>, PeerError>
        requires { seat.old.served ≡ self.now.served }
        ensures served { seat.new.served ≡ seat.old.served }
        ensures shows { CallTakesTurn seat.old.state (Generate seat.old.state.number)
            (reply_of_result (λ sent. Generated (sent_of sent)) result)
            seat.new.state }
    {
        let link = Link(seat.number());
        let reply = self.call(rt, seat, Request::Call(Call::Generate { link }));
        reply.into_generated()
    }

    /// Forgets the link with the seat's number, as `Peer::forget_link` does, once the seat has the peer.
    pub fn forget<R: Wait>(&self, rt: &R, seat: &mut Seat) -> Result<(), PeerError>
        requires { seat.old.served ≡ self.now.served }
        ensures served { seat.new.served ≡ seat.old.served }
        ensures shows { CallTakesTurn seat.old.state (Forget seat.old.state.number)
            (reply_of_result (λ _. Forgotten) result)
            seat.new.state }
    {
        let link = Link(seat.number());
        let reply = self.call(rt, seat, Request::Call(Call::Forget { link }));
        reply.into_forgotten()
    }
}
