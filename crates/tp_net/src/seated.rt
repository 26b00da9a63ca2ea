//! A seat at a served peer, as the host of a session.

ghost use Rattle.std.specs.Prelude.{◌≡◌};
ghost use Rattle.std.specs.Coded.{Coded-set};
ghost use Rattle.atomic_table.specs.Seated.{table_id_coded};
ghost use Rattle.tp_net.specs.Sessions.{TakesTurn};

use crate::tally::Tally;
use std::sync::Wait;
use tp_journal::Journal;
use tp_peer::{Outgoing, PeerError, Received};
use tp_served::{Seat, Served};
use tp_session::Host;
use tp_sync::Message;

/// A seat that is lent, with its served peer, as the host of sessions on the link with the seat's number.
///
/// Each call of the session is one turn of the seat: it waits until the seat has the peer. Nothing is said of how long
/// that takes.
#[derive(Drop)]
pub struct SeatedHost<'a, 's, J: Journal, R: Wait> {
    rt: &'a R,
    served: &'a Served<J>,
    seat: &'s mut Seat,
    tally: Tally,
    ghost at_its_peer: { seat.now.served ≡ served.now.served } by { Coded-set table_id_coded _ _ },
}

impl<'a, 's, J: Journal, R: Wait> SeatedHost<'a, 's, J, R> {
    /// The seat, which is one of the served peer's.
    pub fn new(rt: &'a R, served: &'a Served<J>, seat: &'s mut Seat) -> SeatedHost<'a, 's, J, R>
        requires { seat.old.served ≡ served.now.served }
        ensures same_reference { result.seat.ghost_name ≡ seat.entry.ghost_name }
        ensures seat { result.seat.now ≡ seat.old }
    {
        SeatedHost {
            rt,
            served,
            seat,
            tally: Tally::new(),
        }
    }

    /// How many changes its messages have moved.
    pub fn tally(&self) -> Tally {
        self.tally
    }
}

impl<'a, 's, J: Journal, R: Wait> Host for SeatedHost<'a, 's, J, R> {
    ghost use Rattle.std.proofs.Common.{refl, ◌∙◌};
    ghost use Rattle.tp_served.specs.Seats.{SeatKnowledge};

    ghost Seen = { SeatKnowledge };

    ghost seen = { λ h. h.seat.now.state };

    ghost steps = { TakesTurn };

    ghost goes_on = { λ a b. (b.seat.ghost_name ≡ a.seat.ghost_name)
        × (b.seat.now.served ≡ a.seat.now.served) };

    fn receive(&mut self, bytes: &[u8]) -> Result<Received, PeerError> {
        let received = self.served.receive(self.rt, self.seat, bytes);
        self.tally.receive(&received);
        received
    }

    fn receive_message(&mut self, message: Message) -> Result<Received, PeerError> {
        let received = self.served.receive_message(self.rt, self.seat, message);
        self.tally.receive(&received);
        received
    }

    fn generate(&mut self) -> Result<Option<Outgoing>, PeerError> {
        let made = self.served.generate(self.rt, self.seat);
        self.tally.send(&made);
        made
    }

    fn forget(&mut self) -> Result<(), PeerError> {
        self.served.forget(self.rt, self.seat)
    }

    ghost stays = { λ h. (refl, refl) };

    ghost joins = { λ a b c first then. (then.0 ∙ first.0, then.1 ∙ first.1) };
}
