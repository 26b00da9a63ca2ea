//! A seat's turn in which the peer is out, with whoever has the turn.

ghost use Rattle.std.specs.Prelude.{◌≡◌, ℕ};
ghost use Rattle.tp_served.specs.Seats.{IsKeptIn, gave, missed_by, took};
ghost use Rattle.tp_served.specs.Steps.{StepsAsSeat};

use crate::rule::View;
use crate::seat::Seat;
use crate::served::Served;
use crate::turn::Turn;
use atomic_table::Seat as Token;
use std::marker::Model;
use std::sync::Wait;
use tp_journal::Journal;
use tp_peer::Peer;

/// What stays of a seat while its peer is out. It becomes the seat again where the peer is given back; one that is dropped keeps all
/// others from the peer for good.
///
/// Contracts see which served peer it is of, what its seat knows, and the peer that was taken out.
#[derive(Drop)]
pub struct Absence<J: Journal> {
    number: u8,
    token: Token<Option<Peer<J>>, View>,
}

impl<J: Journal> Model for Absence<J> {
    ghost use Rattle.tp_served.specs.Absences.{AbsenceState, IsAbsence, absence_state};

    ghost Value = { AbsenceState };

    ghost view = { λ a. absence_state a.token.table_id a.token.me };

    ghost invariant = { λ a. IsAbsence a.number a.token.me };
}

impl<J: Journal> Served<J> {
    /// Waits until the seat has the peer, and takes it out: until it is given back, no other seat has it.
    pub fn begin_turn<R: Wait>(&self, rt: &R, seat: Seat) -> (Absence<J>, Peer<J>)
        requires { seat.served ≡ self.now.served }
        ensures served { result.0.served ≡ self.now.served }
        ensures out { result.0.out ≡ result.1 }
        ensures seat { (k : ℕ) × (result.0.seat ≡ took (missed_by k seat.state))
            × IsKeptIn (missed_by k seat.state) result.1 }
    {
        let Seat { number, badge } = seat;
        let Turn { token, peer } = self.wait(rt, badge);
        (Absence { number, token }, peer)
    }

    /// Gives the peer back, which may have done what a turn of the seat may do.
    pub fn end_turn(&self, absence: Absence<J>, peer: Peer<J>) -> Seat
        requires served { absence.served ≡ self.now.served }
        requires steps { StepsAsSeat absence.seat.number absence.out peer }
        ensures served { result.served ≡ self.now.served }
        ensures gave { result.state ≡ gave absence.out peer absence.seat }
    {
        let Absence { number, token } = absence;
        let badge = self.give(Turn { token, peer });
        Seat { number, badge }
    }
}
