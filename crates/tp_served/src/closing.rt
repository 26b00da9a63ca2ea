//! Closing a served peer.

ghost use Rattle.std.specs.Prelude.{◌≡◌, ◌≢◌, ◌<◌, [], ◌∷◌, ◌++◌, length, IfOk, IfErr};
ghost use Rattle.tp_served.specs.Seats.{states_of};
ghost use Rattle.tp_served.specs.Rule.{idle};
ghost use Rattle.tp_served.specs.Calls.{AreOf, Closes};

use crate::error::ServedError;
use crate::rule::{Together, View};
use crate::seat::Seat;
use crate::served::{Served, Shared};
use atomic_table::Seat as Token;
use tp_journal::Journal;
use tp_peer::Peer;

/// A served peer that wasn't closed.
#[derive(Drop)]
pub struct Unclosed<J: Journal> {
    /// It, given back.
    pub served: Served<J>,
    /// The seats, given back.
    pub seats: Vec<Seat>,
    /// Why it wasn't.
    pub error: ServedError,
}

// Joins the seats, of which there is one at least.
fn join_all<J: Journal>(
    table: &Shared<J>,
    last: Seat,
    seats: Vec<Seat>,
) -> Token<Option<Peer<J>>, View>
    requires word { table.now.shared.table_id.words ≡ 1 }
    requires last { last.served ≡ table.now.shared.table_id }
    requires seats { AreOf table.now.shared.table_id seats.items }
    ensures served { result.table_id ≡ table.now.shared.table_id }
    ensures joined { result.me ≡ (idle (states_of (seats.items ++ last ∷ [])), []) }
{
    let Seat { number: _, badge } = last;
    let mut joined = badge.into_seat();
    let mut seats = seats;
    while let Some(seat) = seats.pop() {
        let Seat { number: _, badge } = seat;
        table
            .shared
            .join_seat::<Together>(&mut joined, badge.into_seat());
    }
    joined
}

impl<J: Journal> Served<J> {
    /// Ends the serving, and gives the peer back: as the last turn of a seat left it.
    ///
    /// All seats have to be given, in any order. It is refused as `BadSeats` exactly where they aren't all, and all
    /// comes back then. No memory.
    pub fn close(self, seats: Vec<Seat>) -> Result<Peer<J>, Unclosed<J>>
        requires { AreOf self.served seats.items }
        ensures closes { IfOk result (λ p. Closes self.opened self.count (states_of seats.items) p) }
        ensures all { IfOk result (λ _. length seats.items ≡ self.count) }
        ensures err { IfErr result (λ u. (u.error ≡ ServedError.BadSeats) × (u.served ≡ self)
            × (u.seats.items ≡ seats.items) × (length seats.items ≢ self.count)) }
    {
        let mut seats = seats;
        if seats.len() != self.count {
            return Err(Unclosed {
                served: self,
                seats,
                error: ServedError::BadSeats,
            });
        }
        match seats.pop() {
            Some(last) => Ok(self.end(last, seats)),
            None => unreachable!(),
        }
    }

    // Closes as `close` does, where the seats are all.
    fn end(self, last: Seat, seats: Vec<Seat>) -> Peer<J>
        requires last { last.served ≡ self.served }
        requires seats { AreOf self.served seats.items }
        requires all { length (seats.items ++ last ∷ []) ≡ self.count }
        ensures { Closes self.opened self.count (states_of (seats.items ++ last ∷ [])) result }
    {
        let Served {
            table,
            id: _,
            count: _,
        } = self;
        let joined = join_all(&table, last, seats);
        let mut closed = table.close_with(joined);
        let peer = closed.take(0);
        closed.free();
        match peer {
            Some(peer) => peer,
            None => unreachable!(),
        }
    }
}
