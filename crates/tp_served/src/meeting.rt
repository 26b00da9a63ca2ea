//! Two seats that meet.

ghost use Rattle.std.specs.Prelude.{◌≡◌, [], ◌∷◌};
ghost use Rattle.tp_served.specs.Rule.{idle_seat};
ghost use Rattle.tp_served.specs.Seats.{HaveMet, SeatKnowledge};

use crate::rule::{Apart, Look, Together, View};
use crate::seat::Seat;
use crate::served::Served;
use atomic_table::{Badge, Seat as Token};
use std::mem;
use tp_journal::Journal;
use tp_peer::Peer;

// The token of a seat, in whose place a blank badge is left.
fn token_out<J: Journal>(badge: &mut Badge<View>) -> Token<Option<Peer<J>>, View>
    requires { (t : SeatKnowledge) × (badge.old.views ≡ idle_seat t ∷ []) }
    ensures table { result.table_id ≡ badge.old.table_id }
    ensures seat { (t : SeatKnowledge) → badge.old.views ≡ idle_seat t ∷ [] → result.me ≡ (idle_seat t, []) }
{
    mem::replace(badge, Badge::blank()).into_seat()
}

impl<J: Journal> Served<J> {
    /// Tells two seats that what one of them has seen begins what the other has seen. Both stay as they are.
    pub fn meet(&self, one: &mut Seat, other: &mut Seat)
        requires one { one.old.served ≡ self.now.served }
        requires other { other.old.served ≡ self.now.served }
        ensures one { one.new ≡ one.old }
        ensures other { other.new ≡ other.old }
        ensures met { HaveMet one.old.state other.old.state }
    {
        let first = token_out(&mut one.badge);
        let mut both = token_out(&mut other.badge);
        let shared = &self.table.shared;
        shared.join_seat::<Together>(&mut both, first);
        shared.load::<Look>(&mut both, 0);
        let second = shared.split_seat::<Apart>(&mut both);
        one.badge = both.into_badge();
        other.badge = second.into_badge();
    }
}
