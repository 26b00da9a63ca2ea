//! A thread's seat at a served peer.

ghost use Rattle.std.specs.Prelude.{◌≡◌};

use crate::rule::View;
use atomic_table::Badge;
use std::marker::Model;

/// A thread's right to make calls on a served peer, one at a time. It is made by `Served::open`, has a number from 0,
/// and goes back at `Served::close`. A seat that is dropped keeps its peer from being closed.
///
/// Contracts see which served peer it is of, and a `SeatKnowledge`: what its turns found, left and entered. At run time
/// it is its number alone.
#[derive(Drop)]
pub struct Seat {
    pub(crate) number: u8,
    pub(crate) badge: Badge<View>,
}

impl Model for Seat {
    ghost use Rattle.tp_served.specs.Seats.{SeatState};
    ghost use Rattle.tp_served.specs.Sitting.{seat_state, IsSeat};

    ghost Value = { SeatState };

    ghost view = { λ s. seat_state s.badge.table_id s.badge.views };

    ghost invariant = { λ s. IsSeat s.number s.badge.table_id s.badge.views };
}

impl Seat {
    /// Its number, from 0. It is also the number of its link to the served peer.
    pub fn number(&self) -> u64
        ensures { result ≡ self.now.state.number }
    {
        u64::from(self.number)
    }
}
