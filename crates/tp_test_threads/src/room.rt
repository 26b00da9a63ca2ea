//! A served peer with three seats.

ghost use Rattle.std.specs.Prelude.{◌≡◌};

use std::alloc::Global;
use tp_journal::Journal;
use tp_peer::Peer;
use tp_served::{Seat, Served};

/// A served peer and its three seats.
#[derive(Drop)]
pub struct Room<J: Journal> {
    /// The served peer.
    pub served: Served<J>,
    /// The first seat.
    pub one: Seat,
    /// The second one.
    pub two: Seat,
    /// The third one.
    pub third: Seat,
    pub ghost one_is: { one.served ≡ served.served },
    pub ghost two_is: { two.served ≡ served.served },
    pub ghost third_is: { third.served ≡ served.served },
}

/// The peer, served with three seats.
pub fn room_of<J: Journal>(alloc: Global, peer: Peer<J>) -> Option<Room<J>> {
    let Ok((served, mut seats)) = Served::open(alloc, peer, 3) else {
        return None;
    };
    let third = seats.pop()?;
    let two = seats.pop()?;
    let one = seats.pop()?;
    Some(Room {
        served,
        one,
        two,
        third,
    })
}

/// The peer, for which all seats were given back.
pub fn peer_of<J: Journal>(alloc: Global, room: Room<J>) -> Option<Peer<J>> {
    let Room {
        served,
        one,
        two,
        third,
    } = room;
    let seats = vec![in alloc; third, one, two].ok()?;
    served.close(seats).ok()
}

// How many characters the seat reads.
fn read_by<J: Journal>(served: &Served<J>, seat: &mut Seat) -> usize
    requires { seat.old.served ≡ served.now.served }
    ensures { seat.new.served ≡ seat.old.served }
{
    match served.try_read(seat) {
        Ok(text) => text.chars().count(),
        Err(_) => 0,
    }
}

/// How many characters each seat reads.
pub fn read_by_each<J: Journal>(room: Room<J>) -> (Room<J>, [usize; 3]) {
    let Room {
        served,
        mut one,
        mut two,
        mut third,
    } = room;
    let lens = [
        read_by(&served, &mut one),
        read_by(&served, &mut two),
        read_by(&served, &mut third),
    ];
    let room = Room {
        served,
        one,
        two,
        third,
    };
    (room, lens)
}

/// The first two seats meet.
pub fn meet_in<J: Journal>(room: Room<J>) -> Room<J> {
    let Room {
        served,
        mut one,
        mut two,
        third,
    } = room;
    served.meet(&mut one, &mut two);
    Room {
        served,
        one,
        two,
        third,
    }
}
