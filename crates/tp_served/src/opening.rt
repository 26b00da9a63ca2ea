//! Opening a served peer.

ghost use Rattle.std.specs.Prelude.{◌≡◌, ℕ, ◌+◌, ◌≤◌, ◌<◌, [], ◌++◌, length, Some, None, IfOk, IfErr, vec_len, vec_capacity};
ghost use Rattle.tp_peer.specs.PeerState.{PeerState};
ghost use Rattle.tp_served.specs.Seats.{fresh_from, seats_of};
ghost use Rattle.tp_served.specs.Rule.{idle};
ghost use Rattle.tp_served.specs.Calls.{RefusesServing};

use crate::error::ServedError;
use crate::rule::{Apart, Opening, View};
use crate::seat::Seat;
use crate::served::{Served, Shared};
use atomic_table::{Refused, Seat as Token, Table};
use std::alloc::{AllocError, Global};
use std::snapshot::Snapshot;
use tp_journal::Journal;
use tp_peer::Peer;

/// How many seats a served peer has at most.
pub const MAX_SEATS: usize = 64;

/// A peer that wasn't served.
#[derive(Drop)]
pub struct Unserved<J: Journal> {
    /// The peer, given back; `None` where memory was refused: it has ended.
    pub peer: Option<Peer<J>>,
    /// Why it wasn't.
    pub error: ServedError,
}

// The table of the peer, and the token of all its seats.
fn table_of<J: Journal>(
    alloc: Global,
    peer: Peer<J>,
    count: usize,
) -> Result<(Shared<J>, Token<Option<Peer<J>>, View>), AllocError>
    requires { 0 < count }
    ensures { IfOk result (λ t. (t.0.shared.table_id.words ≡ 1) × (t.0.shared.table_id.slots ≡ 1)
        × (t.0.shared.key.peer.value ≡ peer) × (t.0.shared.key.count ≡ count)
        × (t.1.table_id ≡ t.0.shared.table_id) × (t.1.me ≡ (idle (fresh_from peer 0 count), []))) }
{
    let about = Opening {
        peer: Snapshot::of(&peer),
        count,
    };
    let mut slots = Vec::with_capacity(alloc, 1)?;
    slots.push_reserved(Some(peer));
    match Table::new(alloc, &[0], slots, &about) {
        Ok(parts) => Ok(parts),
        Err(Refused { slots: _ }) => Err(AllocError),
    }
}

// Parts the seats that are joined in the token, and puts them in a list.
fn part<J: Journal>(
    table: &Shared<J>,
    token: Token<Option<Peer<J>>, View>,
    seats: &mut Vec<Seat>,
    count: u8,
)
    requires word { table.now.shared.table_id.words ≡ 1 }
    requires token { token.table_id ≡ table.now.shared.table_id }
    requires joined { (p : PeerState) × (token.me ≡ (idle (fresh_from p 0 count), [])) }
    requires room { (seats.old.items ≡ []) × (vec_len seats.old + count ≤ vec_capacity seats.old) }
    ensures { (p : PeerState) → token.me ≡ (idle (fresh_from p 0 count), [])
        → seats.new.items ≡ seats_of table.now.shared.table_id (fresh_from p 0 count) }
{
    let mut token = token;
    for number in 0..count {
        let others = table.shared.split_seat::<Apart>(&mut token);
        seats.push_reserved(Seat {
            number,
            badge: token.into_badge(),
        });
        token = others;
    }
}

impl<J: Journal> Served<J> {
    /// Serves the peer to as many threads as it gets seats, numbered from 0: 1 to 64.
    ///
    /// Another number is refused as `BadSeats`, and the peer comes back. The only other refusal is `OutOfMemory`; the
    /// peer has ended then.
    pub fn open(
        alloc: Global,
        peer: Peer<J>,
        seats: usize,
    ) -> Result<(Served<J>, Vec<Seat>), Unserved<J>>
        ensures served { IfOk result (λ r. (r.0.opened ≡ peer) × (r.0.count ≡ seats)
            × (r.1.items ≡ seats_of r.0.served (fresh_from peer 0 seats))) }
        ensures some { IfOk result (λ _. (0 < seats) × (seats ≤ 64)) }
        ensures err { IfErr result (λ u. RefusesServing seats peer u.error u.peer) }
    {
        if seats == 0 || seats > MAX_SEATS {
            return Err(Unserved {
                peer: Some(peer),
                error: ServedError::BadSeats,
            });
        }
        match open_with(alloc, peer, seats as u8) {
            Ok(served) => Ok(served),
            Err(_) => Err(Unserved {
                peer: None,
                error: ServedError::OutOfMemory,
            }),
        }
    }
}

// Opens as `open` does, where the number of seats is right.
fn open_with<J: Journal>(
    alloc: Global,
    peer: Peer<J>,
    count: u8,
) -> Result<(Served<J>, Vec<Seat>), AllocError>
    requires { 0 < count }
    ensures { IfOk result (λ r. (r.0.opened ≡ peer) × (r.0.count ≡ count)
        × (r.1.items ≡ seats_of r.0.served (fresh_from peer 0 count))) }
{
    let id = peer.document().id();
    let mut seats = match Vec::with_capacity(alloc, usize::from(count)) {
        Ok(seats) => seats,
        Err(error) => {
            drop(peer);
            return Err(error);
        }
    };
    let (table, token) = table_of(alloc, peer, usize::from(count))?;
    part(&table, token, &mut seats, count);
    let served = Served {
        table,
        id,
        count: usize::from(count),
    };
    Ok((served, seats))
}
