//! A served peer with all its seats.

ghost use Rattle.std.specs.Prelude.{◌≡◌};
ghost use Rattle.tp_served.specs.Calls.{AreOf};

use crate::world::RowPeer;
use std::alloc::Global;
use std::marker::Model;
use std::mem;
use tp_edit::Splice;
use tp_journal::FuseJournal;
use tp_opid::{DocId, Hash};
use tp_peer::{Outgoing, Received};
use tp_served::{MAX_SEATS, Seat, Served, ServedError, Unclosed, Unserved};
use tp_sync::Message;

/// A served peer with all its seats; one of them has the next call.
///
/// Contracts see which served peer it is. All of the seats are its own.
#[derive(Drop)]
pub struct Table {
    served: Served<FuseJournal>,
    seat: Seat,
    others: Vec<Seat>,
}

impl Model for Table {
    ghost use Rattle.std.specs.Prelude.{◌≡◌};
    ghost use Rattle.atomic_table.specs.Seated.{TableId};
    ghost use Rattle.tp_served.specs.Calls.{AreOf};

    ghost Value = { TableId };

    ghost view = { λ t. t.served.served };

    ghost invariant = { λ t. (t.seat.served ≡ t.served.served)
        × AreOf t.served.served t.others.items };
}

/// A table that wasn't closed.
#[derive(Drop)]
pub struct Unended {
    /// It, given back; `None` where it had no seat.
    pub table: Option<Table>,
    /// Why it wasn't.
    pub error: ServedError,
}

// The table of these seats; `None` where there is none.
fn table_of(served: Served<FuseJournal>, mut seats: Vec<Seat>) -> Option<Table>
    requires { AreOf served.served seats.items }
{
    match seats.pop() {
        Some(seat) => Some(Table {
            served,
            seat,
            others: seats,
        }),
        None => None,
    }
}

// A table with a seat more, which has the next call then.
fn with_seat(unclosed: Unclosed<FuseJournal>, seat: Seat) -> Unended
    requires seat { seat.served ≡ unclosed.served.served }
    requires seats { AreOf unclosed.served.served unclosed.seats.items }
{
    let Unclosed {
        served,
        seats: others,
        error,
    } = unclosed;
    Unended {
        table: Some(Table {
            served,
            seat,
            others,
        }),
        error,
    }
}

// A table as it was.
fn as_it_was(unclosed: Unclosed<FuseJournal>) -> Unended
    requires { AreOf unclosed.served.served unclosed.seats.items }
{
    let Unclosed {
        served,
        seats,
        error,
    } = unclosed;
    Unended {
        table: table_of(served, seats),
        error,
    }
}

impl Table {
    /// A peer that is served with `seats` seats; or why not, and whether it came back.
    pub fn open(alloc: Global, peer: RowPeer, seats: usize) -> Result<Table, (ServedError, bool)> {
        match Served::open(alloc, peer, seats) {
            Ok((served, seats)) => match table_of(served, seats) {
                Some(table) => Ok(table),
                None => Err((ServedError::BadSeats, false)),
            },
            Err(Unserved { peer, error }) => Err((error, peer.is_some())),
        }
    }

    /// The identifier of its document.
    pub fn id(&self) -> DocId {
        self.served.id()
    }

    /// How many seats it has.
    pub fn seat_count(&self) -> usize {
        self.served.seat_count()
    }

    // Lets the next seat have the calls, in a circle.
    fn go_on(&mut self) {
        if let Some(next) = self.others.pop() {
            let before = mem::replace(&mut self.seat, next);
            let _there_is_room = self.others.insert(0, before);
        }
    }

    /// Lets the seat with the number have the next call. Whether there is one.
    pub fn turn_to(&mut self, number: u64) -> bool {
        for _ in 0..MAX_SEATS {
            if self.seat.number() == number {
                return true;
            }
            self.go_on();
        }
        false
    }

    /// Reads the text.
    pub fn read(&mut self) -> Result<String, ServedError> {
        self.served.try_read(&mut self.seat)
    }

    /// Inserts a text at the start.
    pub fn insert(&mut self, text: &str) -> Result<Option<Hash>, ServedError> {
        let splice = Splice {
            at: 0,
            del: 0,
            text,
        };
        self.served.try_edit(&mut self.seat, &[splice], 0, "")
    }

    /// Receives a message on the seat's link.
    pub fn receive(&mut self, bytes: &[u8]) -> Result<Received, ServedError> {
        self.served.try_receive(&mut self.seat, bytes)
    }

    /// Receives a message that was decoded, on the seat's link.
    pub fn receive_message(&mut self, message: Message) -> Result<Received, ServedError> {
        self.served.try_receive_message(&mut self.seat, message)
    }

    /// Makes the next message on the seat's link.
    pub fn send(&mut self) -> Result<Option<Outgoing>, ServedError> {
        self.served.try_generate(&mut self.seat)
    }

    /// Forgets the seat's link.
    pub fn forget(&mut self) -> Result<(), ServedError> {
        self.served.try_forget(&mut self.seat)
    }

    /// Lets the seat meet another one. Whether there is one.
    pub fn meet(&mut self) -> bool {
        match self.others.pop() {
            Some(mut other) => {
                self.served.meet(&mut self.seat, &mut other);
                let _there_is_room = self.others.insert(0, other);
                true
            }
            None => false,
        }
    }

    /// Ends it without the seat.
    pub fn close_without(self) -> Result<RowPeer, Unended> {
        let Table {
            served,
            seat,
            others,
        } = self;
        match served.close(others) {
            Ok(peer) => Ok(peer),
            Err(unclosed) => Err(with_seat(unclosed, seat)),
        }
    }

    /// Ends it.
    pub fn close(self) -> Result<RowPeer, Unended> {
        let Table {
            served,
            seat,
            mut others,
        } = self;
        let _there_is_room = others.insert(0, seat);
        match served.close(others) {
            Ok(peer) => Ok(peer),
            Err(unclosed) => Err(as_it_was(unclosed)),
        }
    }
}
