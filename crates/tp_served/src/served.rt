//! The served peer: its parts.

ghost use Rattle.std.specs.Prelude.{◌≡◌};

use crate::rule::{Opening, Rule, View};
use atomic_table::Table;
use std::alloc::Global;
use std::marker::Model;
use tp_journal::Journal;
use tp_opid::DocId;
use tp_peer::Peer;

pub(crate) type Shared<J> = Table<Option<Peer<J>>, View, Opening<J>, Rule, Global>;

/// A peer that the threads with its seats share. The peer is in one slot, and one word says whether it is there: a
/// call takes it out by one compare-exchange of the word from 0 to 1, and gives it back by one store of 0.
///
/// The forms of a call that begin with `try_` answer `Busy` where the word was taken, and return always. The others try
/// again until they have the peer; nothing is said of whether they return, or of who comes first. A call on a seat
/// finds all that the seat has seen, and its link as the seat left it. Between seats that never met no order is known;
/// [`meet`](Served::meet) tells of two.
///
/// Contracts see which served peer it is, the peer that it was opened with, and how many seats it has.
#[derive(Drop)]
pub struct Served<J: Journal> {
    pub(crate) table: Shared<J>,
    pub(crate) id: DocId,
    pub(crate) count: usize,
}

impl<J: Journal> Model for Served<J> {
    ghost use Rattle.std.specs.Prelude.{◌≡◌, ◌<◌};
    ghost use Rattle.tp_served.specs.Seats.{ServedState};

    ghost Value = { ServedState };

    ghost view = { λ s. record { served = s.table.shared.table_id; opened = s.table.shared.key.peer.value; count = s.table.shared.key.count } };

    ghost invariant = { λ s. (s.table.shared.table_id.words ≡ 1) × (s.table.shared.table_id.slots ≡ 1)
        × (s.id ≡ s.table.shared.key.peer.value.id) × (s.count ≡ s.table.shared.key.count) × (0 < s.count) };
}

impl<J: Journal> Served<J> {
    /// The identifier of the document.
    pub fn id(&self) -> DocId
        ensures { result ≡ self.now.opened.id }
    {
        self.id
    }

    /// How many seats it has.
    pub fn seat_count(&self) -> usize
        ensures { result ≡ self.now.count }
    {
        self.count
    }
}
