//! The rule of the shared state, and its steps. These types are for the proofs alone.

ghost use Rattle.tp_served.specs.Steps.{first_view_of, give_step, join_views, look_step, others_of, spent_view, try_step};

use atomic_table::{Join, Play, Split, TableRule};
use std::marker::Model;
use std::snapshot::Snapshot;
use tp_journal::Journal;
use tp_peer::Peer;

/// What one token at the table knows. No value is made.
pub struct View(());

impl Model for View {
    ghost use Rattle.std.specs.Prelude.{[]};
    ghost use Rattle.tp_served.specs.Rule.{ViewState, idle};

    ghost Value = { ViewState };

    ghost view = { λ _. idle [] };
}

/// What the table is given as it is made: the peer that is opened, and how many seats it gets.
#[derive(Drop)]
pub(crate) struct Opening<J: Journal> {
    pub(crate) peer: Snapshot<Peer<J>>,
    pub(crate) count: usize,
}

pub(crate) struct Rule;

impl<J: Journal> TableRule<Option<Peer<J>>, View, Opening<J>> for Rule {
    ghost use Rattle.tp_served.specs.Seats.{fresh_from};
    ghost use Rattle.tp_served.specs.Rule.{ServedInvariant, idle};

    ghost holds = { λ key. ServedInvariant key.peer.value key.count };

    ghost first = { λ key. idle (fresh_from key.peer.value 0 key.count) };
}

/// Take or miss.
pub(crate) struct Take;

impl<J: Journal> Play<Option<Peer<J>>, View> for Take {
    ghost then = { try_step };
}

/// Give back.
pub(crate) struct Give;

impl<J: Journal> Play<Option<Peer<J>>, View> for Give {
    ghost then = { give_step };
}

/// Look.
pub(crate) struct Look;

impl<J: Journal> Play<Option<Peer<J>>, View> for Look {
    ghost then = { look_step };
}

/// Join.
pub(crate) struct Together;

impl Join<View> for Together {
    ghost both = { join_views };

    ghost spent = { spent_view };
}

/// Split.
pub(crate) struct Apart;

impl Split<View> for Apart {
    ghost left = { first_view_of };

    ghost right = { others_of };
}
