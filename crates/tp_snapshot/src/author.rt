//! The operations of a past, asked for one after another.

ghost use Rattle.std.specs.Prelude.{◌≡◌, false, IsTrue};
ghost use Rattle.tp_ancestry.specs.Clocks.{end_at, has_op};

use tp_graph::Clock;
use tp_opid::{Actor, OpId};

/// An actor, and where its operations in a past end. It is kept from one operation to the next, since most are of the
/// actor of the one before.
#[derive(Clone, Copy)]
pub(crate) struct Author {
    actor: Actor,
    end: u64,
}

impl Author {
    ghost use Rattle.tp_snapshot.specs.Snapshots.{IsAuthorOf};

    /// Some actor. One look-up.
    pub(crate) fn of(clock: &Clock) -> Author
        ensures { IsAuthorOf clock.now result }
    {
        let actor = Actor([0; 16]);
        Author {
            actor,
            end: clock.end(&actor),
        }
    }

    /// Whether it is known without a look-up that an operation isn't in the past: it is this actor's, and past the end.
    pub(crate) fn lacks(&self, _clock: &Clock, id: &OpId) -> bool
        requires { IsAuthorOf _clock.now self.now }
        ensures { IsTrue result → has_op _clock.now id.now ≡ false }
    {
        if id.counter < self.end {
            return false;
        }
        self.actor.is(&id.actor)
    }

    /// Whether an operation is in the past. It takes a look-up only where the one before was another actor's.
    pub(crate) fn has(&mut self, clock: &Clock, id: &OpId) -> bool
        requires { IsAuthorOf clock.now self.old }
        ensures author { IsAuthorOf clock.now self.new }
        ensures has { result ≡ has_op clock.now id.now }
    {
        if !self.actor.is(&id.actor) {
            *self = Author {
                actor: id.actor,
                end: clock.end(&id.actor),
            };
        }
        id.counter < self.end
    }
}
