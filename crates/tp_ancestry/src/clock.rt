//! Version vectors by counters: the operations of a past.

ghost use Rattle.std.specs.Prelude.{◌≡◌, [], if◌then◌else◌, IfOk, OnOk};
ghost use Rattle.tp_opid.specs.declared.actor.Actor.{Actor as ActorOf};
ghost use Rattle.tp_opid.specs.Same.{same_actor};
ghost use Rattle.tp_ancestry.specs.Clocks.{end_at, end_of, has_op, HasEnds, IsClockOf};
ghost use Rattle.tp_ancestry.specs.PastSets.{past_changes, IsPastSetIn};
ghost use Rattle.tp_history.specs.Past.{past};
ghost use Rattle.tp_history.specs.Sound.{Sound};

use crate::ancestry::Ancestry;
use crate::past_set::PastSet;
use std::alloc::{AllocError, Global};
use std::collections::BTreeMap;
use std::marker::Model;
use tp_opid::{Actor, Hash, OpId};

/// Of each actor one more than its greatest counter in a past. An actor's operations there are those below it: none
/// of its changes enters without all that it made before.
#[derive(Drop)]
pub struct Clock {
    ends: BTreeMap<Actor, u64>,
}

impl Model for Clock {
    ghost use Rattle.std.specs.Prelude.{ℕ, List};
    ghost use Rattle.tp_opid.specs.declared.actor.Actor.{Actor};

    ghost Value = { List (Actor × ℕ) };

    ghost view = { λ a. a.ends.entries };
}

impl Clock {
    // No operation.
    fn new(alloc: Global) -> Clock
        ensures { result ≡ [] }
    {
        Clock {
            ends: BTreeMap::new(alloc),
        }
    }

    /// One more than an actor's greatest counter in the past, or 0 where it made none there. One look-up among the
    /// actors of the applied changes.
    #[tactic(auto, unfolding(tp_opid::specs::Order::actor_cmp, tp_opid::specs::Same::same_actor))]
    pub fn end(&self, actor: &Actor) -> u64
        ensures { result ≡ end_at self.now actor.now }
    {
        self.ends.get(actor).copied().unwrap_or(0)
    }

    /// Whether the operation is in the past. One look-up among the actors of the applied changes.
    pub fn has(&self, id: &OpId) -> bool
        ensures { result ≡ has_op self.now id.now }
    {
        id.counter < self.end(&id.actor)
    }

    // Puts in the end of an actor.
    fn set(&mut self, actor: Actor, end: u64) -> Result<(), AllocError>
        ensures { OnOk result ((other : ActorOf) → end_at self.new other
            ≡ (if same_actor actor other then end else end_at self.old other)) }
    {
        self.ends.insert(actor, end)?;
        Ok(())
    }
}

impl Ancestry {
    // One more than the last counter of the actor's changes in the past, or 0. As many questions to the past as the
    // logarithm of the number of the actor's changes.
    fn end_in(&self, past_set: &PastSet, actor: &Actor) -> u64
        requires past { Sound (past_changes past_set.now self.now.changes) }
        requires past_set { IsPastSetIn past_set.now self.now.changes }
        ensures { result ≡ end_of (past_changes past_set.now self.now.changes) actor.now }
    {
        let _changes = self.changes();
        let own = self.changes_by(actor);
        let held = self.count_in(past_set, &own);
        if held == 0 {
            return 0;
        }
        self.end_at(own.get(held as usize - 1))
    }

    // The ends of the actors in a past.
    fn ends(&self, past_set: &PastSet, actors: &[Actor]) -> Result<Clock, AllocError>
        requires past { Sound (past_changes past_set.now self.now.changes) }
        requires past_set { IsPastSetIn past_set.now self.now.changes }
        ensures { IfOk result
            (λ clock. HasEnds (past_changes past_set.now self.now.changes) clock actors.now) }
    {
        let mut clock = Clock::new(self.alloc());
        for actor in actors {
            clock.set(*actor, self.end_in(past_set, actor))?;
        }
        Ok(clock)
    }

    /// The clock of the past of those of the hashes that are known: for each actor as many questions to the past as the
    /// logarithm of the number of its changes, and no walk over the changes.
    pub fn clock(&self, hashes: &[Hash]) -> Result<Clock, AllocError>
        ensures { IfOk result (λ clock. IsClockOf clock (past self.now.changes hashes.now)) }
    {
        let _changes = self.changes();
        let past_set = self.past_set(hashes)?;
        let actors = self.actors()?;
        Ok(self.ends(&past_set, actors.as_slice())?)
    }
}
