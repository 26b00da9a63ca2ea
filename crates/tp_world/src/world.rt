//! The world that runs.

ghost use Rattle.std.specs.Prelude.{◌≡◌, ℕ, map, IfErr, IfOk, IsOkUnless};
ghost use Rattle.tp_headline.specs.declared.error.WorldError.TheVariants.{OutOfMemory};
ghost use Rattle.tp_headline.specs.Follows.{Follows, IsMoment};
ghost use Rattle.tp_headline.specs.Happening.{Next};
ghost use Rattle.tp_headline.specs.Headline.{Headline};
ghost use Rattle.tp_headline.specs.Refining.{IsOneAct};
ghost use Rattle.tp_headline.specs.Running.{GoesOnWith};
ghost use Rattle.tp_headline.specs.World.{beginning, lists_of};
ghost use Rattle.tp_world.specs.Order.{IsOneList};
ghost use Rattle.tp_event.specs.Views.{event_of, event_reply_of};

use crate::ordering::order_of;
use crate::stepping::step;
use std::alloc::Global;
use std::marker::Model;
use tp_event::{Entry, Event, ReadRecord, Reply, State};
use tp_headline::WorldError;
use tp_list::array_len;
use tp_opid::{DocId, OpId};

/// A world of peers that edit one text, each with its journal in memory.
///
/// Contracts see the `World` of the headline: the peers, the messages that were sent, the changes that were made, the
/// actors that were named, and the reads.
pub struct World {
    state: State,
}

impl Drop for World {
    fn drop(self) {
        let World { state: _ } = self;
    }
}

impl Model for World {
    ghost use Rattle.tp_headline.specs.World.{World as WorldState};

    ghost Value = { WorldState };

    ghost use Rattle.tp_event.specs.States.{world_of};

    ghost view = { λ w. world_of w.state };

    ghost use Rattle.tp_headline.specs.WorldInvariant.{WorldInvariant};

    ghost invariant = { λ w. WorldInvariant (world_of w.state) };
}

impl World {
    /// A world in which nothing happened yet. No memory.
    pub fn new(alloc: Global, id: DocId) -> World
        ensures { result ≡ beginning id }
    {
        let _len = array_len(id.0);
        World {
            state: State::new(alloc, id),
        }
    }

    /// The event happens, or is refused; a refused one changes nothing. To the peers as lists of changes it is one act.
    ///
    /// It is refused at the first of these that holds: `NoPeer` where a peer that it names isn't there; `ActorUsed` where
    /// the actor that it names was named before; `ForeignChange` where it brings bytes of any origin that carry a change
    /// which no peer made; `HashClash` where it would make a change with the hash of another one that was made; `Stopped`
    /// where a peer that it acts on or reads has stopped; `NoEntry` where the wire has no entry with the number that it
    /// names. It may be refused as `OutOfMemory` at any time, where a growth of the world's own was refused.
    ///
    /// A step costs what its call on the peer costs, and what judging it takes. A new actor is compared with those that
    /// were named. An edit is made twice, and its hash is looked up among those that were noted; only where it is there,
    /// it is compared with those of all changes that were made. Bytes of any origin are decoded twice, and the hash of
    /// each change that they carry is compared with those of all that were made; one that was made is written out, and so
    /// is the one with its hash. A message that was sent isn't judged. A crash opens the journal again.
    pub fn step(&mut self, event: Event) -> Reply
        ensures next { Next self.old (event_of event.entry) (event_reply_of result) self.new }
        ensures act { IsOneAct self.old (event_of event.entry) (event_reply_of result) self.new }
        ensures headline { Headline (lists_of self.new) }
        ensures follows { Follows self.new }
    {
        step(&mut self.state, &event)
    }

    /// The events happen one after another, and what is promised of a world holds at each moment between two of them. Room
    /// for the replies is taken first: where that is refused nothing happens.
    pub fn run(&mut self, events: Vec<Event>) -> Result<Vec<Reply>, WorldError>
        ensures ok { IfOk result
            (λ replies. GoesOnWith self.old (map event_of events.entry.items)
            (map event_reply_of replies.items) self.new) }
        ensures moments { IfOk result
            (λ replies. (k : ℕ) → IsMoment self.old (map event_of events.entry.items)
            (map event_reply_of replies.items) self.new k) }
        ensures headline { Headline (lists_of self.new) }
        ensures follows { Follows self.new }
        ensures err { IfErr result (λ e. (e ≡ OutOfMemory) × (self.new ≡ self.old)) }
    {
        let mut replies = match Vec::with_capacity(self.state.alloc, events.len()) {
            Ok(replies) => replies,
            Err(_) => return Err(WorldError::OutOfMemory),
        };
        let all = events.as_slice();
        for event in all {
            replies.push_reserved(self.step(*event));
        }
        Ok(replies)
    }

    /// The messages that were sent so far, in order. Each stays there.
    pub fn wire(&self) -> &[Entry]
        ensures { result.now ≡ self.now.wire }
    {
        &self.state.wire
    }

    /// What was read so far, in order.
    pub fn reads(&self) -> &[ReadRecord]
        ensures reads { result.now ≡ self.now.reads }
        ensures headline { Headline (lists_of self.now) }
    {
        &self.state.reads
    }

    /// The one list of all elements that were ever inserted at any peer, deleted ones among them, each with its
    /// identifier and its character. The only refusal is `OutOfMemory`.
    ///
    /// Each change is entered anew.
    pub fn order(&self) -> Result<Vec<(OpId, char)>, WorldError>
        ensures list { IfOk result (λ v. IsOneList self.now.made v.items) }
        ensures err { IsOkUnless result OutOfMemory }
    {
        match order_of(self.state.alloc, self.state.made.as_slice()) {
            Ok(list) => Ok(list),
            Err(_) => Err(WorldError::OutOfMemory),
        }
    }
}
