//! Chains of changes.

use crate::made::{actor_of, change_on};
use std::alloc::Global;
use tp_change::Change;
use tp_opid::{Hash, OpId};

/// A change of one character, and its element.
#[derive(Clone, Copy)]
pub struct Tip {
    /// The hash of the change.
    pub hash: Hash,
    /// The identifier of its first operation.
    pub id: OpId,
}

/// The change and its first operation.
pub fn tip_of(change: &Change) -> Tip {
    Tip {
        hash: change.hash(),
        id: OpId {
            counter: change.start(),
            actor: change.actor(),
        },
    }
}

/// A chain of changes by actors in turn, each a character after the one before it.
#[derive(Drop)]
pub struct Branch {
    first: u32,
    actors: u32,
    made: u32,
    tip: Option<Tip>,
}

impl Branch {
    /// No change yet. There are `actors`, numbered from `first` on.
    pub fn new(first: u32, actors: u32) -> Branch {
        Branch {
            first,
            actors,
            made: 0,
            tip: None,
        }
    }

    /// What its next change depends on.
    pub fn tip(&self) -> Option<Tip> {
        self.tip
    }

    /// Goes on after the change of another actor.
    pub fn go_on(&mut self, tip: Tip) {
        self.tip = Some(tip);
    }

    /// The next change of the chain.
    pub fn change(&mut self, alloc: Global) -> anyhow::Result<Change> {
        let actors = self.actors.max(1);
        let actor = actor_of(self.first.wrapping_add(self.made % actors));
        let number = u64::from(self.made / actors).saturating_add(1);
        let next = change_on(alloc, actor, number, self.tip)?;
        self.made = self.made.saturating_add(1);
        self.tip = Some(tip_of(&next));
        Ok(next)
    }

    /// The next changes of the chain, in order.
    pub fn next(&mut self, alloc: Global, count: u64) -> anyhow::Result<Vec<Change>> {
        let mut changes = Vec::new(alloc);
        for _ in 0..count {
            changes.push(self.change(alloc)?)?;
        }
        Ok(changes)
    }
}
