//! Branches of changes, and their merges.

use crate::branch::{Branch, Tip, tip_of};
use crate::made::{actor_of, merge_on};
use std::alloc::Global;
use tp_change::Change;

/// Branches, each by actors of its own, whose changes come by turns.
#[derive(Drop)]
pub struct Branches {
    items: Vec<Branch>,
    each: u64,
    made: u64,
}

impl Branches {
    /// `count` branches of one actor each, without changes. Of each one `each` changes come before the next one's.
    pub fn new(alloc: Global, count: u32, each: u64) -> anyhow::Result<Branches> {
        let mut items = Vec::new(alloc);
        for number in 0..count {
            items.push(Branch::new(number, 1))?;
        }
        Ok(Branches {
            items,
            each,
            made: 0,
        })
    }

    /// One branch of `actors` actors.
    pub fn of_one(alloc: Global, actors: u32) -> anyhow::Result<Branches> {
        let mut items = Vec::new(alloc);
        items.push(Branch::new(0, actors))?;
        Ok(Branches {
            items,
            each: 1,
            made: 0,
        })
    }

    // The number of the branch whose change is next.
    fn turn(&self) -> usize {
        let count = (self.items.len() as u64).max(1);
        (self.made / self.each.max(1) % count) as usize
    }

    /// The next changes, in order.
    pub fn next(&mut self, alloc: Global, count: u64) -> anyhow::Result<Vec<Change>> {
        let mut changes = Vec::new(alloc);
        for _ in 0..count {
            let turn = self.turn();
            if let Some(branch) = self.items.get_mut(turn) {
                changes.push(branch.change(alloc)?)?;
            }
            self.made = self.made.saturating_add(1);
        }
        Ok(changes)
    }

    // What the branches end with.
    fn tips(&self, alloc: Global) -> anyhow::Result<Vec<Tip>> {
        let mut tips = Vec::new(alloc);
        for branch in self.items.iter() {
            if let Some(tip) = branch.tip() {
                tips.push(tip)?;
            }
        }
        Ok(tips)
    }

    // Lets each branch go on after the change.
    fn go_on(&mut self, tip: Tip) {
        for branch in self.items.iter_mut() {
            branch.go_on(tip);
        }
    }

    /// The merge of the branches. They go on after it.
    pub fn merge(&mut self, alloc: Global, seq: u64) -> anyhow::Result<Change> {
        let tips = self.tips(alloc)?;
        let merge = merge_on(alloc, actor_of(u32::MAX), seq, tips.as_slice())?;
        self.go_on(tip_of(&merge));
        Ok(merge)
    }
}
