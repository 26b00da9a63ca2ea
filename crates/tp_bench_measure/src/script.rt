//! A sequence, and what its next operations are.

use crate::chance::Chance;
use anyhow::{anyhow, ensure};
use std::alloc::Global;
use tp_opid::{Actor, OpId, Place};
use tp_rga::Sequence;

/// How many characters an author types before the other goes on.
const RUN: usize = 40;

/// Who types.
pub const AUTHORS: [Actor; 2] = [Actor([7; 16]), Actor([8; 16])];

const REMOTE: Actor = Actor([3; 16]);

/// A sequence with what makes its next operations.
#[derive(Drop)]
pub struct Script<S: Sequence> {
    /// The sequence.
    pub sequence: S,
    counter: u64,
    chance: Chance,
    last: Place,
}

impl<S: Sequence> Script<S> {
    /// A sequence without elements.
    pub fn new(alloc: Global) -> Script<S> {
        Script {
            sequence: S::new(alloc),
            counter: 0,
            chance: Chance::new(),
            last: Place::Start,
        }
    }

    // A position of the text that chance picks.
    fn any_position(&mut self) -> usize {
        let len = self.sequence.len() as u64;
        self.chance.below(len) as usize
    }

    // The identifier of the next operation.
    fn next_id(&mut self, actor: Actor) -> OpId {
        self.counter = self.counter.saturating_add(1);
        OpId {
            counter: self.counter,
            actor,
        }
    }

    // An insert after the reference, with the test that it may come.
    fn insert(&mut self, actor: Actor, after: Place) -> anyhow::Result<OpId> {
        let id = self.next_id(actor);
        ensure!(self.sequence.can_insert(&id, &after), "not to be inserted");
        self.sequence.insert(id, after, 'a')?;
        Ok(id)
    }

    // A delete of the element, with the test that it is there.
    fn delete(&mut self, actor: Actor, target: OpId) -> anyhow::Result<()> {
        let by = self.next_id(actor);
        ensure!(self.sequence.contains(&target), "not to be deleted");
        Ok(self.sequence.delete(target, by)?)
    }

    /// Types `count` characters after the last one typed.
    pub fn type_run(&mut self, actor: Actor, count: usize) -> anyhow::Result<()> {
        for _ in 0..count {
            let id = self.insert(actor, self.last)?;
            self.last = Place::After(id);
        }
        Ok(())
    }

    // Takes one character of each run back, so that no author's counters follow one another for long.
    fn take_back(&mut self, actor: Actor) -> anyhow::Result<()> {
        match self.last {
            Place::Start => Ok(()),
            Place::After(id) => self.delete(actor, id),
        }
    }

    /// The text of `size` elements, typed at the end by two authors in turn, a character of each run taken back.
    pub fn fill(&mut self, size: usize) -> anyhow::Result<()> {
        for _ in 0..size / (RUN * 2) {
            for author in AUTHORS {
                self.type_run(author, RUN)?;
                self.take_back(author)?;
            }
        }
        Ok(())
    }

    // The identifier of a character that chance picks.
    fn any_id(&mut self) -> anyhow::Result<OpId> {
        let at = self.any_position();
        self.sequence.id_at(at).ok_or_else(|| anyhow!("no text"))
    }

    /// `count` of their identifiers, which chance picks.
    pub fn any_ids(&mut self, alloc: Global, count: usize) -> anyhow::Result<Vec<OpId>> {
        let mut ids = Vec::with_capacity(alloc, count)?;
        for _ in 0..count {
            ids.push(self.any_id()?)?;
        }
        Ok(ids)
    }

    /// Inserts `count` characters, each after one that chance picks.
    pub fn insert_anywhere(&mut self, count: usize) -> anyhow::Result<()> {
        for _ in 0..count {
            let after = self.any_id()?;
            self.insert(AUTHORS[0], Place::After(after))?;
        }
        Ok(())
    }

    /// Deletes `count` characters, which chance picks.
    pub fn delete_anywhere(&mut self, count: usize) -> anyhow::Result<()> {
        for _ in 0..count {
            let target = self.any_id()?;
            self.delete(AUTHORS[0], target)?;
        }
        Ok(())
    }

    /// Inserts a character of another author after each of the elements.
    pub fn insert_remote(&mut self, after: &[OpId]) -> anyhow::Result<()> {
        for id in after {
            self.insert(REMOTE, Place::After(*id))?;
        }
        Ok(())
    }

    /// Reads at positions that chance picks; answers how many were the given one.
    pub fn read(&mut self, count: usize, sought: char) -> usize {
        let mut seen = 0usize;
        for _ in 0..count {
            let at = self.any_position();
            if self.sequence.char_at(at) == Some(sought) {
                seen = seen.saturating_add(1);
            }
        }
        seen
    }

    /// Asks for positions; answers how many were there.
    pub fn locate(&self, ids: &[OpId]) -> usize {
        let mut seen = 0usize;
        for id in ids {
            if self.sequence.position(id).is_some() {
                seen = seen.saturating_add(1);
            }
        }
        seen
    }
}
