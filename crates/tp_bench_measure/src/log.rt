//! Logs of changes.

use crate::chance::Chance;
use crate::made::{change, place_of, run_after};
use std::alloc::Global;
use tp_change::Change;
use tp_opid::Hash;

const TYPED: &str = "0123456789";

/// A log, and what its next change depends on.
#[derive(Drop)]
struct Log {
    alloc: Global,
    bytes: Vec<u8>,
    changes: u64,
    head: Option<Hash>,
}

impl Log {
    fn new(alloc: Global) -> Log {
        Log {
            alloc,
            bytes: Vec::new(alloc),
            changes: 0,
            head: None,
        }
    }

    // How many characters there are.
    fn len(&self) -> u64 {
        self.changes.saturating_mul(10)
    }

    // The next change, which inserts after the element with the counter; 0 stands for the start.
    fn next(&self, counter: u64) -> anyhow::Result<Change> {
        let mut deps = Vec::new(self.alloc);
        if let Some(hash) = self.head {
            deps.push(hash)?;
        }
        let records = run_after(self.alloc, place_of(counter), TYPED)?;
        let (seq, start) = (self.changes.saturating_add(1), self.len().saturating_add(1));
        change(self.alloc, seq, start, deps, records)
    }

    // Writes the change as the last.
    fn add(&mut self, change: &Change) -> anyhow::Result<()> {
        let bytes = change.encode()?;
        let len = u32::try_from(bytes.len()).unwrap_or(u32::MAX);
        self.bytes.extend_from_slice(&len.to_be_bytes())?;
        self.bytes.extend_from_slice(bytes.as_slice())?;
        self.changes = self.changes.saturating_add(1);
        self.head = Some(change.hash());
        Ok(())
    }
}

// The counter of an element that chance picks among `len`; 0 where there is none.
fn any_of(chance: &mut Chance, len: u64) -> u64 {
    if len == 0 {
        0
    } else {
        chance.below(len).saturating_add(1)
    }
}

/// A log of `count` changes of ten characters, each at the end, or after an element that chance picks.
pub fn log_of(alloc: Global, count: u64, anywhere: bool) -> anyhow::Result<Vec<u8>> {
    let mut log = Log::new(alloc);
    let mut chance = Chance::new();
    for _ in 0..count {
        let len = log.len();
        let counter = if anywhere {
            any_of(&mut chance, len)
        } else {
            len
        };
        let change = log.next(counter)?;
        log.add(&change)?;
    }
    Ok(log.bytes)
}
