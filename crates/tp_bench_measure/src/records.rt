//! Records of large changes, whose references chance picks.

use crate::chance::Chance;
use crate::made::{element_of, place_of};
use std::alloc::Global;
use tp_change::Record;
use tp_list::Text;

/// Records of a change of the author's.
#[derive(Drop)]
struct Records {
    alloc: Global,
    items: Vec<Record>,
}

impl Records {
    fn new(alloc: Global) -> Records {
        Records {
            alloc,
            items: Vec::new(alloc),
        }
    }

    // A character after the element with the counter; 0 stands for the start.
    fn insert(&mut self, counter: u64) -> anyhow::Result<()> {
        let after = place_of(counter);
        let text = Text::new(String::from_str(self.alloc, "a")?);
        Ok(self.items.push(Record::Insert { after, text })?)
    }

    // A delete of the element with the counter.
    fn delete(&mut self, counter: u64) -> anyhow::Result<()> {
        let target = element_of(counter);
        Ok(self.items.push(Record::Delete { target })?)
    }
}

// The counter of the insert with the number, where inserts and deletes come by turns.
fn odd(number: u64) -> u64 {
    number.saturating_mul(2).saturating_add(1)
}

/// `count` inserts alone, each after one of those before it.
pub fn inserts(alloc: Global, count: u64) -> anyhow::Result<Vec<Record>> {
    let mut records = Records::new(alloc);
    let mut chance = Chance::new();
    for number in 0..count {
        records.insert(chance.below(number.saturating_add(1)))?;
    }
    Ok(records.items)
}

/// Inserts and deletes by turns, `count` in all, each after or of an insert before it.
pub fn both(alloc: Global, count: u64) -> anyhow::Result<Vec<Record>> {
    let mut records = Records::new(alloc);
    let mut chance = Chance::new();
    for pair in 0..count / 2 {
        let picked = odd(chance.below(pair));
        let counter = if pair == 0 { 0 } else { picked };
        records.insert(counter)?;
        records.delete(counter.max(1))?;
    }
    Ok(records.items)
}

/// `count` inserts, each after one of the inserts of as many records of both kinds.
pub fn after_both(alloc: Global, count: u64) -> anyhow::Result<Vec<Record>> {
    let mut records = Records::new(alloc);
    let mut chance = Chance::new();
    for _ in 0..count {
        records.insert(odd(chance.below(count / 2)))?;
    }
    Ok(records.items)
}
