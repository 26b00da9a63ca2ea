//! Changes made for benchmarks.

use crate::branch::Tip;
use std::alloc::Global;
use tp_change::{Change, ChangeParts, Record};
use tp_list::{Items, Text};
use tp_opid::{Actor, Hash, OpId, Place};

/// Whose changes they are.
pub const AUTHOR: Actor = Actor([7; 16]);

/// The actor with the number. Actors of numbers that follow one another are spread as chance would spread them.
pub fn actor_of(number: u32) -> Actor {
    let [a, b, c, d] = number.wrapping_mul(2_654_435_769).to_be_bytes();
    Actor([a, b, c, d, 7, 7, 7, 7, 7, 7, 7, 7, 7, 7, 7, 7])
}

/// The author's element with the counter.
pub fn element_of(counter: u64) -> OpId {
    OpId {
        counter,
        actor: AUTHOR,
    }
}

/// The place after the author's element with the counter; 0 stands for the start.
pub fn place_of(counter: u64) -> Place {
    if counter == 0 {
        Place::Start
    } else {
        Place::After(element_of(counter))
    }
}

/// A change of the author's.
pub fn change(
    alloc: Global,
    seq: u64,
    start: u64,
    deps: Vec<Hash>,
    records: Vec<Record>,
) -> anyhow::Result<Change> {
    change_by(alloc, AUTHOR, seq, start, deps, records)
}

/// A change of an actor's.
pub fn change_by(
    alloc: Global,
    actor: Actor,
    seq: u64,
    start: u64,
    deps: Vec<Hash>,
    records: Vec<Record>,
) -> anyhow::Result<Change> {
    let parts = ChangeParts {
        actor,
        seq,
        start,
        time: 0,
        message: Text::new(String::new(alloc)),
        deps: Items::new(deps),
        records: Items::new(records),
    };
    Ok(Change::new(alloc, parts)?)
}

/// A change of an actor's of one character, on a change and after its element. Its lists have no room that isn't used.
pub fn change_on(
    alloc: Global,
    actor: Actor,
    seq: u64,
    tip: Option<Tip>,
) -> anyhow::Result<Change> {
    let mut deps = Vec::with_capacity(alloc, usize::from(tip.is_some()))?;
    let mut after = Place::Start;
    let mut start = 1;
    if let Some(tip) = tip {
        deps.push(tip.hash)?;
        after = Place::After(tip.id);
        start = tip.id.counter.saturating_add(1);
    }
    let records = run_after(alloc, after, "a")?;
    change_by(alloc, actor, seq, start, deps, records)
}

/// A change of an actor's of one character at the start, on all of the changes.
pub fn merge_on(alloc: Global, actor: Actor, seq: u64, tips: &[Tip]) -> anyhow::Result<Change> {
    let mut deps = Vec::new(alloc);
    let mut last = 0;
    for tip in tips {
        deps.push(tip.hash)?;
        last = tip.id.counter.max(last);
    }
    deps.sort()?;
    let records = run_after(alloc, Place::Start, "a")?;
    change_by(alloc, actor, seq, last.saturating_add(1), deps, records)
}

/// A run of text after a place, alone.
pub fn run_after(alloc: Global, after: Place, text: &str) -> anyhow::Result<Vec<Record>> {
    let text = Text::new(String::from_str(alloc, text)?);
    let mut records = Vec::with_capacity(alloc, 1)?;
    records.push(Record::Insert { after, text })?;
    Ok(records)
}
