//! Changes made in crowds.

use crate::fault::Fault;
use crate::literals::actor_of;
use std::alloc::Global;
use tp_change::{Change, ChangeParts, Record};
use tp_list::{Items, Text};
use tp_opid::{Actor, Place};

// The records of a change that inserts a text at the start.
fn inserting(alloc: Global, text: &str) -> Result<Vec<Record>, Fault> {
    let text = Text::new(String::from_str(alloc, text)?);
    let mut records = Vec::new(alloc);
    records.push(Record::Insert {
        after: Place::Start,
        text,
    })?;
    Ok(records)
}

// The first change of an actor, which inserts a text.
fn first_of(alloc: Global, actor: Actor, text: &str) -> Result<Change, Fault> {
    let records = Items::new(inserting(alloc, text)?);
    let parts = ChangeParts {
        actor,
        seq: 1,
        start: 1,
        time: 0,
        message: Text::new(String::new(alloc)),
        deps: Items::new(Vec::new(alloc)),
        records,
    };
    Change::new(alloc, parts).ok().ok_or(Fault::Memory)
}

/// The first changes of the actors with the numbers from `from` up to, but without, `to`. Each change inserts the
/// text.
pub fn firsts(alloc: Global, from: usize, to: usize, text: &str) -> Result<Vec<Change>, Fault> {
    let mut made = Vec::new(alloc);
    for number in from..to {
        let actor = actor_of(u16::try_from(number).ok().ok_or(Fault::Row("no actor"))?);
        made.push(first_of(alloc, actor, text)?)?;
    }
    Ok(made)
}
