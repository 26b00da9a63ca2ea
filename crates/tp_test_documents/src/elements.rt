//! Calls that show all elements of a text, deleted ones among them.

use crate::world::World;
use std::alloc::Global;
use tp_change::{Change, Op};
use tp_rga::{Element, Sequence};
use tp_test_runner::{Fault, Shelf, Words, answer_ok, put_id, range};

/// Puts an operation into a sequence that has what it refers to.
pub fn put_op<S: Sequence>(sequence: &mut S, op: Op) -> Result<(), Fault> {
    let there = match &op {
        Op::Insert { id, after, .. } => sequence.can_insert(id, after),
        Op::Delete { target, .. } => sequence.contains(target),
    };
    if !there {
        return Err(Fault::Row("no such element"));
    }
    match op {
        Op::Insert { id, after, ch } => sequence.insert(id, after, ch)?,
        Op::Delete { id, target } => sequence.delete(target, id)?,
    }
    Ok(())
}

// Puts the operations of a change into a sequence.
fn put_change<S: Sequence>(sequence: &mut S, change: &Change) -> Result<(), Fault> {
    for op in change.ops() {
        put_op(sequence, op)?;
    }
    Ok(())
}

// A sequence of the changes.
fn sequence_of<S: Sequence>(alloc: Global, changes: &[Change]) -> Result<S, Fault> {
    let mut sequence = S::new(alloc);
    for change in changes {
        put_change(&mut sequence, change)?;
    }
    Ok(sequence)
}

// `sequence NAME DOCUMENT`: a sequence of the document's applied changes.
fn sequence<S: Sequence>(world: &mut World<S>, words: &mut Words) -> Result<String, Fault> {
    let name = words.next()?;
    let changes = world.documents.get(words.next()?)?.changes();
    let made = sequence_of(world.alloc, changes)?;
    world.sequences.put(name, made)?;
    answer_ok(world.alloc)
}

// Adds an element: its identifier and character, after `-` where it is deleted.
fn put_element(out: &mut String, element: &Element) -> Result<(), Fault> {
    if !out.is_empty() {
        out.push(' ')?;
    }
    if element.deleted {
        out.push('-')?;
    }
    put_id(out, &element.id)?;
    Ok(out.push(element.ch)?)
}

// `elements SEQUENCE FROM..TO`: these of the list of all elements.
fn elements<S: Sequence>(sequences: &Shelf<S>, words: &mut Words) -> Result<String, Fault> {
    let sequence = sequences.get(words.next()?)?;
    let (from, to) = range(words.next()?)?;
    let mut out = String::new(sequences.alloc());
    for at in from..to {
        match sequence.element(at) {
            Some(element) => put_element(&mut out, &element)?,
            None => return Err(Fault::Row("there is no element")),
        }
    }
    Ok(out)
}

/// Makes a call on a sequence; `None` where the word is none of these.
pub fn call<S: Sequence>(
    world: &mut World<S>,
    word: &str,
    words: &mut Words,
) -> Option<Result<String, Fault>> {
    match word {
        "sequence" => Some(sequence(world, words)),
        "elements" => Some(elements(&world.sequences, words)),
        _ => None,
    }
}
