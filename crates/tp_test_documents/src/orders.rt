//! The call `orders`: documents that receive changes in each order.

use crate::world::World;
use std::alloc::Global;
use tp_change::Change;
use tp_document::{Applied, DocError, Document};
use tp_opid::DocId;
use tp_rga::Sequence;
use tp_test_runner::{Fault, Words, copies, copy, refusal, text_of};

fn copies_of(alloc: Global, all: &[Change]) -> Result<Vec<Change>, Fault> {
    let mut made = Vec::new(alloc);
    for change in all {
        made.push(copy(change)?)?;
    }
    Ok(made)
}

// The changes in their order number `turn`: at each step the number says which of those that are left comes.
fn in_order(alloc: Global, all: &[Change], turn: usize) -> Result<Vec<Change>, Fault> {
    let mut left = copies_of(alloc, all)?;
    let mut made = Vec::new(alloc);
    let mut turn = turn;
    for _ in all {
        if !left.is_empty() {
            let at = turn % left.len();
            turn /= left.len();
            made.push(left.remove(at))?;
        }
    }
    Ok(made)
}

// How many orders the changes have; at most 8 changes, for whose orders there is time.
fn order_count(changes: usize) -> Result<usize, Fault> {
    match changes {
        0 | 1 => Ok(1),
        2 => Ok(2),
        3 => Ok(6),
        4 => Ok(24),
        5 => Ok(120),
        6 => Ok(720),
        7 => Ok(5_040),
        8 => Ok(40_320),
        _ => Err(Fault::Row("too many orders")),
    }
}

fn apply_one<S: Sequence>(
    alloc: Global,
    document: &mut Document<S>,
    change: Change,
) -> Result<Result<Applied, DocError>, Fault> {
    let mut one = Vec::new(alloc);
    one.push(change)?;
    Ok(document.apply(one))
}

// The text of a document that received the changes one by one.
fn text_one_by_one<S: Sequence>(
    alloc: Global,
    document: &mut Document<S>,
    came: Vec<Change>,
) -> Result<String, Fault> {
    for change in came {
        if let Err(error) = apply_one(alloc, document, change)? {
            return refusal(alloc, error);
        }
    }
    text_of(alloc, document)
}

// The text of a document that received the changes as one list.
fn text_at_once<S: Sequence>(
    alloc: Global,
    document: &mut Document<S>,
    came: Vec<Change>,
) -> Result<String, Fault> {
    match document.apply(came) {
        Ok(_) => text_of(alloc, document),
        Err(error) => refusal(alloc, error),
    }
}

// The text of a new document that received the changes in their order number `turn`, as one list or one by one.
fn text_in_order<S: Sequence>(
    alloc: Global,
    all: &[Change],
    turn: usize,
    at_once: bool,
) -> Result<String, Fault> {
    let came = in_order(alloc, all, turn)?;
    let mut document: Document<S> = Document::new(alloc, DocId([7; 16]));
    if at_once {
        text_at_once(alloc, &mut document, came)
    } else {
        text_one_by_one(alloc, &mut document, came)
    }
}

// The text that differs from the first in the order number `turn`, if one does.
fn other_text<S: Sequence>(
    alloc: Global,
    all: &[Change],
    turn: usize,
    first: &str,
) -> Result<Option<String>, Fault> {
    let by_one = text_in_order::<S>(alloc, all, turn, false)?;
    if by_one.as_str() != first {
        return Ok(Some(by_one));
    }
    let at_once = text_in_order::<S>(alloc, all, turn, true)?;
    if at_once.as_str() != first {
        return Ok(Some(at_once));
    }
    Ok(None)
}

fn in_all_orders<S: Sequence>(alloc: Global, all: &[Change], first: &str) -> Result<String, Fault> {
    let count = order_count(all.len())?;
    for turn in 0..count {
        if let Some(other) = other_text::<S>(alloc, all, turn, first)? {
            return Ok(format!(in alloc; "{first} and {other}")?);
        }
    }
    Ok(format!(in alloc; "{first} in {count} orders")?)
}

/// `orders CHANGES`: the text of new documents that receive the changes, in each order of theirs, one by one and as one
/// list; `TEXT and TEXT` are the first two that differ.
pub fn call<S: Sequence>(world: &World<S>, words: &mut Words) -> Result<String, Fault> {
    let all = copies(&world.changes, &world.documents, words.next()?)?;
    let first = text_in_order::<S>(world.alloc, &all, 0, true)?;
    in_all_orders::<S>(world.alloc, &all, first.as_str())
}
