//! The call that shows the blocks of a sequence of blocks.

use crate::elements::put_op;
use std::alloc::Global;
use tp_change::Op;
use tp_opid::{Actor, OpId, Place};
use tp_posindex::{BlockInfo, BlockSequence};
use tp_rga::Sequence;
use tp_test_runner::{Fault, Words, count};

// The identifier with the counter.
fn id(counter: u64) -> OpId {
    OpId {
        counter,
        actor: Actor([1; 16]),
    }
}

// Elements with the counters from 1 to the count, each inserted after the one before.
fn chain_of(alloc: Global, count: u64) -> Result<BlockSequence, Fault> {
    let mut sequence = BlockSequence::new(alloc);
    for before in 0..count {
        let after = if before == 0 {
            Place::Start
        } else {
            Place::After(id(before))
        };
        let insert = Op::Insert {
            id: id(before + 1),
            after,
            ch: 'x',
        };
        put_op(&mut sequence, insert)?;
    }
    Ok(sequence)
}

// Deletes the first visible element `times` times.
fn delete_first(sequence: &mut BlockSequence, times: u64) -> Result<(), Fault> {
    for _ in 0..times {
        let Some(target) = sequence.id_at(0) else {
            return Err(Fault::Row("there is no element"));
        };
        put_op(sequence, Op::Delete { id: target, target })?;
    }
    Ok(())
}

// Adds a block: the indexes of its elements, and how many of them are visible.
fn put_block(out: &mut String, block: &BlockInfo) -> Result<(), Fault> {
    if !out.is_empty() {
        out.push(' ')?;
    }
    let BlockInfo {
        first,
        len,
        visible,
    } = *block;
    Ok(write!(out, "{first}+{len}:{visible}")?)
}

// All blocks.
fn list_blocks(alloc: Global, sequence: &BlockSequence) -> Result<String, Fault> {
    let mut out = String::new(alloc);
    for i in 0..sequence.block_count() {
        match sequence.block(i) {
            Some(block) => put_block(&mut out, &block)?,
            None => return Err(Fault::Row("there is no block")),
        }
    }
    Ok(out)
}

/// `blocks COUNT DELETED`: the blocks of `COUNT` elements that are inserted at the end one by one, where the first
/// `DELETED` are deleted: of each the index of its first element, how many it has and how many are visible; then the
/// block of the last element.
pub fn call(alloc: Global, words: &mut Words) -> Result<String, Fault> {
    let all = count(words.next()?)? as u64;
    let deleted = count(words.next()?)? as u64;
    let mut sequence = chain_of(alloc, all)?;
    delete_first(&mut sequence, deleted)?;
    let blocks = list_blocks(alloc, &sequence)?;
    match sequence.block_of(&id(all)) {
        Some(last) => Ok(format!(in alloc; "{blocks} last {last}")?),
        None => Ok(blocks),
    }
}
