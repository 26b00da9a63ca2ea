//! Receiving changes.

use std::alloc::Global;
use std::rt::Clock;
use tp_bench_measure::{Branch, Stopwatch};
use tp_change::Change;
use tp_document::Document;
use tp_opid::DocId;
use tp_posindex::BlockSequence;

// What it takes to apply the changes, as one list, to the document, in microseconds.
fn apply_to<R: Clock>(
    rt: &R,
    document: &mut Document<BlockSequence>,
    changes: Vec<Change>,
) -> anyhow::Result<u64> {
    let watch = Stopwatch::start(rt);
    document.apply(changes)?;
    Ok(watch.micros(rt))
}

// What it takes to apply the changes, as one list, to a new document, in microseconds.
fn apply<R: Clock + AllocGlobal>(rt: &R, changes: Vec<Change>) -> anyhow::Result<u64> {
    apply_to(rt, &mut Document::new(rt.alloc(), DocId([7; 16])), changes)
}

/// A chain of 100,000 changes of one character, applied as one list.
pub fn run_list<R: Clock + Print + AllocGlobal>(rt: &R) -> anyhow::Result<()> {
    let changes = Branch::new(0, 1).next(rt.alloc(), 100_000)?;
    let micros = apply(rt, changes)?;
    Ok(println!(rt; "apply   100000 changes {micros:>8} micros")?)
}

// A chain of changes of one character; the last first, where that is asked for.
fn chain(alloc: Global, count: u64, reverse: bool) -> anyhow::Result<Vec<Change>> {
    let mut changes = Branch::new(0, 1).next(alloc, count)?;
    if reverse {
        changes.reverse();
    }
    Ok(changes)
}

// Applies a chain of 1,024 changes, and prints what it took.
fn report_apply<R: Clock + Print + AllocGlobal>(rt: &R, reverse: bool) -> anyhow::Result<()> {
    let micros = apply(rt, chain(rt.alloc(), 1_024, reverse)?)?;
    let order = if reverse { "reverse" } else { "ordered" };
    Ok(println!(rt; "{order}   1024 changes {micros:>8} micros")?)
}

/// A chain of 1,024 changes of one character, in order, and the last first.
pub fn run_reverse<R: Clock + Print + AllocGlobal>(rt: &R) -> anyhow::Result<()> {
    report_apply(rt, false)?;
    report_apply(rt, true)
}
