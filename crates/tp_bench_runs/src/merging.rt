//! Changes merged into documents of several sizes.

use anyhow::ensure;
use std::alloc::Global;
use std::rt::Clock;
use tp_bench_measure::{Branch, Stopwatch};
use tp_change::Change;
use tp_document::Document;
use tp_opid::DocId;
use tp_posindex::BlockSequence;

/// How many changes are merged.
const MERGED: u64 = 1_000;

// How often each is done.
const TIMES: u64 = 5;

// The changes, and a document of them.
fn document_of(alloc: Global, changes: Vec<Change>) -> anyhow::Result<Document<BlockSequence>> {
    let mut document = Document::new(alloc, DocId([7; 16]));
    document.apply(changes)?;
    Ok(document)
}

// Merges the one document into a fork of the other, and prints what that took.
fn merge_once<R: Clock + Print>(
    rt: &R,
    document: &Document<BlockSequence>,
    more: &Document<BlockSequence>,
) -> anyhow::Result<()> {
    let mut into = document.fork()?;
    let watch = Stopwatch::start(rt);
    into.merge(more)?;
    let micros = watch.micros(rt);
    let count = document.changes().len();
    ensure!(
        into.changes().len() == more.changes().len(),
        "changes are missing"
    );
    Ok(println!(rt; "merge {MERGED:>6} changes into {count:>7} {micros:>8} micros")?)
}

fn merge_all<R: Clock + Print>(
    rt: &R,
    document: &Document<BlockSequence>,
    more: &Document<BlockSequence>,
) -> anyhow::Result<()> {
    for _ in 0..TIMES {
        merge_once(rt, document, more)?;
    }
    Ok(())
}

// Merges into a document of `count` changes.
fn run_on<R: Clock + Print + AllocGlobal>(rt: &R, count: u64) -> anyhow::Result<()> {
    let mut branch = Branch::new(0, 1);
    let document = document_of(rt.alloc(), branch.next(rt.alloc(), count)?)?;
    let mut more = document.fork()?;
    more.apply(branch.next(rt.alloc(), MERGED)?)?;
    merge_all(rt, &document, &more)
}

/// 1,000 changes of one character merged into documents of 10,000 and 100,000.
pub fn run<R: Clock + Print + AllocGlobal>(rt: &R) -> anyhow::Result<()> {
    run_on(rt, 10_000)?;
    run_on(rt, 100_000)
}
