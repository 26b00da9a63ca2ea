//! Forks of a document, and its text at earlier heads.

use anyhow::anyhow;
use std::rt::Clock;
use tp_bench_measure::{Branch, Stopwatch};
use tp_document::Document;
use tp_opid::{DocId, Hash};
use tp_posindex::BlockSequence;

// How often each is done.
const TIMES: u64 = 5;

// Forks the document, and prints what that took each time.
fn report_forks<R: Clock + Print>(
    rt: &R,
    document: &Document<BlockSequence>,
) -> anyhow::Result<()> {
    for _ in 0..TIMES {
        let watch = Stopwatch::start(rt);
        let fork = document.fork()?;
        let micros = watch.micros(rt);
        drop(fork);
        println!(rt; "fork    100000 changes {micros:>8} micros")?;
    }
    Ok(())
}

// Reads the document's text at the head, and prints what that took each time.
fn report_texts<R: Clock + Print>(
    rt: &R,
    document: &Document<BlockSequence>,
    head: Hash,
) -> anyhow::Result<()> {
    for _ in 0..TIMES {
        let watch = Stopwatch::start(rt);
        let text = document.text_at(&[head])?;
        let micros = watch.micros(rt);
        drop(text);
        println!(rt; "text_at  50000 changes {micros:>8} micros")?;
    }
    Ok(())
}

fn run_on<R: Clock + Print + AllocGlobal>(
    rt: &R,
    document: &mut Document<BlockSequence>,
) -> anyhow::Result<()> {
    let changes = Branch::new(0, 1).next(rt.alloc(), 100_000)?;
    let Some(middle) = changes.get(49_999).map(|change| change.hash()) else {
        return Err(anyhow!("a change is missing"));
    };
    document.apply(changes)?;
    report_forks(rt, document)?;
    report_texts(rt, document, middle)
}

/// A chain of 100,000 changes of one character: the document's forks, and its text at the half of them.
pub fn run<R: Clock + Print + AllocGlobal>(rt: &R) -> anyhow::Result<()> {
    run_on(rt, &mut Document::new(rt.alloc(), DocId([7; 16])))
}
