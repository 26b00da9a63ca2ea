//! Showing a log.

use std::rt::{Clock, Files};
use tp_bench_measure::{Stopwatch, log_of, report, report_memory};

// Shows the log, and answers how many bytes the text has and what it took, in microseconds.
fn time_show<R: Clock + AllocGlobal>(rt: &R, log: &[u8]) -> anyhow::Result<(usize, u64)> {
    let watch = Stopwatch::start(rt);
    let mut reader = log;
    let mut out = Vec::new(rt.alloc());
    tp_textpeer::show(rt.alloc(), &mut reader, &mut out)?;
    Ok((out.len(), watch.micros(rt)))
}

// Shows the log, and prints what it took.
fn report_shown<R: Clock + Print + AllocGlobal>(
    rt: &R,
    name: &str,
    log: &[u8],
) -> anyhow::Result<()> {
    let size = log.len();
    let (text, micros) = time_show(rt, log)?;
    report(rt, name, size as u64, micros)?;
    Ok(println!(rt; "{size} bytes of log, {text} bytes of text")?)
}

/// A log of `changes` changes of ten characters, each at the end, or after an element that chance picks.
pub fn run<R: Files + Clock + Print + AllocGlobal>(
    rt: &R,
    name: &str,
    changes: u64,
    anywhere: bool,
) -> anyhow::Result<()> {
    let log = log_of(rt.alloc(), changes, anywhere)?;
    report_shown(rt, name, &log)?;
    report_memory(rt)
}
