//! What is measured, at growing sizes.

use anyhow::ensure;
use std::rt::{Clock, Files};
use tp_bench_measure::{AUTHORS, Script, Stopwatch, nanos_each, report_memory};
use tp_opid::OpId;
use tp_rga::Sequence;

const SIZES: [usize; 4] = [1_000, 10_000, 100_000, 1_000_000];

/// What is measured.
#[derive(Clone, Copy)]
enum Task {
    Type,
    Insert,
    Delete,
    Remote,
    CharAt,
    Position,
}

impl Task {
    fn name(self) -> &'static str {
        match self {
            Task::Type => "typing at the end",
            Task::Insert => "an insert anywhere",
            Task::Delete => "a delete anywhere",
            Task::Remote => "a remote insert",
            Task::CharAt => "char_at",
            Task::Position => "position",
        }
    }
}

const TASKS: [Task; 6] = [
    Task::CharAt,
    Task::Position,
    Task::Type,
    Task::Remote,
    Task::Insert,
    Task::Delete,
];

// Does a task `rounds` times, or for the elements.
fn perform<S: Sequence>(
    script: &mut Script<S>,
    task: Task,
    ids: &[OpId],
    rounds: usize,
) -> anyhow::Result<()> {
    match task {
        Task::Type => script.type_run(AUTHORS[0], rounds),
        Task::Insert => script.insert_anywhere(rounds),
        Task::Delete => script.delete_anywhere(rounds),
        Task::Remote => script.insert_remote(ids),
        Task::CharAt => {
            ensure!(script.read(rounds, 'a') == rounds, "characters are missing");
            Ok(())
        }
        Task::Position => {
            ensure!(script.locate(ids) == ids.len(), "elements are missing");
            Ok(())
        }
    }
}

// What a task took, in nanoseconds for each time.
fn measure<R: Clock + Print + AllocGlobal, S: Sequence>(
    rt: &R,
    script: &mut Script<S>,
    task: Task,
    rounds: usize,
) -> anyhow::Result<()> {
    let ids = script.any_ids(rt.alloc(), rounds)?;
    let watch = Stopwatch::start(rt);
    perform(script, task, &ids, rounds)?;
    let micros = watch.micros(rt);
    print_nanos(rt, task.name(), micros, rounds)
}

// Prints how long each time took.
fn print_nanos<R: Print>(rt: &R, name: &str, micros: u64, rounds: usize) -> anyhow::Result<()> {
    let nanos = nanos_each(micros, rounds as u64);
    Ok(println!(rt; "  {name:<20} {nanos:>9} ns")?)
}

// Reads all elements one after another, as the text is read.
fn measure_elements<R: Clock + Print + AllocGlobal, S: Sequence>(
    rt: &R,
    script: &Script<S>,
) -> anyhow::Result<()> {
    let watch = Stopwatch::start(rt);
    let mut seen = 0usize;
    for index in 0..script.sequence.all() {
        if let Some(element) = script.sequence.element(index) {
            if !element.deleted {
                seen = seen.saturating_add(1);
            }
        }
    }
    let micros = watch.micros(rt);
    print_nanos(rt, "element by element", micros, seen)
}

// Fills a sequence, and measures each task on it.
fn measure_size<R: Files + Clock + Print + AllocGlobal, S: Sequence>(
    rt: &R,
    script: &mut Script<S>,
    size: usize,
    rounds: usize,
) -> anyhow::Result<()> {
    let watch = Stopwatch::start(rt);
    script.fill(size)?;
    let micros = watch.micros(rt);
    println!(rt; "{size} elements:")?;
    print_nanos(rt, "filled, an element", micros, size)?;
    report_memory(rt)?;
    measure_elements(rt, script)?;
    for task in TASKS {
        measure(rt, script, task, rounds.min(size / 4))?;
    }
    Ok(())
}

/// Each operation on sequences of 1,000 elements, and of ten times as many up to the largest size, so often in each.
pub fn run<R: Files + Clock + Print + AllocGlobal, S: Sequence>(
    rt: &R,
    largest: usize,
    rounds: usize,
) -> anyhow::Result<()> {
    for size in SIZES {
        if size <= largest {
            let mut script: Script<S> = Script::new(rt.alloc());
            measure_size(rt, &mut script, size, rounds)?;
        }
    }
    Ok(())
}
