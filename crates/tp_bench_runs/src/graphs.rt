//! Adding changes to a graph.

use anyhow::anyhow;
use std::alloc::Global;
use std::rt::{Clock, Files};
use tp_bench_measure::{
    Branches, Stopwatch, after_both, both, change, inserts, memory, nanos_each,
};
use tp_change::Change;
use tp_graph::Graph;
use tp_opid::Hash;

const TENTHS: u64 = 10;

const ROUNDS: u64 = 10;

// How many changes a round of branches has.
const CHANGES: u64 = 40_000;

// How many records a large change has.
const RECORDS: u64 = 60_000;

// Adds the change.
fn add(graph: &mut Graph, change: Change) -> anyhow::Result<()> {
    match graph.add(change) {
        Ok(_) => Ok(()),
        Err(rejected) => Err(anyhow!("refused: {}", rejected.error)),
    }
}

// Adds the change, and answers what that took in microseconds.
fn time_add<R: Clock>(rt: &R, graph: &mut Graph, change: Change) -> anyhow::Result<u64> {
    let watch = Stopwatch::start(rt);
    add(graph, change)?;
    Ok(watch.micros(rt))
}

// Adds the changes in order.
fn add_all(graph: &mut Graph, changes: Vec<Change>) -> anyhow::Result<()> {
    for change in changes {
        add(graph, change)?;
    }
    Ok(())
}

// Adds the next `count` changes, and prints what it took, in nanoseconds a change.
fn add_tenth<R: Clock + Print + AllocGlobal>(
    rt: &R,
    graph: &mut Graph,
    branches: &mut Branches,
    count: u64,
) -> anyhow::Result<()> {
    let batch = branches.next(rt.alloc(), count)?;
    let watch = Stopwatch::start(rt);
    add_all(graph, batch)?;
    let nanos = nanos_each(watch.micros(rt), count);
    Ok(print!(rt; " {nanos:>6}")?)
}

// Adds `changes` changes to the graph, by tenths.
fn add_tenths<R: Clock + Print + AllocGlobal>(
    rt: &R,
    graph: &mut Graph,
    branches: &mut Branches,
    changes: u64,
) -> anyhow::Result<()> {
    for _ in 0..TENTHS {
        add_tenth(rt, graph, branches, changes / TENTHS)?;
    }
    Ok(())
}

// Adds the merge of the branches, and prints what it took, in microseconds.
fn add_merge<R: Clock + Print + AllocGlobal>(
    rt: &R,
    graph: &mut Graph,
    branches: &mut Branches,
    seq: u64,
) -> anyhow::Result<()> {
    let merge = branches.merge(rt.alloc(), seq)?;
    let micros = time_add(rt, graph, merge)?;
    Ok(println!(rt; "  merge {micros:>5}")?)
}

// Adds ten rounds of changes, each with its merge.
fn add_rounds<R: Clock + Print + AllocGlobal>(
    rt: &R,
    graph: &mut Graph,
    branches: &mut Branches,
) -> anyhow::Result<()> {
    for round in 1..=ROUNDS {
        print!(rt; "round {round:>2}")?;
        add_tenths(rt, graph, branches, CHANGES)?;
        add_merge(rt, graph, branches, round)?;
    }
    Ok(())
}

// Prints what the process holds, and the most that it has held.
fn report_held<R: Files + Print + AllocGlobal>(rt: &R) -> anyhow::Result<()> {
    let held = memory(rt, "VmRSS:")?;
    let most = memory(rt, "VmHWM:")?;
    Ok(println!(rt; "{held}  {most}")?)
}

// Adds the changes of a chain to a graph.
fn add_chain<R: Files + Clock + Print + AllocGlobal>(
    rt: &R,
    graph: &mut Graph,
    actors: u32,
    changes: u64,
) -> anyhow::Result<()> {
    let mut chain = Branches::of_one(rt.alloc(), actors)?;
    add_tenths(rt, graph, &mut chain, changes)?;
    println!(rt;)?;
    report_held(rt)
}

/// A chain of `changes` changes, each on the one before it, by `actors` actors in turn.
pub fn run_chain<R: Files + Clock + Print + AllocGlobal>(
    rt: &R,
    actors: u32,
    changes: u64,
) -> anyhow::Result<()> {
    report_held(rt)?;
    let mut graph = Graph::new(rt.alloc());
    add_chain(rt, &mut graph, actors, changes)
}

// Adds the changes of branches and their merges to a graph.
fn add_branches<R: Files + Clock + Print + AllocGlobal>(
    rt: &R,
    graph: &mut Graph,
    count: u32,
    each: u64,
) -> anyhow::Result<()> {
    let mut branches = Branches::new(rt.alloc(), count, each)?;
    add_rounds(rt, graph, &mut branches)?;
    report_held(rt)
}

/// `count` branches of 40,000 changes in all, `each` of one branch before the next one's, and their merge, ten times.
pub fn run_branches<R: Files + Clock + Print + AllocGlobal>(
    rt: &R,
    count: u32,
    each: u64,
) -> anyhow::Result<()> {
    report_held(rt)?;
    let mut graph = Graph::new(rt.alloc());
    add_branches(rt, &mut graph, count, each)
}

// Adds the change, and prints what it took.
fn report_add<R: Clock + Print>(
    rt: &R,
    graph: &mut Graph,
    name: &str,
    change: Change,
) -> anyhow::Result<()> {
    let micros = time_add(rt, graph, change)?;
    Ok(println!(rt; "{name:<42} {micros:>9} micros")?)
}

// A change of inserts alone.
fn add_inserts<R: Clock + Print + AllocGlobal>(rt: &R, graph: &mut Graph) -> anyhow::Result<()> {
    let alloc = rt.alloc();
    let records = inserts(alloc, RECORDS)?;
    let alone = change(alloc, 1, 1, Vec::new(alloc), records)?;
    report_add(rt, graph, "inserts after inserts of their own", alone)
}

// A change of inserts and deletes; its hash.
fn add_both<R: Clock + Print + AllocGlobal>(rt: &R, graph: &mut Graph) -> anyhow::Result<Hash> {
    let alloc = rt.alloc();
    let records = both(alloc, RECORDS)?;
    let first = change(alloc, 1, 1, Vec::new(alloc), records)?;
    let hash = first.hash();
    report_add(rt, graph, "inserts and deletes of their own", first)?;
    Ok(hash)
}

// A change on the one with the hash, of inserts that refer to its inserts.
fn change_after(alloc: Global, hash: Hash) -> anyhow::Result<Change> {
    let records = after_both(alloc, RECORDS)?;
    let mut deps = Vec::new(alloc);
    deps.push(hash)?;
    change(alloc, 2, RECORDS + 1, deps, records)
}

// The change with inserts and deletes, and one after it.
fn add_two<R: Clock + Print + AllocGlobal>(rt: &R, graph: &mut Graph) -> anyhow::Result<()> {
    let hash = add_both(rt, graph)?;
    let second = change_after(rt.alloc(), hash)?;
    report_add(
        rt,
        graph,
        "inserts after those of a change with both",
        second,
    )
}

/// Changes of 60,000 records.
pub fn run_large<R: Clock + Print + AllocGlobal>(rt: &R) -> anyhow::Result<()> {
    add_inserts(rt, &mut Graph::new(rt.alloc()))?;
    add_two(rt, &mut Graph::new(rt.alloc()))
}
