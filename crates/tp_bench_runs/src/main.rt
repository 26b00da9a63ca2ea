//! Benchmarks, run by hand: `tp_bench_runs NAME`. Without a name it says which there are.
#![tactic(auto)]

mod codec;
mod copying;
mod graphs;
mod lacking;
mod merging;
mod messages;
mod received;
mod receiving;
mod sequences;
mod serving;
mod show;
mod store;
mod syncing;
mod usage;

use crate::usage::USAGE;
use std::env;
use std::rt::{Clock, Env, Files};
use std::sync::Wait;
use std::thread::Threads;
use tp_bench_measure::{Load, Task};
use tp_journal::Lockable;
use tp_posindex::BlockSequence;
use tp_rga::PlainSequence;

fn main(rt: HostRuntime) -> anyhow::Result<()> {
    run(&rt)
}

fn run<R: Threads + Wait + Sync + Env + Files + Clock + Print + AllocGlobal>(
    rt: &R,
) -> anyhow::Result<()>
where
    R::File: Lockable,
{
    let words: Vec<String> = env::args(rt)?.collect(rt.alloc())?;
    let name = word_at(&words, 1).unwrap_or("");
    if name == "lacks-little" {
        return lacking::run(
            rt,
            word_at(&words, 2),
            word_at(&words, 3),
            word_at(&words, 4),
        );
    }
    run_named(rt, name)
}

// The word with the number, if there is one.
fn word_at(words: &[String], number: usize) -> Option<&str> {
    words.get(number).map(|word| word.as_str())
}

// Runs the benchmark of the name, or says which there are. Each of these functions hands on the names that it doesn't
// know.
fn run_named<R: Threads + Wait + Sync + Files + Clock + Print + AllocGlobal>(
    rt: &R,
    name: &str,
) -> anyhow::Result<()>
where
    R::File: Lockable,
{
    match name {
        "codec" => codec::run(rt),
        "received" => received::run(rt),
        "apply" => receiving::run_list(rt),
        "reverse" => receiving::run_reverse(rt),
        "copies" => copying::run(rt),
        "merging" => merging::run(rt),
        "journal-append" => store::run_append(rt),
        "journal-recover" => store::run_recover(rt),
        "saved" => store::run_saved(rt),
        "show-typed" => show::run(rt, "show-typed", 20_000, false),
        "show-random" => show::run(rt, "show-random", 2_000, true),
        _ => run_graphs(rt, name),
    }
}

fn run_graphs<R: Threads + Wait + Sync + Files + Clock + Print + AllocGlobal>(
    rt: &R,
    name: &str,
) -> anyhow::Result<()> {
    match name {
        "chain" => graphs::run_chain(rt, 1, 100_000),
        "long-chain" => graphs::run_chain(rt, 1, 400_000),
        "actors" => graphs::run_chain(rt, u32::MAX, 100_000),
        "two-by-turns" => graphs::run_branches(rt, 2, 1),
        "two-whole" => graphs::run_branches(rt, 2, 20_000),
        "twenty-by-turns" => graphs::run_branches(rt, 20, 1),
        "twenty-whole" => graphs::run_branches(rt, 20, 2_000),
        "large" => graphs::run_large(rt),
        _ => run_peers(rt, name),
    }
}

fn run_peers<R: Threads + Wait + Sync + Files + Clock + Print + AllocGlobal>(
    rt: &R,
    name: &str,
) -> anyhow::Result<()> {
    match name {
        "typing" => syncing::run_typing(rt),
        "authors" => syncing::run_authors(rt),
        "apart" => syncing::run_apart(rt),
        "merged" => syncing::run_merged(rt),
        "one-place" => syncing::run_one_place(rt),
        "ring" => syncing::run_ring(rt),
        "catch-up" => syncing::run_catch_up(rt),
        "idle" => syncing::run_idle(rt),
        "message-whole" => messages::run_whole(rt),
        "message-parts" => messages::run_parts(rt),
        _ => run_others(rt, name),
    }
}

fn run_others<R: Threads + Wait + Sync + Files + Clock + Print + AllocGlobal>(
    rt: &R,
    name: &str,
) -> anyhow::Result<()> {
    match name {
        "empty" => serving::run(rt, 0, Load::new(Task::Read, 1_000_000)),
        "read" => serving::run(rt, 10_000, Load::new(Task::Read, 10_000)),
        "edit" => serving::run(rt, 0, Load::new(Task::Edit, 10_000)),
        "plain" => sequences::run::<R, PlainSequence>(rt, 10_000, 20),
        "blocks" => sequences::run::<R, BlockSequence>(rt, 1_000_000, 20_000),
        _ => Ok(print!(rt; "{USAGE}")?),
    }
}
