//! What calls take.

use anyhow::{anyhow, ensure};
use std::alloc::Global;
use std::rt::Clock;
use std::sync::Wait;
use std::thread::Threads;
use tp_bench_measure::{Crowd, Load, Room, Stopwatch, Task, nanos_each};
use tp_journal::MemJournal;
use tp_opid::{Actor, DocId};
use tp_peer::Peer;

// A peer with a text of `chars` characters; `None` where there is no memory for it.
fn peer_of(alloc: Global, chars: usize) -> Option<Peer<MemJournal>> {
    let journal = MemJournal::new(Vec::new(alloc));
    let mut peer = Peer::create(alloc, journal, DocId([7; 16]), Actor([1; 16])).ok()?;
    let _typed = Load::new(Task::Edit, chars).on_peer(&mut peer);
    Some(peer)
}

// Prints what the calls took since the start.
fn report<R: Clock + Print>(
    rt: &R,
    name: &str,
    load: Load,
    done: usize,
    watch: Stopwatch,
) -> anyhow::Result<()> {
    let micros = watch.micros(rt);
    ensure!(done == load.calls(), "calls weren't done");
    let calls = load.calls() as u64;
    let (nanos, rate) = (
        nanos_each(micros, calls),
        calls.saturating_mul(1_000_000) / micros.max(1),
    );
    Ok(println!(rt; "{name:>9} {calls:>8} calls {nanos:>8} ns each {rate:>9} a second")?)
}

fn run_alone<R: Clock + Print + AllocGlobal>(
    rt: &R,
    chars: usize,
    load: Load,
) -> anyhow::Result<()> {
    let mut peer = peer_of(rt.alloc(), chars).ok_or(anyhow!("no memory"))?;
    let watch = Stopwatch::start(rt);
    let done = load.on_peer(&mut peer);
    report(rt, "a peer", load, done, watch)
}

// A served peer with a text of `chars` characters.
fn room_of(alloc: Global, chars: usize) -> anyhow::Result<Room> {
    let peer = peer_of(alloc, chars).ok_or(anyhow!("no memory"))?;
    Room::open(alloc, peer).ok_or(anyhow!("no memory"))
}

fn run_served<R: Threads + Wait + Sync + Clock + Print + AllocGlobal>(
    rt: &R,
    chars: usize,
    load: Load,
    name: &str,
    crowd: Crowd,
) -> anyhow::Result<()> {
    let room = room_of(rt.alloc(), chars)?;
    let watch = Stopwatch::start(rt);
    let done = room.work(rt, crowd, load);
    report(rt, name, load, done, watch)
}

/// Makes the calls on a peer with a text of `chars` characters, and on served ones.
pub fn run<R: Threads + Wait + Sync + Clock + Print + AllocGlobal>(
    rt: &R,
    chars: usize,
    load: Load,
) -> anyhow::Result<()> {
    run_alone(rt, chars, load)?;
    run_served(rt, chars, load, "1 thread", Crowd::One)?;
    run_served(rt, chars, load, "2 threads", Crowd::Two)?;
    run_served(rt, chars, load, "4 threads", Crowd::Four)
}
