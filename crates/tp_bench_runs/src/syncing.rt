//! What is measured.

use anyhow::ensure;
use std::rt::{Clock, Files};
use tp_bench_measure::{Ring, Stopwatch, Traffic, nanos_each, report_memory};

const ROUNDS: usize = 10;

/// How often a call is made that is too quick for the clock.
const TIMES: usize = 100_000;

fn print_traffic<R: Print>(rt: &R, traffic: Traffic, micros: u64) -> anyhow::Result<()> {
    let (messages, bytes) = (traffic.messages as u64, traffic.bytes as u64);
    Ok(println!(rt; "exchange {messages:>6} messages {bytes:>10} bytes {micros:>9} micros")?)
}

// Passes messages until nobody has anything to say, and prints what that took.
fn settle<R: Clock + Print>(rt: &R, ring: &mut Ring) -> anyhow::Result<()> {
    let watch = Stopwatch::start(rt);
    let traffic = ring.settle()?;
    let micros = watch.micros(rt);
    print_traffic(rt, traffic, micros)
}

// Prints what it took until each peer had made `changes` changes.
fn print_written<R: Print>(rt: &R, micros: u64, changes: usize) -> anyhow::Result<()> {
    let changes = changes as u64;
    Ok(println!(rt; "write    {changes:>6} changes each {micros:>22} micros")?)
}

// Each peer makes `changes` changes; prints what that took.
fn write<R: Clock + Print>(rt: &R, ring: &mut Ring, changes: usize) -> anyhow::Result<()> {
    let watch = Stopwatch::start(rt);
    ring.write(changes)?;
    print_written(rt, watch.micros(rt), changes)
}

// Rounds in which each peer makes changes, and messages pass then.
fn run_rounds<R: Clock + Print>(rt: &R, ring: &mut Ring, changes: usize) -> anyhow::Result<()> {
    for _ in 0..ROUNDS {
        write(rt, ring, changes)?;
        settle(rt, ring)?;
    }
    Ok(())
}

// Rounds in a ring whose peers have `total` changes in the end.
fn run_rounds_to<R: Clock + Print>(
    rt: &R,
    ring: &mut Ring,
    changes: usize,
    total: usize,
) -> anyhow::Result<()> {
    run_rounds(rt, ring, changes)?;
    ring.expect_counts(total)
}

// Rounds without messages.
fn write_rounds<R: Clock + Print>(rt: &R, ring: &mut Ring, changes: usize) -> anyhow::Result<()> {
    for _ in 0..ROUNDS {
        write(rt, ring, changes)?;
    }
    Ok(())
}

/// An author, who types 100,000 characters, in ten parts.
pub fn run_typing<R: Clock + Print + AllocGlobal>(rt: &R) -> anyhow::Result<()> {
    let mut ring = Ring::new(rt.alloc(), 1, 0)?;
    write_rounds(rt, &mut ring, 10_000)
}

// Both authors insert `changes` characters at the start; prints what that took.
fn write_at_start<R: Clock + Print>(rt: &R, ring: &mut Ring, changes: usize) -> anyhow::Result<()> {
    let watch = Stopwatch::start(rt);
    ring.peer(0)?.write_at_start(changes)?;
    ring.peer(1)?.write_at_start(changes)?;
    print_written(rt, watch.micros(rt), changes)
}

// Both authors insert `changes` characters at the start, and exchange them.
fn meet_at_start<R: Clock + Print>(rt: &R, ring: &mut Ring, changes: usize) -> anyhow::Result<()> {
    write_at_start(rt, ring, changes)?;
    settle(rt, ring)
}

/// Two authors, who insert 5,000 characters each at the start, and then exchange them.
pub fn run_one_place<R: Clock + Print + AllocGlobal>(rt: &R) -> anyhow::Result<()> {
    let mut ring = Ring::new(rt.alloc(), 2, 1)?;
    meet_at_start(rt, &mut ring, 5_000)?;
    ring.expect_counts(10_000)
}

// The first peer exchanges messages with each of the others; prints what that took.
fn settle_first<R: Clock + Print>(rt: &R, ring: &mut Ring) -> anyhow::Result<()> {
    let watch = Stopwatch::start(rt);
    let traffic = ring.settle_first()?;
    let micros = watch.micros(rt);
    print_traffic(rt, traffic, micros)
}

// Each peer writes, and the first comes to have it all.
fn write_and_merge<R: Clock + Print>(rt: &R, ring: &mut Ring) -> anyhow::Result<()> {
    write(rt, ring, 500)?;
    settle_first(rt, ring)?;
    ensure!(
        ring.peer(0)?.change_count() == 10_000,
        "changes are missing"
    );
    Ok(())
}

/// Twenty authors, who type 500 characters each; the first then exchanges messages with each of the others.
pub fn run_merged<R: Clock + Print + AllocGlobal>(rt: &R) -> anyhow::Result<()> {
    let mut ring = Ring::new(rt.alloc(), 20, 0)?;
    write_and_merge(rt, &mut ring)
}

/// Two authors, who make 1,000 changes each in a round.
pub fn run_authors<R: Clock + Print + AllocGlobal>(rt: &R) -> anyhow::Result<()> {
    let mut ring = Ring::new(rt.alloc(), 2, 1)?;
    run_rounds_to(rt, &mut ring, 1_000, 20_000)
}

// Rounds in which each peer makes changes, and messages pass then over links that know nothing.
fn run_rounds_apart<R: Clock + Print>(
    rt: &R,
    ring: &mut Ring,
    changes: usize,
) -> anyhow::Result<()> {
    for _ in 0..ROUNDS {
        write(rt, ring, changes)?;
        ring.part()?;
        settle(rt, ring)?;
    }
    Ok(())
}

// The first author's changes are shared; then both write alone, and meet again and again.
fn share_and_part<R: Clock + Print>(rt: &R, ring: &mut Ring) -> anyhow::Result<()> {
    ring.peer(0)?.write(10_000)?;
    settle(rt, ring)?;
    run_rounds_apart(rt, ring, 10)?;
    ring.expect_counts(10_200)
}

/// Two authors who share 10,000 changes, and make 10 each in a round; each time they meet anew.
pub fn run_apart<R: Clock + Print + AllocGlobal>(rt: &R) -> anyhow::Result<()> {
    let mut ring = Ring::new(rt.alloc(), 2, 1)?;
    share_and_part(rt, &mut ring)
}

/// A ring of 20 peers, which make a change each in a round.
pub fn run_ring<R: Clock + Print + AllocGlobal>(rt: &R) -> anyhow::Result<()> {
    let mut ring = Ring::new(rt.alloc(), 20, 20)?;
    run_rounds_to(rt, &mut ring, 1, 200)
}

// The last peer catches up on `changes` changes of the first.
fn catch_up<R: Clock + Print>(rt: &R, ring: &mut Ring, changes: usize) -> anyhow::Result<()> {
    ring.peer(0)?.write(changes)?;
    settle(rt, ring)?;
    ring.expect_counts(changes)
}

// A peer that catches up on `changes` changes, and the most memory that was held then.
fn run_catch_up_on<R: Files + Clock + Print + AllocGlobal>(
    rt: &R,
    changes: usize,
) -> anyhow::Result<()> {
    let mut ring = Ring::new(rt.alloc(), 2, 1)?;
    catch_up(rt, &mut ring, changes)?;
    report_memory(rt)
}

/// A peer that catches up on 25,000 changes, and one on 100,000.
pub fn run_catch_up<R: Files + Clock + Print + AllocGlobal>(rt: &R) -> anyhow::Result<()> {
    run_catch_up_on(rt, 25_000)?;
    run_catch_up_on(rt, 100_000)
}

// Asks for messages where there is nothing to say.
fn ask(ring: &mut Ring) -> anyhow::Result<()> {
    let peer = ring.peer(0)?;
    for _ in 0..TIMES {
        ensure!(peer.is_quiet()?, "there is something to say");
    }
    Ok(())
}

// What a message takes where a peer caught up on `changes` changes, and there is nothing to say.
fn time_idle<R: Clock + Print>(rt: &R, ring: &mut Ring, changes: usize) -> anyhow::Result<()> {
    catch_up(rt, ring, changes)?;
    let watch = Stopwatch::start(rt);
    ask(ring)?;
    let nanos = nanos_each(watch.micros(rt), TIMES as u64);
    let changes = changes as u64;
    Ok(println!(rt; "{changes:>6} changes {nanos:>6} ns")?)
}

fn run_idle_at<R: Clock + Print + AllocGlobal>(rt: &R, changes: usize) -> anyhow::Result<()> {
    let mut ring = Ring::new(rt.alloc(), 2, 1)?;
    time_idle(rt, &mut ring, changes)
}

/// A message where there is nothing to say.
pub fn run_idle<R: Clock + Print + AllocGlobal>(rt: &R) -> anyhow::Result<()> {
    for changes in [1_000, 10_000, 100_000] {
        run_idle_at(rt, changes)?;
    }
    Ok(())
}
