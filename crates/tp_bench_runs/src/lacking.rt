//! Messages to a peer that lacks little of what several authors wrote at the same time.

use crate::received::{LINK, author, next_message};
use crate::store::{ID, with_records};
use anyhow::ensure;
use std::alloc::Global;
use std::rt::Clock;
use tp_bench_measure::{Branches, Stopwatch, nanos_each};
use tp_change::Change;
use tp_journal::{MemJournal, header};
use tp_peer::Peer;

/// How many messages of each kind are made, where no number is given.
const TIMES: u64 = 20;

/// Who wrote what is there.
#[derive(Clone, Copy)]
struct Case {
    name: &'static str,
    // How many authors.
    authors: u32,
    // How many changes each has made of one character, on its own alone.
    each: u64,
    // How many of an author's are there one after another, before the next one's.
    turn: u64,
}

const CASES: [Case; 5] = [
    Case {
        name: "200x40",
        authors: 200,
        each: 40,
        turn: 1,
    },
    Case {
        name: "20x400",
        authors: 20,
        each: 400,
        turn: 1,
    },
    Case {
        name: "5x1600",
        authors: 5,
        each: 1_600,
        turn: 1,
    },
    Case {
        name: "2x4000",
        authors: 2,
        each: 4_000,
        turn: 1,
    },
    Case {
        name: "hub",
        authors: 50,
        each: 100,
        turn: 100,
    },
];

/// How many messages are made.
#[derive(Clone, Copy)]
struct Counts {
    // Each on a link of which nothing is known but what the other declares.
    anew: u64,
    // Each on the same link, after one that was lost.
    again: u64,
}

// The changes of the case.
fn changes_of(alloc: Global, case: Case) -> anyhow::Result<Vec<Change>> {
    let count = u64::from(case.authors).saturating_mul(case.each);
    Branches::new(alloc, case.authors, case.turn)?.next(alloc, count)
}

// A peer that has the changes.
fn peer_with(alloc: Global, changes: &[Change]) -> anyhow::Result<Peer<MemJournal>> {
    let journal = with_records(header(alloc, ID)?, changes)?;
    author(alloc, &journal)
}

// The message of a peer that lacks the last change.
fn begun_without_last(alloc: Global, changes: &[Change]) -> anyhow::Result<Vec<u8>> {
    let mut peer = peer_with(alloc, &changes[..changes.len().saturating_sub(1)])?;
    next_message(&mut peer)
}

// The other begins anew, and the peer makes its message, `times` times. Answers how many bytes these had.
fn make_anew(peer: &mut Peer<MemJournal>, begun: &[u8], times: u64) -> anyhow::Result<usize> {
    let mut total = 0usize;
    for _ in 0..times {
        peer.forget_link(LINK)?;
        peer.receive_bytes(LINK, begun)?;
        total = total.saturating_add(next_message(peer)?.len());
    }
    Ok(total)
}

// The peer makes its next message, `times` times, though the other hears none. Answers how many bytes these had.
fn make_again(peer: &mut Peer<MemJournal>, times: u64) -> anyhow::Result<usize> {
    let mut total = 0usize;
    for _ in 0..times {
        total = total.saturating_add(next_message(peer)?.len());
    }
    Ok(total)
}

// Makes the messages for the other that has begun so, and prints what they took.
fn make<R: Clock + Print>(
    rt: &R,
    name: &str,
    peer: &mut Peer<MemJournal>,
    begun: &[u8],
    counts: Counts,
) -> anyhow::Result<()> {
    let watch = Stopwatch::start(rt);
    let mut bytes = make_anew(peer, begun, counts.anew)?;
    let anew = nanos_each(watch.micros(rt), counts.anew);
    let watch = Stopwatch::start(rt);
    bytes = bytes.saturating_add(make_again(peer, counts.again)?);
    let again = nanos_each(watch.micros(rt), counts.again);
    Ok(println!(rt; "{name:<7} anew {anew:>10} ns, again {again:>10} ns, {bytes:>9} bytes")?)
}

fn run_case<R: Clock + Print + AllocGlobal>(
    rt: &R,
    case: Case,
    counts: Counts,
) -> anyhow::Result<()> {
    let changes = changes_of(rt.alloc(), case)?;
    let begun = begun_without_last(rt.alloc(), &changes)?;
    let mut peer = peer_with(rt.alloc(), &changes)?;
    drop(changes);
    make(rt, case.name, &mut peer, begun.as_slice(), counts)
}

// The number that the word is, or the other one where there is no word.
fn number_or(word: Option<&str>, other: u64) -> anyhow::Result<u64> {
    match word {
        Some(word) => Ok(word.parse::<u64>()?),
        None => Ok(other),
    }
}

/// Messages to a peer that lacks one change: of the case that the first word names, or of each, where there is none; as
/// many as the second word says to a peer that begins anew each time, and as the third says where each message is lost.
pub fn run<R: Clock + Print + AllocGlobal>(
    rt: &R,
    case: Option<&str>,
    anew: Option<&str>,
    again: Option<&str>,
) -> anyhow::Result<()> {
    let anew = number_or(anew, TIMES)?;
    let again = number_or(again, anew)?;
    let mut found = false;
    for each in CASES {
        if case.unwrap_or(each.name) == each.name {
            found = true;
            run_case(rt, each, Counts { anew, again })?;
        }
    }
    ensure!(found, "no such case");
    Ok(())
}
