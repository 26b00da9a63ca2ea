//! Changes received, beside the digest of their bytes.

use crate::store::{
    CHANGES, ID, long_changes, recovered_document, report_loaded, report_opened, with_records,
};
use anyhow::{anyhow, ensure};
use sha2::{Digest, Sha256};
use std::alloc::Global;
use std::rt::Clock;
use tp_bench_measure::Stopwatch;
use tp_change::Change;
use tp_journal::{MemJournal, header};
use tp_opid::Actor;
use tp_peer::{Link, Peer};
use tp_store::save;

/// How many messages carry the changes, of 1,024 each at most.
const MESSAGES: usize = 98;

/// The link between the two peers.
pub const LINK: Link = Link(0);

// The bytes of each change.
fn bytes_of(alloc: Global, changes: &[Change]) -> anyhow::Result<Vec<Vec<u8>>> {
    let mut all = Vec::with_capacity(alloc, changes.len())?;
    for change in changes {
        all.push(change.encode()?)?;
    }
    Ok(all)
}

// The digest of each, one after another; prints what that took.
fn report_digests<R: Clock + Print>(rt: &R, all: &[Vec<u8>]) -> anyhow::Result<()> {
    let watch = Stopwatch::start(rt);
    let mut seen = 0u8;
    let mut total = 0usize;
    for bytes in all {
        seen ^= Sha256::digest(bytes.as_slice())[0];
        total = total.saturating_add(bytes.len());
    }
    let micros = watch.micros(rt).saturating_add(u64::from(seen) / 256);
    Ok(println!(rt; "digest {total:>18} bytes {micros:>8} micros")?)
}

// The digest of a saved file, as it ends with one; prints what that took.
fn report_digest<R: Clock + Print>(rt: &R, saved: &[u8]) -> anyhow::Result<()> {
    let watch = Stopwatch::start(rt);
    let seen = Sha256::digest(saved)[0];
    let micros = watch.micros(rt).saturating_add(u64::from(seen) / 256);
    Ok(println!(rt; "file {:>20} bytes {micros:>8} micros", saved.len())?)
}

// A peer without changes.
fn newcomer(alloc: Global) -> anyhow::Result<Peer<MemJournal>> {
    let journal = MemJournal::new(Vec::new(alloc));
    match Peer::create(alloc, journal, ID, Actor([1; 16])) {
        Ok(peer) => Ok(peer),
        Err(_) => Err(anyhow!("no memory")),
    }
}

/// A peer on the journal.
pub fn author(alloc: Global, journal: &[u8]) -> anyhow::Result<Peer<MemJournal>> {
    let journal = MemJournal::new(Vec::from_slice(alloc, journal)?);
    match Peer::reopen(alloc, journal, Actor([2; 16])) {
        Ok(peer) => Ok(peer),
        Err(_) => Err(anyhow!("the journal isn't read")),
    }
}

/// The bytes of the next message of a peer.
pub fn next_message(peer: &mut Peer<MemJournal>) -> anyhow::Result<Vec<u8>> {
    match peer.generate_bytes(LINK)? {
        Some(outgoing) => Ok(outgoing.bytes),
        None => Err(anyhow!("there is nothing to say")),
    }
}

// The messages by which the author tells all to the newcomer, once that one has begun.
fn messages_for(
    alloc: Global,
    author: &mut Peer<MemJournal>,
    newcomer: &mut Peer<MemJournal>,
) -> anyhow::Result<Vec<Vec<u8>>> {
    let begun = next_message(newcomer)?;
    author.receive_bytes(LINK, begun.as_slice())?;
    let mut messages = Vec::with_capacity(alloc, MESSAGES)?;
    for _ in 0..MESSAGES {
        messages.push(next_message(author)?)?;
    }
    Ok(messages)
}

// The peer receives the messages; prints what that took.
fn report_received<R: Clock + Print>(
    rt: &R,
    peer: &mut Peer<MemJournal>,
    messages: &[Vec<u8>],
) -> anyhow::Result<()> {
    let watch = Stopwatch::start(rt);
    let mut total = 0usize;
    for bytes in messages {
        peer.receive_bytes(LINK, bytes.as_slice())?;
        total = total.saturating_add(bytes.len());
    }
    let micros = watch.micros(rt);
    ensure!(
        peer.change_count() == CHANGES as usize,
        "changes are missing"
    );
    Ok(println!(rt; "received {total:>16} bytes {micros:>8} micros")?)
}

// A newcomer receives what the journal has in messages; prints what that took.
fn receive<R: Clock + Print + AllocGlobal>(rt: &R, journal: &[u8]) -> anyhow::Result<()> {
    let mut author = author(rt.alloc(), journal)?;
    let mut peer = newcomer(rt.alloc())?;
    let messages = messages_for(rt.alloc(), &mut author, &mut peer)?;
    drop(author);
    report_received(rt, &mut peer, &messages)
}

// The document of the journal is opened, and loaded from its saved file; prints what each took.
fn open_and_load<R: Clock + Print + AllocGlobal>(rt: &R, journal: &[u8]) -> anyhow::Result<()> {
    report_opened(rt, journal)?;
    let saved = save(rt.alloc(), &recovered_document(rt, journal)?)?;
    report_digest(rt, saved.as_slice())?;
    report_loaded(rt, &saved)
}

/// 100,000 changes of one character, each on the one before it: the digest of each alone; received in messages by a peer
/// with a journal; opened from a journal; loaded from a saved file.
pub fn run<R: Clock + Print + AllocGlobal>(rt: &R) -> anyhow::Result<()> {
    let changes = long_changes(rt.alloc())?;
    report_digests(rt, &bytes_of(rt.alloc(), &changes)?)?;
    let journal = with_records(header(rt.alloc(), ID)?, &changes)?;
    drop(changes);
    receive(rt, &journal)?;
    open_and_load(rt, &journal)
}
