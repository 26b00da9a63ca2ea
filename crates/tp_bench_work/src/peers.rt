//! Peers on journals in memory, and what they do.

use crate::author::Author;
use crate::chance::Chance;
use crate::digest::Digest;
use anyhow::bail;
use std::alloc::Global;
use tp_journal::MemJournal;
use tp_opid::{Actor, DocId};
use tp_peer::{Link, Peer};

/// A peer whose journal is in memory.
pub type MemPeer = Peer<MemJournal>;

/// The document of all peers.
pub const ID: DocId = DocId([7; 16]);

// After this many rounds of messages something is wrong.
const MOST_ROUNDS: usize = 1_000;

/// The actor with the number, which chance spreads.
pub fn actor_of(number: usize) -> Actor {
    let mut chance = Chance::new(number as u64);
    let mut bytes = [0u8; 16];
    for byte in bytes.iter_mut() {
        *byte = (chance.below(256) % 256) as u8;
    }
    Actor(bytes)
}

/// A peer under the actor with the number, with an empty text.
pub fn peer_of(alloc: Global, number: usize) -> anyhow::Result<MemPeer> {
    let journal = MemJournal::new(Vec::new(alloc));
    match Peer::create(alloc, journal, ID, actor_of(number)) {
        Ok(peer) => Ok(peer),
        Err(_) => bail!("no peer"),
    }
}

/// A peer with a copy of another one's text, under the actor with the number.
pub fn copy_of(alloc: Global, peer: &MemPeer, number: usize) -> anyhow::Result<MemPeer> {
    let journal = MemJournal::new(Vec::new(alloc));
    match peer.fork(journal, actor_of(number)) {
        Ok(copy) => Ok(copy),
        Err(_) => bail!("no copy"),
    }
}

// The author's next edit.
fn write_next(
    alloc: Global,
    peer: &mut MemPeer,
    author: &mut Author,
    chance: &mut Chance,
    digest: &mut Digest,
) -> anyhow::Result<()> {
    let typed = author.next(alloc, chance, peer.document().len())?;
    if let Some(hash) = peer.edit(&[typed.splice()], 0, "")? {
        digest.hash(&hash);
    }
    Ok(())
}

/// `edits` edits of an author.
pub fn write(
    alloc: Global,
    peer: &mut MemPeer,
    author: &mut Author,
    chance: &mut Chance,
    edits: usize,
    digest: &mut Digest,
) -> anyhow::Result<()> {
    for _ in 0..edits {
        write_next(alloc, peer, author, chance, digest)?;
    }
    Ok(())
}

/// Puts the peer's text and heads into the digest.
pub fn read(peer: &MemPeer, digest: &mut Digest) -> anyhow::Result<()> {
    digest.text(peer.read()?.as_str());
    digest.hashes(peer.heads()?);
    Ok(())
}

// Passes one's next message on its link to the other; answers whether there was one.
fn pass(
    one: &mut MemPeer,
    other: &mut MemPeer,
    link: Link,
    back: Link,
    digest: &mut Digest,
) -> anyhow::Result<bool> {
    match one.generate_bytes(link)? {
        Some(sent) => {
            let received = other.receive_bytes(back, sent.bytes.as_slice())?;
            digest.number(received.applied.applied.len());
            Ok(true)
        }
        None => Ok(false),
    }
}

/// Passes messages between two peers, each on its link to the other, until neither has anything to say.
pub fn meet(
    one: &mut MemPeer,
    other: &mut MemPeer,
    link: Link,
    back: Link,
    digest: &mut Digest,
) -> anyhow::Result<()> {
    for _ in 0..MOST_ROUNDS {
        let there = pass(one, other, link, back, digest)?;
        let again = pass(other, one, back, link, digest)?;
        if !there && !again {
            return Ok(());
        }
    }
    bail!("there is always something to say")
}
