//! A text of several authors is gone back through: its text, its length and cursors at earlier heads, what came since,
//! and forks of it there.

use crate::author::Author;
use crate::chance::Chance;
use crate::digest::Digest;
use crate::peers::{MemPeer, copy_of, meet, peer_of, write};
use crate::size::Size;
use std::alloc::Global;
use tp_document::Document;
use tp_opid::Hash;
use tp_peer::Link;
use tp_posindex::BlockSequence;

type Doc = Document<BlockSequence>;

// How many rounds the authors write and meet, and how many edits each makes in one.
const ROUNDS: usize = 110;

const EDITS: usize = 150;

// How many rounds come before a fork.
const ROUNDS_BETWEEN: usize = 30;

// Heads of a document at some time.
#[derive(Drop)]
struct Version {
    heads: Vec<Hash>,
}

// The heads that a peer has.
fn version_of(alloc: Global, peer: &MemPeer) -> anyhow::Result<Version> {
    Ok(Version {
        heads: Vec::from_slice(alloc, peer.heads()?)?,
    })
}

// Both write in turn, and one takes what the other has; the heads of the one after each round, now and then before it
// met the other anew.
fn write_both(
    alloc: Global,
    one: &mut MemPeer,
    other: &mut MemPeer,
    size: Size,
    digest: &mut Digest,
) -> anyhow::Result<Vec<Version>> {
    let mut chance = Chance::new(size.seed);
    let mut authors = (Author::at(0, 1_000), Author::at(0, 1_000));
    let mut versions = Vec::new(alloc);
    for _ in 0..size.share(ROUNDS) {
        write(alloc, one, &mut authors.0, &mut chance, EDITS, digest)?;
        write(alloc, other, &mut authors.1, &mut chance, EDITS, digest)?;
        if chance.below(2) == 0 {
            versions.push(version_of(alloc, one)?)?;
        }
        if chance.below(3) > 0 {
            meet(one, other, Link(1), Link(2), digest)?;
        }
        versions.push(version_of(alloc, one)?)?;
    }
    Ok(versions)
}

// What the document shows at the heads.
fn show(
    document: &Doc,
    heads: &[Hash],
    chance: &mut Chance,
    digest: &mut Digest,
) -> anyhow::Result<()> {
    digest.text(document.text_at(heads)?.as_str());
    let len = document.len_at(heads)?;
    digest.number(len);
    if len > 0 {
        let cursor = document.cursor_at(chance.below(len), heads)?;
        digest.number(document.cursor_position_at(&cursor, heads)?);
    }
    digest.number(document.changes_since(heads)?.len());
    Ok(())
}

// A fork at the heads.
fn fork(document: &Doc, heads: &[Hash], digest: &mut Digest) -> anyhow::Result<()> {
    let fork = document.fork_at(heads)?;
    let text = fork.text();
    digest.hashes(fork.heads());
    drop(fork);
    digest.text(text?.as_str());
    Ok(())
}

// Goes back through the versions.
fn go_back(
    document: &Doc,
    versions: &[Version],
    size: Size,
    digest: &mut Digest,
) -> anyhow::Result<()> {
    let mut chance = Chance::new(size.seed ^ 1);
    let mut number = 0usize;
    for version in versions {
        show(document, version.heads.as_slice(), &mut chance, digest)?;
        if number % ROUNDS_BETWEEN == 0 {
            fork(document, version.heads.as_slice(), digest)?;
        }
        number = number.saturating_add(1);
    }
    Ok(())
}

// The two authors write, and then one goes back.
fn write_and_go_back(
    alloc: Global,
    one: &mut MemPeer,
    other: &mut MemPeer,
    size: Size,
    digest: &mut Digest,
) -> anyhow::Result<()> {
    let versions = write_both(alloc, one, other, size, digest)?;
    go_back(one.document(), versions.as_slice(), size, digest)
}

/// Writes, and goes back.
pub fn run(alloc: Global, size: Size, digest: &mut Digest) -> anyhow::Result<()> {
    let mut one = peer_of(alloc, 1)?;
    let mut other = copy_of(alloc, &one, 2)?;
    let gone = write_and_go_back(alloc, &mut one, &mut other, size, digest);
    drop(one);
    drop(other);
    gone
}
