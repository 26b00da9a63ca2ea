//! An author who writes a long text, an edit for each key, while the editor asks for characters and cursors and now and
//! then reads the whole text.

use crate::author::Author;
use crate::chance::Chance;
use crate::digest::Digest;
use crate::peers::{MemPeer, peer_of, read, write};
use crate::size::Size;
use std::alloc::Global;

// How many edits there are in all.
const EDITS: usize = 300_000;

// How many edits come before the editor asks where things are, and how often it asks before it reads the text.
const EDITS_BETWEEN: usize = 25;

const LOOKS_BETWEEN: usize = 200;

// Asks for a character and a cursor at a position that chance picks, and where the cursor is.
fn look(peer: &MemPeer, chance: &mut Chance, digest: &mut Digest) -> anyhow::Result<()> {
    let len = peer.document().len();
    if len == 0 {
        return Ok(());
    }
    let at = chance.below(len);
    if let Some(found) = peer.document().char_at(at) {
        digest.number(found as u32 as usize);
    }
    let cursor = peer.document().cursor(at)?;
    digest.number(peer.document().cursor_position(&cursor)?);
    Ok(())
}

// `EDITS_BETWEEN` edits, and a look.
fn write_and_look(
    alloc: Global,
    peer: &mut MemPeer,
    author: &mut Author,
    chance: &mut Chance,
    digest: &mut Digest,
) -> anyhow::Result<()> {
    write(alloc, peer, author, chance, EDITS_BETWEEN, digest)?;
    look(peer, chance, digest)
}

fn write_all(
    alloc: Global,
    peer: &mut MemPeer,
    size: Size,
    digest: &mut Digest,
) -> anyhow::Result<()> {
    let mut chance = Chance::new(size.seed);
    let mut author = Author::at(0, 2_000);
    for number in 0..size.share(EDITS / EDITS_BETWEEN) {
        write_and_look(alloc, peer, &mut author, &mut chance, digest)?;
        if number % LOOKS_BETWEEN == 0 {
            read(peer, digest)?;
        }
    }
    read(peer, digest)
}

/// Writes, looks and reads.
pub fn run(alloc: Global, size: Size, digest: &mut Digest) -> anyhow::Result<()> {
    let mut peer = peer_of(alloc, 1)?;
    let written = write_all(alloc, &mut peer, size, digest);
    digest.bytes(peer.stop().into_vec().as_slice());
    written
}
