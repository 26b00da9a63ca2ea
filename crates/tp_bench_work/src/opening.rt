//! A journal that was cut anywhere is opened, edited, printed, saved and loaded, at several lengths; and the text of a log
//! is shown.

use crate::author::Author;
use crate::chance::Chance;
use crate::digest::Digest;
use crate::peers::{MemPeer, actor_of, copy_of, meet, peer_of, read, write};
use crate::size::Size;
use anyhow::bail;
use std::alloc::Global;
use tp_commands::{log_lines, text_line};
use tp_document::Document;
use tp_journal::{MemJournal, Recovering};
use tp_peer::{Link, Peer};
use tp_posindex::BlockSequence;
use tp_store::{load, save};
use tp_textpeer::show;

// How many edits each of two authors makes in a round.
const EDITS: usize = 6_000;

const ROUNDS: usize = 4;

// How many edits the log has.
const LOG_EDITS: usize = 6_000;

// At how many bytes of a hundred the journal is cut.
const CUTS: [usize; 4] = [100, 91, 83, 77];

// How many bytes of a file come at once.
const PIECE: usize = 65_536;

const ONE: Link = Link(1);

const OTHER: Link = Link(2);

// Both write in turn and meet, some rounds.
fn write_both(
    alloc: Global,
    one: &mut MemPeer,
    other: &mut MemPeer,
    size: Size,
    digest: &mut Digest,
) -> anyhow::Result<()> {
    let mut chance = Chance::new(size.seed);
    let mut authors = (Author::at(0, 2_000), Author::at(0, 2_000));
    for _ in 0..ROUNDS {
        let edits = size.share(EDITS);
        write(alloc, one, &mut authors.0, &mut chance, edits, digest)?;
        write(alloc, other, &mut authors.1, &mut chance, edits, digest)?;
        meet(one, other, ONE, OTHER, digest)?;
    }
    Ok(())
}

// The bytes of the journal of one of two authors.
fn journal_of(alloc: Global, size: Size, digest: &mut Digest) -> anyhow::Result<Vec<u8>> {
    let mut one = peer_of(alloc, 1)?;
    let mut other = copy_of(alloc, &one, 2)?;
    let written = write_both(alloc, &mut one, &mut other, size, digest);
    drop(other);
    let bytes = one.stop().into_vec();
    written?;
    Ok(bytes)
}

// The first bytes of a journal, as they come from a file.
fn recovering(alloc: Global, bytes: &[u8]) -> Recovering<BlockSequence> {
    let mut recovering = Recovering::new(alloc);
    for piece in bytes.chunks(PIECE) {
        recovering.feed(piece);
    }
    recovering
}

// Prints a journal's text and log.
fn print(alloc: Global, bytes: &[u8], digest: &mut Digest) -> anyhow::Result<()> {
    match text_line(alloc, recovering(alloc, bytes), &[]) {
        Ok(text) => digest.text(text.as_str()),
        Err(_) => bail!("no text"),
    }
    let half = recovering(alloc, &bytes[..bytes.len() / 2]);
    match log_lines(alloc, half, u64::MAX) {
        Ok(lines) => digest.text(lines.as_str()),
        Err(_) => bail!("no log"),
    }
    Ok(())
}

// Edits the text once, and reads it.
fn go_on(alloc: Global, peer: &mut MemPeer, size: Size, digest: &mut Digest) -> anyhow::Result<()> {
    let mut chance = Chance::new(size.seed);
    write(alloc, peer, &mut Author::at(0, 100), &mut chance, 1, digest)?;
    read(peer, digest)
}

// The saved file of a peer's document.
fn saved_file(alloc: Global, peer: &MemPeer) -> anyhow::Result<Vec<u8>> {
    Ok(save(alloc, peer.document())?)
}

// Loads what was saved, and reads it.
fn load_saved(alloc: Global, bytes: &[u8], digest: &mut Digest) -> anyhow::Result<()> {
    let document: Document<BlockSequence> = load(alloc, bytes)?;
    let text = document.text();
    drop(document);
    digest.text(text?.as_str());
    Ok(())
}

// Opens a peer on a journal, goes on, and answers the saved file.
fn open(alloc: Global, bytes: &[u8], size: Size, digest: &mut Digest) -> anyhow::Result<Vec<u8>> {
    let journal = MemJournal::new(Vec::from_slice(alloc, bytes)?);
    let Ok(mut peer) = Peer::reopen(alloc, journal, actor_of(9)) else {
        bail!("not opened");
    };
    let went_on = go_on(alloc, &mut peer, size, digest);
    let file = saved_file(alloc, &peer);
    drop(peer);
    went_on?;
    file
}

// What is done with a journal that was cut.
fn use_journal(alloc: Global, bytes: &[u8], size: Size, digest: &mut Digest) -> anyhow::Result<()> {
    let file = open(alloc, bytes, size, digest)?;
    load_saved(alloc, file.as_slice(), digest)?;
    digest.number(file.len());
    print(alloc, &bytes[..bytes.len() - bytes.len() / 50], digest)
}

// A log of one author's changes.
fn log_of(alloc: Global, peer: &mut MemPeer, size: Size) -> anyhow::Result<Vec<u8>> {
    let (mut author, mut chance) = (Author::at(0, 2_000), Chance::new(size.seed ^ 1));
    let mut digest = Digest::new();
    let edits = size.share(LOG_EDITS);
    write(alloc, peer, &mut author, &mut chance, edits, &mut digest)?;
    let mut log = Vec::new(alloc);
    for change in peer.document().changes() {
        let len = u32::try_from(change.encoded_len()).unwrap_or(u32::MAX);
        log.extend_from_slice(&len.to_be_bytes())?;
        log = change.encode_after(log)?;
    }
    Ok(log)
}

// Shows the text of a log.
fn show_log(alloc: Global, size: Size, digest: &mut Digest) -> anyhow::Result<()> {
    let mut peer = peer_of(alloc, 3)?;
    let log = log_of(alloc, &mut peer, size);
    drop(peer);
    let log = log?;
    let mut shown = Vec::new(alloc);
    show(alloc, &mut log.as_slice(), &mut shown)?;
    digest.bytes(shown.as_slice());
    Ok(())
}

/// Opens, edits, prints, saves, loads and shows.
pub fn run(alloc: Global, size: Size, digest: &mut Digest) -> anyhow::Result<()> {
    let bytes = journal_of(alloc, size, digest)?;
    for cut in CUTS {
        let len = (bytes.len() / 100).saturating_mul(cut).min(bytes.len());
        use_journal(alloc, &bytes[..len], size, digest)?;
    }
    show_log(alloc, size, digest)
}
