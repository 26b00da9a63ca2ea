//! A message of 16 megabytes that a session is sent in pieces of 7 bytes.

use anyhow::{anyhow, ensure};
use std::alloc::Global;
use std::rt::{Clock, Files};
use tp_bench_measure::{Stopwatch, change, report, report_memory, run_after};
use tp_change::Change;
use tp_frame::{Frame, Framer, PartFramer, write_frame};
use tp_journal::MemJournal;
use tp_opid::{Actor, DocId, Hash, Place};
use tp_peer::{Link, Peer};
use tp_session::{LinkedPeer, NetError, Role, Session, VERSION};

const ID: DocId = DocId([7; 16]);

/// How many bytes come at once.
const PIECE: usize = 7;

/// How many changes the message has. They wait for one that doesn't come.
const CHANGES: u32 = 1_024;

/// How many characters each of them inserts.
const CHARS: usize = 16_000;

/// What takes the stream: whole frames, or frames in parts.
#[derive(Drop)]
pub enum Framing {
    /// Each frame once it is whole.
    Whole(Framer),
    /// Each part once it is there.
    Parts(PartFramer),
}

// Takes all frames that are whole.
fn take_frames(
    framer: &mut Framer,
    session: &mut Session,
    host: &mut LinkedPeer<MemJournal>,
) -> Result<(), NetError> {
    for _ in 0..u64::MAX {
        let Some(frame) = framer.next()? else {
            return Ok(());
        };
        session.on_frame(frame, host)?;
    }
    Ok(())
}

// Takes all parts that are there.
fn take_parts(
    alloc: Global,
    framer: &mut PartFramer,
    session: &mut Session,
    host: &mut LinkedPeer<MemJournal>,
) -> Result<(), NetError> {
    for _ in 0..u64::MAX {
        let Some(part) = framer.next()? else {
            return Ok(());
        };
        session.on_part(alloc, part, host)?;
    }
    Ok(())
}

// Takes the next bytes of the stream.
fn take(
    alloc: Global,
    framing: &mut Framing,
    session: &mut Session,
    host: &mut LinkedPeer<MemJournal>,
    piece: &[u8],
) -> Result<(), NetError> {
    match framing {
        Framing::Whole(framer) => {
            framer.feed(piece)?;
            take_frames(framer, session, host)
        }
        Framing::Parts(framer) => {
            framer.feed(piece)?;
            take_parts(alloc, framer, session, host)
        }
    }
}

// Takes bytes of the stream, a piece at a time.
fn take_all(
    alloc: Global,
    framing: &mut Framing,
    session: &mut Session,
    host: &mut LinkedPeer<MemJournal>,
    bytes: &[u8],
) -> Result<(), NetError> {
    for piece in bytes.chunks(PIECE) {
        take(alloc, framing, session, host, piece)?;
    }
    Ok(())
}

// A change on one that nobody has.
fn waiting(alloc: Global, seq: u32) -> anyhow::Result<Change> {
    let mut text = String::with_capacity(alloc, CHARS)?;
    for _ in 0..CHARS {
        text.push('a')?;
    }
    let mut deps = Vec::with_capacity(alloc, 1)?;
    deps.push(Hash([9; 32]))?;
    let seq = u64::from(seq).saturating_add(2);
    let records = run_after(alloc, Place::Start, text.as_str())?;
    change(alloc, seq, seq, deps, records)
}

// The begin of the sync frame, up to the first change, where each has `change_len` bytes.
fn front(alloc: Global, change_len: u32) -> anyhow::Result<Vec<u8>> {
    let body = CHANGES
        .saturating_mul(change_len.saturating_add(4))
        .saturating_add(18);
    let mut bytes = Vec::new(alloc);
    bytes.extend_from_slice(&body.to_be_bytes())?;
    bytes.extend_from_slice(&[1, 2, 0, 0, 0, 0, 0, 0, 0, 0, 0, 0, 0, 0])?;
    bytes.extend_from_slice(&CHANGES.to_be_bytes())?;
    Ok(bytes)
}

// A hello and then the message. How many bytes they have.
fn send(
    alloc: Global,
    framing: &mut Framing,
    session: &mut Session,
    host: &mut LinkedPeer<MemJournal>,
) -> anyhow::Result<usize> {
    let hello = write_frame(
        alloc,
        &Frame::Hello {
            version: VERSION,
            id: ID,
        },
    )?;
    take_all(alloc, framing, session, host, hello.as_slice())?;
    let len = waiting(alloc, 0)?.encoded_len() as u32;
    take_all(alloc, framing, session, host, front(alloc, len)?.as_slice())?;
    for seq in 0..CHANGES {
        let bytes = waiting(alloc, seq)?.encode()?;
        take_all(alloc, framing, session, host, &len.to_be_bytes())?;
        take_all(alloc, framing, session, host, bytes.as_slice())?;
    }
    Ok((CHANGES as usize).saturating_mul(len as usize))
}

// Sends the message to a session over the peer, and prints what that took.
fn receive<R: Files + Clock + Print + AllocGlobal>(
    rt: &R,
    mut framing: Framing,
    peer: &mut Peer<MemJournal>,
) -> anyhow::Result<()> {
    let mut session = Session::new(Role::Server, ID);
    let mut host = LinkedPeer::new(peer, Link(0));
    let watch = Stopwatch::start(rt);
    let len = send(rt.alloc(), &mut framing, &mut session, &mut host)?;
    report(rt, "message", len as u64, watch.micros(rt))?;
    report_memory(rt)
}

fn run<R: Files + Clock + Print + AllocGlobal>(rt: &R, framing: Framing) -> anyhow::Result<()> {
    let journal = MemJournal::new(Vec::new(rt.alloc()));
    let Ok(mut peer) = Peer::create(rt.alloc(), journal, ID, Actor([1; 16])) else {
        return Err(anyhow!("no memory"));
    };
    receive(rt, framing, &mut peer)?;
    ensure!(
        peer.document().pending_len() == CHANGES as usize,
        "changes are missing"
    );
    Ok(())
}

/// To a session that takes whole frames.
pub fn run_whole<R: Files + Clock + Print + AllocGlobal>(rt: &R) -> anyhow::Result<()> {
    run(rt, Framing::Whole(Framer::new(rt.alloc())))
}

/// To a session that takes frames in parts.
pub fn run_parts<R: Files + Clock + Print + AllocGlobal>(rt: &R) -> anyhow::Result<()> {
    run(rt, Framing::Parts(PartFramer::new(rt.alloc())))
}
