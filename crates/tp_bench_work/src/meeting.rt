//! Peers who write separately exchange messages: two in rounds, many with one, and a newcomer in a session by frames.

use crate::author::Author;
use crate::chance::Chance;
use crate::digest::Digest;
use crate::peers::{ID, MemPeer, copy_of, meet, peer_of, read, write};
use crate::size::Size;
use anyhow::{bail, ensure};
use std::alloc::Global;
use tp_frame::{Frame, PartFramer, write_frame};
use tp_journal::MemJournal;
use tp_peer::Link;
use tp_session::{LinkedPeer, Role, Session};

// How many edits each of two makes in a round.
const EDITS: usize = 1_500;

const ROUNDS: usize = 12;

// How many others there are beside the first two, and how many edits each makes.
const OTHERS: usize = 12;

const OTHERS_EDITS: usize = 500;

// How many bytes of a stream come at once.
const PIECE: usize = 16_384;

// A side of a session: what its framer holds, and how far it is.
#[derive(Drop)]
struct Side {
    framer: PartFramer,
    session: Session,
}

impl Side {
    fn new(alloc: Global, role: Role) -> Side {
        Side {
            framer: PartFramer::new(alloc),
            session: Session::new(role, ID),
        }
    }

    // Takes the parts that are there, and answers the frame to be sent, if there is one.
    fn take(
        &mut self,
        alloc: Global,
        host: &mut LinkedPeer<MemJournal>,
    ) -> anyhow::Result<Option<Frame>> {
        let mut answer = None;
        for _ in 0..u64::MAX {
            let Some(part) = self.framer.next()? else {
                break;
            };
            match self.session.on_part(alloc, part, host) {
                Ok(turn) => {
                    if turn.send.is_some() {
                        answer = turn.send;
                    }
                }
                Err(_) => bail!("the session failed"),
            }
        }
        Ok(answer)
    }

    // Takes the bytes of a frame of the other, a piece at a time, and answers the frame to be sent.
    fn hear(
        &mut self,
        alloc: Global,
        bytes: &[u8],
        host: &mut LinkedPeer<MemJournal>,
    ) -> anyhow::Result<Option<Frame>> {
        let mut answer = None;
        for piece in bytes.chunks(PIECE) {
            self.framer.feed(piece)?;
            let said = self.take(alloc, host)?;
            if said.is_some() {
                answer = said;
            }
        }
        Ok(answer)
    }
}

// Passes the frame, and what is answered to it, from side to side until neither says anything more.
fn talk(
    alloc: Global,
    first: Frame,
    server: &mut LinkedPeer<MemJournal>,
    client: &mut LinkedPeer<MemJournal>,
    digest: &mut Digest,
) -> anyhow::Result<()> {
    let mut sides = (
        Side::new(alloc, Role::Server),
        Side::new(alloc, Role::Client),
    );
    let mut frame = first;
    for _ in 0..u64::MAX {
        let there = write_frame(alloc, &frame)?;
        digest.number(there.len());
        let Some(answer) = sides.0.hear(alloc, there.as_slice(), server)? else {
            break;
        };
        let back = write_frame(alloc, &answer)?;
        let Some(next) = sides.1.hear(alloc, back.as_slice(), client)? else {
            break;
        };
        frame = next;
    }
    digest.number(sides.0.session.applied_count() as usize);
    digest.number(sides.1.session.applied_count() as usize);
    Ok(())
}

// A session between a peer and another, whom it calls.
fn hold_session(
    alloc: Global,
    server: &mut MemPeer,
    client: &mut MemPeer,
    number: usize,
    digest: &mut Digest,
) -> anyhow::Result<()> {
    let Some(hello) = Session::new(Role::Client, ID).first() else {
        bail!("nothing to begin with");
    };
    let mut host = LinkedPeer::new(server, Link(number as u64));
    let mut guest = LinkedPeer::new(client, Link(0));
    talk(alloc, hello, &mut host, &mut guest, digest)
}

// Two write separately and exchange what they wrote, some rounds.
fn write_both(
    alloc: Global,
    one: &mut MemPeer,
    other: &mut MemPeer,
    size: Size,
    digest: &mut Digest,
) -> anyhow::Result<()> {
    let mut chance = Chance::new(size.seed);
    let mut authors = (Author::at(0, 2_000), Author::at(0, 2_000));
    for _ in 0..ROUNDS {
        let edits = size.share(EDITS);
        write(alloc, one, &mut authors.0, &mut chance, edits, digest)?;
        write(alloc, other, &mut authors.1, &mut chance, edits, digest)?;
        meet(one, other, Link(1), Link(2), digest)?;
    }
    Ok(())
}

// Others with a copy of the text, who write separately.
fn others(
    alloc: Global,
    first: &MemPeer,
    size: Size,
    digest: &mut Digest,
) -> anyhow::Result<Vec<MemPeer>> {
    let mut chance = Chance::new(size.seed ^ 1);
    let mut peers = Vec::new(alloc);
    for number in 0..OTHERS {
        let mut peer = copy_of(alloc, first, number.saturating_add(10))?;
        let mut author = Author::at(chance.below(10_000), 2_000);
        let edits = size.share(OTHERS_EDITS);
        let written = write(alloc, &mut peer, &mut author, &mut chance, edits, digest);
        peers.push(peer)?;
        written?;
    }
    Ok(peers)
}

// Each of the others meets the first, in turn; those who came early meet it again.
fn meet_others(
    first: &mut MemPeer,
    others: &mut Vec<MemPeer>,
    digest: &mut Digest,
) -> anyhow::Result<()> {
    for _ in 0..2 {
        let mut number = 10u64;
        for other in others.iter_mut() {
            meet(first, other, Link(number), Link(0), digest)?;
            number = number.saturating_add(1);
        }
    }
    Ok(())
}

// Many write separately, and exchange with the first.
fn meet_many(
    alloc: Global,
    first: &mut MemPeer,
    size: Size,
    digest: &mut Digest,
) -> anyhow::Result<()> {
    let mut peers = others(alloc, first, size, digest)?;
    let met = meet_others(first, &mut peers, digest);
    drop(peers);
    met
}

// A newcomer, who is sent all that the first has.
fn catch_up(alloc: Global, first: &mut MemPeer, digest: &mut Digest) -> anyhow::Result<()> {
    let mut newcomer = peer_of(alloc, 3)?;
    let held = hold_session(alloc, first, &mut newcomer, 100, digest);
    let (reported, all) = (newcomer.change_count(), first.change_count());
    let shown = read(&newcomer, digest);
    drop(newcomer);
    held?;
    ensure!(reported == all, "changes are missing");
    shown
}

// All that the first goes through.
fn meet_all(
    alloc: Global,
    first: &mut MemPeer,
    second: &mut MemPeer,
    size: Size,
    digest: &mut Digest,
) -> anyhow::Result<()> {
    write_both(alloc, first, second, size, digest)?;
    meet_many(alloc, first, size, digest)?;
    catch_up(alloc, first, digest)?;
    hold_session(alloc, first, second, 101, digest)?;
    read(second, digest)
}

/// Writes separately and exchanges.
pub fn run(alloc: Global, size: Size, digest: &mut Digest) -> anyhow::Result<()> {
    let mut first = peer_of(alloc, 1)?;
    let mut second = copy_of(alloc, &first, 2)?;
    let met = meet_all(alloc, &mut first, &mut second, size, digest);
    drop(first);
    drop(second);
    met
}
