//! The call `meet`: two sides that hand each other their frames.

use crate::answers::end;
use crate::reads::text;
use crate::running::fork_of;
use crate::world::{RowPeer, World};
use std::alloc::Global;
use tp_frame::{Frame, write_frame};
use tp_peer::Link;
use tp_session::{Ended, LinkedPeer, NetError, Phase, Role, Session, Turn};
use tp_test_runner::{Fault, Shelf, Words};

/// A side, and what it has sent.
#[derive(Drop)]
struct Side<'a> {
    peer: &'a mut RowPeer,
    session: Session,
    sent: Vec<u8>,
    error: Option<NetError>,
}

// A side at its begin.
fn first_side(alloc: Global, peer: &mut RowPeer, role: Role) -> Side<'_> {
    let session = Session::new(role, peer.document().id());
    Side {
        peer,
        session,
        sent: Vec::new(alloc),
        error: None,
    }
}

// Keeps the bytes of a frame that goes out, if there is one.
fn sends(alloc: Global, side: &mut Side, frame: Option<Frame>) -> Result<Option<Frame>, Fault> {
    if let Some(frame) = &frame {
        let bytes = write_frame(alloc, frame).ok().ok_or(Fault::Memory)?;
        side.sent.extend_from_slice(&bytes)?;
    }
    Ok(frame)
}

// Takes a frame of the other, and gives the frame that answers it, if there is one.
fn takes(alloc: Global, side: &mut Side, frame: Frame) -> Result<Option<Frame>, Fault> {
    let mut host = LinkedPeer::new(side.peer, Link(0));
    match side.session.on_frame(frame, &mut host) {
        Ok(Turn { send, ended: _ }) => sends(alloc, side, send),
        Err(Ended { error, send }) => {
            side.error = Some(error);
            sends(alloc, side, send)
        }
    }
}

// A frame of the client goes to the server, and its answer, if there is one, to the client: what the client sends then.
fn round(
    alloc: Global,
    client: &mut Side,
    server: &mut Side,
    frame: Frame,
) -> Result<Option<Frame>, Fault> {
    match takes(alloc, server, frame)? {
        Some(answer) => takes(alloc, client, answer),
        None => Ok(None),
    }
}

// Frames go from one side to the other and back, until one isn't answered.
fn exchange(alloc: Global, client: &mut Side, server: &mut Side) -> Result<(), Fault> {
    let first = client.session.first();
    let mut next = sends(alloc, client, first)?;
    for _ in 0..1000 {
        match next {
            Some(frame) => next = round(alloc, client, server, frame)?,
            None => return Ok(()),
        }
    }
    Err(Fault::Row("they don't end"))
}

// How many changes a side applied, or why it ended.
fn outcome(side: &Side) -> Result<u64, NetError> {
    match (side.error, side.session.phase()) {
        (Some(error), _) => Err(error),
        (None, Phase::Over) => Ok(side.session.applied_count()),
        (None, _) => Err(NetError::Io),
    }
}

fn ends(shelf: &Shelf<Vec<u8>>, side: &Side) -> Result<String, Fault> {
    end(shelf, outcome(side), side.peer, &side.sent)
}

// How each side ended, the client first.
fn both(shelf: &Shelf<Vec<u8>>, client: &Side, server: &Side) -> Result<String, Fault> {
    let mut out = ends(shelf, client)?;
    out.push_str(", ")?;
    out.push_str(ends(shelf, server)?.as_str())?;
    Ok(out)
}

// The sides after a session between the peers.
fn hold_session<'a>(
    alloc: Global,
    client: &'a mut RowPeer,
    server: &'a mut RowPeer,
) -> Result<(Side<'a>, Side<'a>), Fault> {
    let mut client = first_side(alloc, client, Role::Client);
    let mut server = first_side(alloc, server, Role::Server);
    exchange(alloc, &mut client, &mut server)?;
    Ok((client, server))
}

fn hold(
    shelf: &Shelf<Vec<u8>>,
    client: &mut RowPeer,
    server: &mut RowPeer,
) -> Result<String, Fault> {
    let (client, server) = hold_session(shelf.alloc(), client, server)?;
    both(shelf, &client, &server)
}

// A session with a fork of the peer as the server.
fn hold_with(
    shelf: &Shelf<Vec<u8>>,
    client: &mut RowPeer,
    server: &RowPeer,
) -> Result<String, Fault> {
    let mut server = fork_of(shelf.alloc(), server)?;
    hold(shelf, client, &mut server)
}

// A session over forks of the peers.
fn hold_between(
    shelf: &Shelf<Vec<u8>>,
    client: &RowPeer,
    server: &RowPeer,
) -> Result<String, Fault> {
    let mut client = fork_of(shelf.alloc(), client)?;
    hold_with(shelf, &mut client, server)
}

// The text that both read, whose sessions have ended well.
fn text_of_both(alloc: Global, client: &Side, server: &Side) -> Result<String, Fault> {
    let (read, other) = (text(alloc, client.peer)?, text(alloc, server.peer)?);
    if outcome(client).is_ok() && outcome(server).is_ok() && read.as_str() == other.as_str() {
        return Ok(read);
    }
    Err(Fault::Row("a second session doesn't mend it"))
}

/// The text that both peers read after a session between them.
pub fn agree(alloc: Global, client: &mut RowPeer, server: &mut RowPeer) -> Result<String, Fault> {
    let (client, server) = hold_session(alloc, client, server)?;
    text_of_both(alloc, &client, &server)
}

/// `meet CLIENT SERVER`: how each side ends, the client first.
pub fn call(world: &World, words: &mut Words) -> Result<String, Fault> {
    let client = world.peers.get(words.next()?)?;
    let server = world.peers.get(words.next()?)?;
    hold_between(&world.bytes, client, server)
}
