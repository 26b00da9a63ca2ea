//! Sessions that are fed in pieces, whose frames come whole or in parts.

use crate::world::RowPeer;
use std::alloc::Global;
use tp_frame::{Frame, FrameError, Framer, PartFramer, write_frame};
use tp_peer::Link;
use tp_session::{Ended, LinkedPeer, NetError, Phase, Role, Session, Turn};
use tp_test_runner::Fault;

/// How frames come.
#[derive(Drop)]
pub enum Framing {
    /// Each once it is whole.
    Whole(Framer),
    /// In parts.
    Parts(PartFramer),
}

/// A session, what takes the stream, what was sent, and the most bytes that either held once all was taken.
#[derive(Drop)]
pub struct Side {
    session: Session,
    framing: Framing,
    pub sent: Vec<u8>,
    pub framed: usize,
    pub read: usize,
}

impl Side {
    /// The side with the role, at its begin, about the peer's document.
    pub fn new(alloc: Global, role: Role, peer: &RowPeer, framing: Framing) -> Side {
        Side {
            session: Session::new(role, peer.document().id()),
            framing,
            sent: Vec::new(alloc),
            framed: 0,
            read: 0,
        }
    }

    // Keeps the bytes of a frame that goes out, if there is one.
    fn send(&mut self, alloc: Global, frame: Option<Frame>) -> Result<(), Fault> {
        if let Some(frame) = &frame {
            let bytes = write_frame(alloc, frame).ok().ok_or(Fault::Memory)?;
            self.sent.extend_from_slice(&bytes)?;
        }
        Ok(())
    }

    // Notes how many bytes are held, where parts are taken.
    fn note(&mut self) {
        if let Framing::Parts(framer) = &self.framing {
            self.framed = self.framed.max(framer.held());
            self.read = self.read.max(self.session.held());
        }
    }

    // The turn about what comes next, if it is there.
    fn turn(
        &mut self,
        alloc: Global,
        peer: &mut RowPeer,
    ) -> Result<Option<Result<Turn, Ended>>, FrameError> {
        let mut host = LinkedPeer::new(peer, Link(0));
        match &mut self.framing {
            Framing::Whole(framer) => match framer.next()? {
                Some(frame) => Ok(Some(self.session.on_frame(frame, &mut host))),
                None => Ok(None),
            },
            Framing::Parts(framer) => match framer.next()? {
                Some(part) => Ok(Some(self.session.on_part(alloc, part, &mut host))),
                None => Ok(None),
            },
        }
    }

    // Takes all that is there; the error for which the session ends, if it does so.
    fn take(&mut self, alloc: Global, peer: &mut RowPeer) -> Result<Option<NetError>, Fault> {
        for _ in 0..u64::MAX {
            if self.session.phase() == Phase::Over {
                return Ok(None);
            }
            let ended = match self.turn(alloc, peer) {
                Ok(Some(Ok(Turn { send, ended: _ }))) => {
                    self.send(alloc, send)?;
                    continue;
                }
                Ok(Some(Err(ended))) => ended,
                Ok(None) => return Ok(None),
                Err(FrameError::OutOfMemory) => return Err(Fault::Memory),
                Err(error) => Ended::new(NetError::from(error)),
            };
            let Ended { error, send } = ended;
            self.send(alloc, send)?;
            return Ok(Some(error));
        }
        Ok(None)
    }

    /// Takes a piece: how the session ended, if it did.
    pub fn feed(
        &mut self,
        alloc: Global,
        peer: &mut RowPeer,
        piece: &[u8],
    ) -> Result<Option<Result<u64, NetError>>, Fault> {
        let fed = match &mut self.framing {
            Framing::Whole(framer) => framer.feed(piece),
            Framing::Parts(framer) => framer.feed(piece),
        };
        fed.ok().ok_or(Fault::Memory)?;
        let stopped = self.take(alloc, peer)?;
        self.note();
        match stopped {
            Some(error) => Ok(Some(Err(error))),
            None if self.session.phase() == Phase::Over => Ok(Some(Ok(
                self.session.applied_count(),
            ))),
            None => Ok(None),
        }
    }

    /// Takes the bytes, one at a time, until the session ends: how it ended.
    pub fn run(
        &mut self,
        alloc: Global,
        peer: &mut RowPeer,
        bytes: &[u8],
    ) -> Result<Result<u64, NetError>, Fault> {
        let first = self.session.first();
        self.send(alloc, first)?;
        for byte in bytes {
            if let Some(ended) = self.feed(alloc, peer, &[*byte])? {
                return Ok(ended);
            }
        }
        Ok(Err(NetError::Io))
    }
}
