//! One session of a peer alone: over a reader and a writer, and with a server.

ghost use Rattle.std.specs.Prelude.{◌≡◌, ◌⊎◌, Err};
ghost use Rattle.tp_session.specs.declared.error.NetError.TheVariants.{Io};
ghost use Rattle.tp_session.specs.declared.session.Role.TheVariants.{Client};
ghost use Rattle.tp_net.specs.RunSession.{TakesFrames};
ghost use Rattle.tp_net.specs.Sessions.{AttemptsSessionAlone};

use crate::connecting::reach;
use crate::patience::limit_waits;
use crate::run::run_session;
use std::alloc::Global;
use std::io::{Read, Write};
use std::net::{Net, OpenStream, ToSocketAddrs};
use std::time::Duration;
use tp_journal::Journal;
use tp_peer::{Link, Peer};
use tp_session::{LinkedPeer, NetError, Role};

/// Holds one session over the reader and the writer, as the side with the role, about the peer's document and on its link
/// with the number 0. Answers how many changes entered. At 2^64 - 1 the number stays.
///
/// Each refusal is as [`run_session`] says.
pub fn hold_alone<I: Read, O: Write, J: Journal>(
    alloc: Global,
    reader: &mut I,
    writer: &mut O,
    role: Role,
    peer: &mut Peer<J>,
) -> Result<u64, NetError>
    ensures meets { AttemptsSessionAlone role peer.old result peer.new }
    ensures frames { (result ≡ Err Io)
        ⊎ TakesFrames (O.contents writer.old) (O.contents writer.new) }
{
    let id = peer.document().id();
    let mut host = LinkedPeer::new(peer, Link(0));
    run_session(alloc, reader, writer, role, id, &mut host)
}

/// Holds one session as [`hold_alone`] does, over the stream, which is closed at the end, and with the patience as
/// [`connect`](crate::connect) says. `Io` where that can't be set.
pub fn hold_alone_on<S: Read + Write + OpenStream + Drop, J: Journal>(
    alloc: Global,
    stream: S,
    patience: Option<Duration>,
    role: Role,
    peer: &mut Peer<J>,
) -> Result<u64, NetError>
    ensures { AttemptsSessionAlone role peer.old result peer.new }
{
    let mut reader = stream;
    match (limit_waits(&reader, patience), reader.try_clone()) {
        (Ok(()), Ok(writer)) => {
            let mut writer = writer;
            hold_alone(alloc, &mut reader, &mut writer, role, peer)
        }
        _ => Err(NetError::Io),
    }
}

/// Connects to a server, and holds one session with it, as the client, as [`hold_alone`] does; with the patience as
/// [`connect`](crate::connect) says.
///
/// `Io` where there is no connection to be had, and else what [`run_session`] answers.
pub fn connect_alone<R: Net, A: ToSocketAddrs, J: Journal>(
    rt: &R,
    alloc: Global,
    addr: A,
    patience: Option<Duration>,
    peer: &mut Peer<J>,
) -> Result<u64, NetError>
    ensures { AttemptsSessionAlone Client peer.old result peer.new }
{
    match reach(rt, addr, patience) {
        Ok(stream) => hold_alone_on(alloc, stream, patience, Role::Client, peer),
        Err(_) => Err(NetError::Io),
    }
}
