//! The client.

ghost use Rattle.std.specs.Prelude.{◌≡◌};
ghost use Rattle.tp_session.specs.declared.session.Role.TheVariants.{Client};
ghost use Rattle.tp_net.specs.Sessions.{AttemptsSession};

use crate::holding::hold_on;
use std::alloc::Global;
use std::io;
use std::io::ErrorKind;
use std::net::{Net, SocketAddr, TcpStream, ToSocketAddrs};
use std::sync::Wait;
use std::time::Duration;
use tp_journal::Journal;
use tp_served::{Seat, Served};
use tp_session::{NetError, Role};

/// Why an address can't be connected to, or listened on, as far as the system says.
#[derive(Clone, Copy, Debug, PartialEq, Eq)]
pub enum Unreached {
    /// Nobody listens there.
    Refused,
    /// There was no answer in time.
    TimedOut,
    /// Another program listens there.
    InUse,
    /// It is no address of this machine.
    NotHere,
    /// The user may not.
    NotAllowed,
    /// The name has no address.
    NoSuchName,
    /// Something else, as that there is no way there.
    Other,
}

impl Unreached {
    /// What the system's error means.
    pub fn by(error: &io::Error) -> Unreached {
        match error.kind() {
            ErrorKind::ConnectionRefused => Unreached::Refused,
            ErrorKind::TimedOut | ErrorKind::WouldBlock => Unreached::TimedOut,
            ErrorKind::AddrInUse => Unreached::InUse,
            ErrorKind::AddrNotAvailable => Unreached::NotHere,
            ErrorKind::PermissionDenied => Unreached::NotAllowed,
            ErrorKind::Uncategorized => Unreached::NoSuchName,
            _ => Unreached::Other,
        }
    }
}

// A connection with the server there, to be had within the patience, where there is one.
fn connected_to<R: Net>(
    rt: &R,
    addr: SocketAddr,
    patience: Option<Duration>,
) -> io::Result<R::Stream> {
    match patience {
        Some(patience) => TcpStream::connect_timeout(rt, &addr, patience),
        None => TcpStream::connect(rt, addr),
    }
}

/// A connection with the server at the address. Of a name each address is tried in turn, each within the patience, where there
/// is one. Where there is no connection to be had it is refused as the last of them.
pub fn reach<R: Net, A: ToSocketAddrs>(
    rt: &R,
    addr: A,
    patience: Option<Duration>,
) -> Result<R::Stream, Unreached> {
    let mut cause = Unreached::NoSuchName;
    let Ok(found) = addr.to_socket_addrs(rt) else {
        return Err(cause);
    };
    for addr in found {
        match connected_to(rt, addr, patience) {
            Ok(stream) => return Ok(stream),
            Err(error) => cause = Unreached::by(&error),
        }
    }
    Err(cause)
}

/// Connects to a server, and holds one session with it, as the client, about the served peer's document. Answers how
/// many changes were applied here: those that the seat entered by it. At 2^64 - 1 the number stays.
///
/// Of a name each address that it has is tried in turn. Where there is a patience, no try to connect takes longer, and a
/// session in which the server says or takes nothing for so long ends as `Io`; no patience at all does at once. Without
/// one the server can hold it for ever.
///
/// `Io` where there is no connection to be had, and else what [`run_session`](crate::run_session) answers.
pub fn connect<R: Net + Wait, A: ToSocketAddrs, J: Journal>(
    rt: &R,
    alloc: Global,
    addr: A,
    patience: Option<Duration>,
    served: &Served<J>,
    seat: &mut Seat,
) -> Result<u64, NetError>
    requires { seat.old.served ≡ served.now.served }
    ensures served { seat.new.served ≡ seat.old.served }
    ensures meets { AttemptsSession Client served.now.opened.id seat.old.state result seat.new.state }
{
    match reach(rt, addr, patience) {
        Ok(stream) => hold_on(rt, alloc, stream, patience, Role::Client, served, seat).0,
        Err(_) => Err(NetError::Io),
    }
}
