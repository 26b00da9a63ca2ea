//! One session on a seat: over a reader and a writer, and over a socket.

ghost use Rattle.std.specs.Prelude.{◌≡◌, ◌⊎◌, Err};
ghost use Rattle.tp_session.specs.declared.error.NetError.TheVariants.{Io};
ghost use Rattle.tp_net.specs.Sessions.{AttemptsSession};
ghost use Rattle.tp_net.specs.RunSession.{TakesFrames};

use crate::patience::limit_waits;
use crate::run::run_session;
use crate::seated::SeatedHost;
use crate::tally::Tally;
use std::alloc::Global;
use std::io::{Read, Write};
use std::net::OpenStream;
use std::sync::Wait;
use std::time::Duration;
use tp_journal::Journal;
use tp_served::{Seat, Served};
use tp_session::{NetError, Role};

/// Holds one session over the reader and the writer, as the side with the role, on the seat. Answers how many changes were
/// applied here: those that the seat entered by it. At 2^64 - 1 the number stays.
///
/// Each refusal is as [`run_session`] says.
pub fn hold_over<R: Wait, I: Read, O: Write, J: Journal>(
    rt: &R,
    alloc: Global,
    reader: &mut I,
    writer: &mut O,
    role: Role,
    served: &Served<J>,
    seat: &mut Seat,
) -> Result<u64, NetError>
    requires { seat.old.served ≡ served.now.served }
    ensures served { seat.new.served ≡ seat.old.served }
    ensures meets { AttemptsSession role served.now.opened.id seat.old.state result seat.new.state }
    ensures frames { (result ≡ Err Io)
        ⊎ TakesFrames (O.contents writer.old) (O.contents writer.new) }
{
    hold_counted(rt, alloc, reader, writer, role, served, seat).0
}

// Holds one session as [`hold_over`] does, and answers also how many changes it moved.
fn hold_counted<R: Wait, I: Read, O: Write, J: Journal>(
    rt: &R,
    alloc: Global,
    reader: &mut I,
    writer: &mut O,
    role: Role,
    served: &Served<J>,
    seat: &mut Seat,
) -> (Result<u64, NetError>, Tally)
    requires { seat.old.served ≡ served.now.served }
    ensures served { seat.new.served ≡ seat.old.served }
    ensures meets { AttemptsSession role served.now.opened.id seat.old.state result.0 seat.new.state }
    ensures frames { (result.0 ≡ Err Io)
        ⊎ TakesFrames (O.contents writer.old) (O.contents writer.new) }
{
    let id = served.id();
    let mut host = SeatedHost::new(rt, served, seat);
    let result = run_session(alloc, reader, writer, role, id, &mut host);
    (result, host.tally())
}

/// Holds one session as [`hold_counted`] does, over the stream, which is closed at the end. A read or a write that
/// waits longer than the patience ends the session as `Io`.
pub(crate) fn hold_on<R: Wait, S: Read + Write + OpenStream + Drop, J: Journal>(
    rt: &R,
    alloc: Global,
    stream: S,
    patience: Option<Duration>,
    role: Role,
    served: &Served<J>,
    seat: &mut Seat,
) -> (Result<u64, NetError>, Tally)
    requires { seat.old.served ≡ served.now.served }
    ensures served { seat.new.served ≡ seat.old.served }
    ensures meets { AttemptsSession role served.now.opened.id seat.old.state result.0 seat.new.state }
{
    let mut reader = stream;
    match (limit_waits(&reader, patience), reader.try_clone()) {
        (Ok(()), Ok(writer)) => {
            let mut writer = writer;
            hold_counted(rt, alloc, &mut reader, &mut writer, role, served, seat)
        }
        _ => (Err(NetError::Io), Tally::new()),
    }
}
