//! The server: sessions over the connections that are accepted, one worker a seat.

ghost use Rattle.std.specs.Prelude.{◌≡◌, ◌⊎◌, IfOk, IfErr};
ghost use Rattle.tp_served.specs.Calls.{AreOf};
ghost use Rattle.tp_session.specs.declared.error.NetError.TheVariants.{Io, OutOfMemory};
ghost use Rattle.tp_session.specs.declared.session.Role.TheVariants.{Server};
ghost use Rattle.tp_net.specs.Sessions.{AllSit, AttemptsSession, Sits};

use crate::gate::{Gate, Report};
use crate::holding::hold_on;
use crate::patience::await_first;
use crate::tally::Tally;
use crossbeam_channel::{Receiver, Sender};
use std::alloc::Global;
use std::io::{Read, Write};
use std::net::{OpenListener, OpenStream, SocketAddr};
use std::sync::Wait;
use std::thread;
use std::thread::Threads;
use std::time::{Clock, Duration, Instant};
use tp_journal::Journal;
use tp_served::{Seat, Served};
use tp_session::{NetError, Role};

/// A server that ended before it had accepted all its connections.
#[derive(Drop)]
pub struct Interrupted {
    /// All seats, given back in their order.
    pub seats: Vec<Seat>,
    /// Why it ended.
    pub error: NetError,
}

// A connection, its number from 1 in the order of acceptance, when it was accepted, where the clock said, and with whom.
#[derive(Drop)]
struct Accepted<S> {
    session: u64,
    at: Option<Instant>,
    client: SocketAddr,
    stream: S,
}

// Accepts connections, as many as said, and sends each to the workers. These end once the sender is gone.
fn accept_all<R: Wait + Clock, S: Drop, L: OpenListener<Stream = S>>(
    rt: &R,
    listener: &L,
    sessions: u64,
    workers: Sender<Accepted<S>>,
) -> Result<(), NetError>
    ensures { IfErr result (λ e. (e ≡ Io) ⊎ (e ≡ OutOfMemory)) }
{
    for before in 0..sessions {
        let Ok((stream, client)) = listener.accept() else {
            return Err(NetError::Io);
        };
        let accepted = Accepted {
            session: before + 1,
            at: Instant::now(rt).ok(),
            client,
            stream,
        };
        if workers.send(rt, accepted).is_err() {
            return Err(NetError::OutOfMemory);
        }
    }
    Ok(())
}

// Holds the session of a connection, once its first bytes have come. How many changes it moved, and why it was broken off,
// if it was.
fn hold_awaited<R: Wait + Clock, S: Read + Write + OpenStream + Drop, J: Journal>(
    rt: &R,
    alloc: Global,
    stream: S,
    at: Option<Instant>,
    patience: Option<Duration>,
    served: &Served<J>,
    seat: &mut Seat,
) -> (Result<u64, NetError>, Tally)
    requires { seat.old.served ≡ served.now.served }
    ensures served { seat.new.served ≡ seat.old.served }
    ensures meets { AttemptsSession Server served.now.opened.id seat.old.state result.0 seat.new.state }
{
    match await_first(rt, &stream, at, patience) {
        Ok(()) => hold_on(rt, alloc, stream, patience, Role::Server, served, seat),
        Err(error) => (Err(error), Tally::new()),
    }
}

// Holds the session of a connection. However it ends, it ends alone.
#[tactic(auto, using(crate::proofs::SeatLists::sat))]
fn attend<R: Wait + Clock, S: Read + Write + OpenStream + Drop, J: Journal, G: Gate>(
    rt: &R,
    alloc: Global,
    accepted: Accepted<S>,
    patience: Option<Duration>,
    served: &Served<J>,
    gate: &G,
    seat: &mut Seat,
)
    requires { seat.old.served ≡ served.now.served }
    ensures { Sits served.now.opened.id seat.old seat.new }
{
    let Accepted {
        session,
        at,
        client,
        stream,
    } = accepted;
    gate.before(session);
    let (result, tally) = hold_awaited(rt, alloc, stream, at, patience, served, seat);
    gate.after(&Report {
        session,
        client,
        tally,
        error: result.err(),
    });
}

// A worker: it takes one connection after another, until no more come.
#[tactic(auto, using(crate::proofs::SeatLists::stays, crate::proofs::SeatLists::joins))]
fn work<R: Wait + Clock, S: Read + Write + OpenStream + Drop, J: Journal, G: Gate>(
    rt: &R,
    alloc: Global,
    connections: &Receiver<Accepted<S>>,
    patience: Option<Duration>,
    served: &Served<J>,
    gate: &G,
    seat: &mut Seat,
)
    requires { seat.old.served ≡ served.now.served }
    ensures { Sits served.now.opened.id seat.old seat.new }
{
    for _ in rt.forever() {
        let Ok(accepted) = connections.recv(rt) else {
            break;
        };
        attend(rt, alloc, accepted, patience, served, gate, seat);
    }
}

// One worker for each seat, side by side. The seats come back.
fn work_on_all<
    R: Threads + Wait + Clock + Sync,
    S: Read + Write + OpenStream + Send + Drop,
    J: Journal + Send,
    G: Gate + Sync,
>(
    rt: &R,
    alloc: Global,
    connections: Receiver<Accepted<S>>,
    patience: Option<Duration>,
    served: &Served<J>,
    gate: &G,
    seats: Vec<Seat>,
) -> Vec<Seat>
    requires { AreOf served.now.served seats.items }
    ensures { AllSit served.now.opened.id seats.items result.items }
{
    let mut seats = seats;
    let workers = seats.len().max(1);
    thread::for_each_mut(
        rt,
        seats.as_mut_slice(),
        workers,
        &|_, seat: &mut Seat|
            requires { seat.old.served ≡ served.now.served }
            ensures { Sits served.entry.now.opened.id seat.old seat.new }
        { work(rt, alloc, &connections, patience, served, gate, seat) },
    );
    seats
}

/// Accepts as many connections as said, and holds a session over each, as the server, about the served peer's document.
///
/// Each seat has a worker in a thread of its own, which takes the next connection once it has ended a session; a
/// connection waits for that in a queue without bound. So as many sessions may go on at once as there are seats, and
/// each call of a session has the whole peer for itself. A session that ends for an error ends alone: its worker takes
/// the next. The gate is called before and after each. Without seats nothing is accepted.
///
/// It answers once all sessions have ended. `Io` where a connection can't be accepted, `OutOfMemory` where one can't be
/// queued; the sessions that were accepted before go on to their end first. The seats come back either way. Where no
/// thread can be made, all connections are accepted first and one worker holds the sessions, one after another.
///
/// Contracts see of each seat the sessions that led it on. How many there were altogether they don't say: the connections
/// go to the workers by a channel.
///
/// Where there is a patience, a client that says nothing for so long from its acceptance on, or takes nothing for so long,
/// ends its session as `Io`: so silent clients, however many, hold the workers so long together and a millisecond each, and
/// then the next is served. What says a byte now and then in a frame that never ends is waited for each time; a client can
/// hold its worker so for as long as it speaks. No patience at all ends each session at once. Without one nothing is bounded
/// in time: a client that sends nothing holds its worker for ever, and so a server without a worker left answers nobody
/// else. Neither is a look at the clock, nor anything of time, in a contract.
pub fn serve<
    R: Threads + Wait + Clock + Sync,
    S: Read + Write + OpenStream + Send + Drop,
    L: OpenListener<Stream = S>,
    J: Journal + Send,
    G: Gate + Sync,
>(
    rt: &R,
    alloc: Global,
    listener: &L,
    served: &Served<J>,
    seats: Vec<Seat>,
    sessions: u64,
    patience: Option<Duration>,
    gate: &G,
) -> Result<Vec<Seat>, Interrupted>
    requires { AreOf served.now.served seats.items }
    ensures seats { IfOk result (λ back. AllSit served.now.opened.id seats.items back.items) }
    ensures of { IfOk result (λ back. AreOf served.now.served back.items) }
    ensures err { IfErr result (λ i. AllSit served.now.opened.id seats.items i.seats.items
        × AreOf served.now.served i.seats.items × ((i.error ≡ Io) ⊎ (i.error ≡ OutOfMemory))) }
{
    if seats.is_empty() {
        return Ok(seats);
    }
    let Ok((workers, connections)) = crossbeam_channel::unbounded(alloc) else {
        return Err(Interrupted {
            seats,
            error: NetError::OutOfMemory,
        });
    };
    let (seats, accepted) = thread::join(
        rt,
        move ||
            requires { AreOf served.now.served seats.items }
            ensures { AllSit served.entry.now.opened.id seats.items result.items }
        { work_on_all(rt, alloc, connections, patience, served, gate, seats) },
        move || accept_all(rt, listener, sessions, workers),
    );
    match accepted {
        Ok(()) => Ok(seats),
        Err(error) => Err(Interrupted { seats, error }),
    }
}
