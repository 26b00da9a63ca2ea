//! The connections of a page: those whose requests are read, and the windows, one worker a seat.

ghost use Rattle.std.specs.Prelude.{◌≡◌, ◌⊎◌, IfErr, IfOk};
ghost use Rattle.tp_served.specs.Calls.{AreOf};
ghost use Rattle.tp_session.specs.declared.error.NetError.TheVariants.{Io, OutOfMemory};
ghost use Rattle.tp_web.specs.Visiting.{AllAttend, Attends};

use crate::actors::Actors;
use crate::limit::Limit;
use crate::living::QUIET;
use crate::responding::send_busy;
use crate::site::Site;
use crate::timed::Timed;
use crate::visiting::receive;
use crate::windowing::{Candidate, begin};
use crossbeam_channel::{Receiver, Sender};
use std::alloc::Global;
use std::io::{Read, Write};
use std::net::{OpenListener, OpenStream};
use std::sync::Wait;
use std::thread;
use std::thread::Threads;
use std::time::{Clock, Duration, Instant};
use tp_journal::Journal;
use tp_net::Interrupted;
use tp_served::{MAX_SEATS, Seat, Served};
use tp_session::NetError;

// This many connections may be open at once that have asked for no window yet.
const MOST_VISITS: u64 = 192;

// The requests of this many of them are read at once.
const READERS: usize = 64;

// A request has this many seconds from the acceptance of its connection on, and so has its answer.
const REQUEST: u64 = 10;

/// No more connections are open at once than this: those that have asked for no window, the windows, and one that is refused.
pub const MOST_OPEN: u64 = MOST_VISITS + MAX_SEATS as u64 + 1;

// A connection that has asked for nothing yet, its number from 1 in the order of acceptance, and when it was accepted, where the
// clock said.
#[derive(Drop)]
struct Visit<S> {
    number: u64,
    at: Option<Instant>,
    stream: S,
}

// A connection that has asked for a window, with the bytes that begin with its request.
#[derive(Drop)]
struct Asking<S> {
    number: u64,
    stream: S,
    request: Vec<u8>,
}

// What is served: the connections of a listener, as many as said, what they may ask for, and how many may be open.
#[derive(Drop)]
struct Door<'a, L> {
    listener: &'a L,
    site: &'a Site,
    connections: u64,
    visits: Limit,
    windows: Limit,
}

// What the workers share: the page's site, how many windows may be open, the connections that ask for one, and the key from which
// the windows' actors are drawn.
#[derive(Drop)]
struct WorkerContext<'a, S> {
    site: &'a Site,
    limit: &'a Limit,
    windows: Receiver<Asking<S>>,
    key: [u8; 32],
}

// Says to a connection that there are too many, and ends it.
fn turn_away<S: Read + Write + OpenStream + Drop>(alloc: Global, stream: S) {
    let mut stream = stream;
    let _ = stream.set_write_timeout(Some(Duration::from_secs(REQUEST)));
    let _ = send_busy(alloc, &mut stream);
}

// Accepts connections, as many as said, and sends each to those who read requests; these end once the sender is gone. One too many
// is refused at once, and one for which there is no memory is closed.
fn accept_all<R: Wait + Clock, S: Read + Write + OpenStream + Drop, L: OpenListener<Stream = S>>(
    rt: &R,
    alloc: Global,
    door: &Door<'_, L>,
    readers: Sender<Visit<S>>,
) -> Result<(), NetError>
    ensures { IfErr result (λ e. e ≡ Io) }
{
    for before in 0..door.connections {
        let Ok((stream, _)) = door.listener.accept() else {
            return Err(NetError::Io);
        };
        if !door.visits.enter(rt) {
            turn_away(alloc, stream);
            continue;
        }
        let visit = Visit {
            number: before + 1,
            at: Instant::now(rt).ok(),
            stream,
        };
        if readers.send(rt, visit).is_err() {
            door.visits.leave(rt);
        }
    }
    Ok(())
}

// Sends a connection that asks for a window to the workers, where one more may be open.
fn pass_on<R: Wait, S: Read + Write + OpenStream + Drop>(
    rt: &R,
    alloc: Global,
    windows: &Limit,
    workers: &Sender<Asking<S>>,
    asking: Asking<S>,
) {
    if !windows.enter(rt) {
        turn_away(alloc, asking.stream);
        return;
    }
    if workers.send(rt, asking).is_err() {
        windows.leave(rt);
    }
}

// Answers the request of a connection, except for one for a window, which goes to the workers.
fn attend<R: Wait + Clock, S: Read + Write + OpenStream + Drop>(
    rt: &R,
    alloc: Global,
    site: &Site,
    windows: &Limit,
    workers: &Sender<Asking<S>>,
    visit: Visit<S>,
) {
    let Visit { number, at, stream } = visit;
    let mut stream = Timed::new(rt, stream, at, REQUEST);
    stream.limit_writes(REQUEST);
    if let Some(request) = receive(alloc, site, &mut stream) {
        let stream = stream.into_inner();
        let asking = Asking {
            number,
            stream,
            request,
        };
        pass_on(rt, alloc, windows, workers, asking);
    }
}

// Reads the requests of one connection after another, until no more come.
fn read_requests<R: Wait + Clock, S: Read + Write + OpenStream + Drop, L>(
    rt: &R,
    alloc: Global,
    door: &Door<'_, L>,
    visits: &Receiver<Visit<S>>,
    workers: &Sender<Asking<S>>,
) {
    for _ in rt.forever() {
        let Ok(visit) = visits.recv(rt) else {
            break;
        };
        attend(rt, alloc, door.site, &door.windows, workers, visit);
        door.visits.leave(rt);
    }
}

// Reads them by several threads. The workers end once that is done.
fn read_all<R: Threads + Wait + Clock + Sync, S: Read + Write + OpenStream + Send + Drop, L: Sync>(
    rt: &R,
    alloc: Global,
    door: &Door<'_, L>,
    visits: Receiver<Visit<S>>,
    workers: Sender<Asking<S>>,
) {
    let mut readers = [(); READERS];
    thread::for_each_mut(
        rt,
        &mut readers,
        READERS,
        &|_, _: &mut ()| { read_requests(rt, alloc, door, &visits, &workers) },
    );
}

// The window that a request asks for on the connection with the number, and what its page has to know. Its actor is drawn from the
// key.
fn candidate_of(
    alloc: Global,
    site: &Site,
    key: [u8; 32],
    number: u64,
    request: Vec<u8>,
) -> Candidate {
    let secret = site.secret();
    Candidate {
        window: Actors { key, number }.window(alloc, &request),
        request,
        key: secret.key,
        challenge: secret.challenge(number),
    }
}

// A worker: it shows one window after another, until no more come.
#[tactic(auto, using(crate::proofs::Attending::stays, crate::proofs::Attending::joins))]
fn work<R: Wait + Clock + Eprint, S: Read + Write + OpenStream + Drop, J: Journal>(
    rt: &R,
    alloc: Global,
    shared: &WorkerContext<'_, S>,
    served: &Served<J>,
    seat: &mut Seat,
)
    requires { seat.old.served ≡ served.now.served }
    ensures { Attends seat.old seat.new }
{
    for _ in rt.forever() {
        let Ok(
            Asking {
                number,
                stream,
                request,
            },
        ) = shared.windows.recv(rt)
        else {
            break;
        };
        let stream = Timed::new(rt, stream, None, QUIET);
        let candidate = candidate_of(alloc, shared.site, shared.key, number, request);
        begin(rt, alloc, stream, candidate, served, seat);
        shared.limit.leave(rt);
    }
}

// One worker for each seat, side by side. The seats come back.
fn work_on_all<
    R: Threads + Wait + Clock + Eprint + Sync,
    S: Read + Write + OpenStream + Send + Drop,
    J: Journal + Send,
>(
    rt: &R,
    alloc: Global,
    shared: WorkerContext<'_, S>,
    served: &Served<J>,
    seats: Vec<Seat>,
) -> Vec<Seat>
    requires { AreOf served.now.served seats.items }
    ensures { AllAttend seats.items result.items }
{
    let mut seats = seats;
    let workers = seats.len().max(1);
    thread::for_each_mut(
        rt,
        seats.as_mut_slice(),
        workers,
        &|_, seat: &mut Seat|
            requires { seat.old.served ≡ served.now.served }
            ensures { Attends seat.old seat.new }
        { work(rt, alloc, &shared, served, seat) },
    );
    seats
}

// Accepts connections and answers their requests. Those for windows go to the workers, which end once that is done.
fn welcome<
    R: Threads + Wait + Clock + Sync,
    S: Read + Write + OpenStream + Send + Drop,
    L: OpenListener<Stream = S> + Sync,
>(rt: &R, alloc: Global, door: &Door<'_, L>, workers: Sender<Asking<S>>) -> Result<(), NetError>
    ensures { IfErr result (λ e. (e ≡ Io) ⊎ (e ≡ OutOfMemory)) }
{
    let Ok((readers, waiting)) = crossbeam_channel::unbounded(alloc) else {
        return Err(NetError::OutOfMemory);
    };
    let ((), accepted) = thread::join(
        rt,
        move || read_all(rt, alloc, door, waiting, workers),
        move || accept_all(rt, alloc, door, readers),
    );
    accepted
}

/// Accepts as many connections as said, and answers the request of each: with a part of the page, or by a window, whose requests
/// are answered until it ends.
///
/// A request and its answer have ten seconds from the acceptance of the connection on. Up to 192 connections that have asked for no
/// window may be open at once, and as many windows as there are seats; one too many is answered 503 at once. Each seat has a worker
/// in a thread of its own, and 64 more threads read requests.
///
/// A window that asks for nothing for 20 seconds is pinged, and ends where it doesn't answer that for another 20; pings of its own
/// count for nothing. One that doesn't take an answer for two minutes ends too, and each ends once the peer has stopped: with its
/// next request or pong. Each ends alone. The edits of each window are those
/// of an actor of its own, which is drawn from the key by the number of its connection, or of an earlier one of these that its page
/// names. So a page that was cut off goes on under its actor: an edit of which it doesn't know whether it came may be sent again,
/// and is made once.
///
/// It answers once all connections have ended: `Io` where one can't be accepted; those that were accepted before go on to their end
/// first. `OutOfMemory` where there is no memory to begin. The seats come back either way.
///
/// Contracts see of each seat the turns that led it on; in each turn the peer stayed or made one edit. How many there
/// were they don't say, nor anything of what goes over the sockets.
pub fn serve_windows<
    R: Threads + Wait + Clock + Eprint + Sync,
    S: Read + Write + OpenStream + Send + Drop,
    L: OpenListener<Stream = S> + Sync,
    J: Journal + Send,
>(
    rt: &R,
    alloc: Global,
    listener: &L,
    site: &Site,
    served: &Served<J>,
    seats: Vec<Seat>,
    key: [u8; 32],
    connections: u64,
) -> Result<Vec<Seat>, Interrupted>
    requires { AreOf served.now.served seats.items }
    ensures seats { IfOk result (λ back. AllAttend seats.items back.items) }
    ensures of { IfOk result (λ back. AreOf served.now.served back.items) }
    ensures err { IfErr result (λ i. AllAttend seats.items i.seats.items
        × AreOf served.now.served i.seats.items × ((i.error ≡ Io) ⊎ (i.error ≡ OutOfMemory))) }
{
    if seats.is_empty() {
        return Ok(seats);
    }
    let Ok((workers, waiting)) = crossbeam_channel::unbounded(alloc) else {
        return Err(Interrupted {
            seats,
            error: NetError::OutOfMemory,
        });
    };
    let door = Door {
        listener,
        site,
        connections,
        visits: Limit::new(MOST_VISITS),
        windows: Limit::new(seats.len() as u64),
    };
    let open = &door;
    let shared = WorkerContext {
        site,
        limit: &door.windows,
        windows: waiting,
        key,
    };
    let (seats, accepted) = thread::join(
        rt,
        move ||
            requires { AreOf served.now.served seats.items }
            ensures { AllAttend seats.items result.items }
        { work_on_all(rt, alloc, shared, served, seats) },
        move || welcome(rt, alloc, open, workers),
    );
    match accepted {
        Ok(()) => Ok(seats),
        Err(error) => Err(Interrupted { seats, error }),
    }
}
