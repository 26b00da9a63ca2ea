//! The two sides of a session: a server with a document, and clients of it.

ghost use Rattle.std.specs.Prelude.{◌≡◌, IfSome};
ghost use Rattle.tp_served.specs.Calls.{AreOf};

use crate::peers::{at_start, peer_on};
use std::io::{Read, Write};
use std::net::{Net, OpenListener, OpenStream, SocketAddr};
use std::sync::Wait;
use std::thread::Threads;
use std::time::{Clock, Duration};
use tp_journal::MemJournal;
use tp_net::{AlwaysOpen, Gate, connect, serve};
use tp_peer::Peer;
use tp_served::{Seat, Served};

/// How long a side waits for the other, where it comes to nothing.
pub fn patience() -> Option<Duration> {
    Some(Duration::from_secs(20))
}

// A document with the text, which the actor inserted in one edit.
fn document<R: AllocGlobal>(rt: &R, number: u8, text: &str) -> Option<Peer<MemJournal>> {
    let mut peer = peer_on(rt.alloc(), MemJournal::new(Vec::new(rt.alloc())), number)?;
    peer.edit(&[at_start(text)], 0, "").ok()?;
    Some(peer)
}

// A document with the text, served with `seats` seats.
fn serve_seats<R: AllocGlobal>(
    rt: &R,
    number: u8,
    text: &str,
    seats: usize,
) -> Option<(Served<MemJournal>, Vec<Seat>)>
    ensures { IfSome result (λ r. AreOf r.0.served r.1.items) }
{
    match Served::open(rt.alloc(), document(rt, number, text)?, seats) {
        Ok(opened) => Some(opened),
        Err(_) => None,
    }
}

// The text that a seat reads.
fn text_of<R: Wait>(rt: &R, served: &Served<MemJournal>, seats: Vec<Seat>) -> Option<String>
    requires { AreOf served.now.served seats.items }
{
    let mut seats = seats;
    match seats.pop() {
        Some(mut seat) => served.read(rt, &mut seat).ok(),
        None => None,
    }
}

/// Serves `abc` of actor 1 to `sessions` sessions on `seats` seats, with the patience; the text afterwards. `None`
/// where that is refused.
pub fn server<
    R: AllocGlobal + Threads + Wait + Clock + Sync,
    S: Read + Write + OpenStream + Send + Drop,
    L: OpenListener<Stream = S>,
    G: Gate + Sync,
>(
    rt: &R,
    listener: &L,
    seats: usize,
    sessions: u64,
    patience: Option<Duration>,
    gate: &G,
) -> Option<String> {
    let (served, seats) = serve_seats(rt, 1, "abc", seats)?;
    match serve(
        rt,
        rt.alloc(),
        listener,
        &served,
        seats,
        sessions,
        patience,
        gate,
    ) {
        Ok(seats) => text_of(rt, &served, seats),
        Err(_) => None,
    }
}

/// Serves `abc` of actor 1 to `sessions` sessions without a seat: how many seats come back. `None` where that is
/// refused.
pub fn server_without_seats<
    R: AllocGlobal + Threads + Wait + Clock + Sync,
    S: Read + Write + OpenStream + Send + Drop,
    L: OpenListener<Stream = S>,
>(rt: &R, listener: &L, sessions: u64) -> Option<usize> {
    let (served, _seats) = serve_seats(rt, 1, "abc", 1)?;
    let none = Vec::new(rt.alloc());
    match serve(
        rt,
        rt.alloc(),
        listener,
        &served,
        none,
        sessions,
        patience(),
        &AlwaysOpen,
    ) {
        Ok(back) => Some(back.len()),
        Err(_) => None,
    }
}

// One session as the client on the seat: how many changes entered, and the text afterwards.
fn client_at<R: AllocGlobal + Net + Wait>(
    rt: &R,
    addr: SocketAddr,
    served: &Served<MemJournal>,
    seat: &mut Seat,
) -> Option<(u64, String)>
    requires { seat.old.served ≡ served.now.served }
{
    match connect(rt, rt.alloc(), addr, patience(), served, seat) {
        Ok(applied) => match served.read(rt, seat) {
            Ok(text) => Some((applied, text)),
            Err(_) => None,
        },
        Err(_) => None,
    }
}

// One session as the client on the last of the seats: how many changes entered, and the text afterwards.
fn client_on<R: AllocGlobal + Net + Wait>(
    rt: &R,
    addr: SocketAddr,
    served: &Served<MemJournal>,
    seats: Vec<Seat>,
) -> Option<(u64, String)>
    requires { AreOf served.now.served seats.items }
{
    let mut seats = seats;
    match seats.pop() {
        Some(mut seat) => client_at(rt, addr, served, &mut seat),
        None => None,
    }
}

/// A client with a text of the actor with the number: how many changes entered, and the text afterwards.
pub fn client<R: AllocGlobal + Net + Wait>(
    rt: &R,
    addr: SocketAddr,
    number: u8,
    text: &str,
) -> Option<(u64, String)> {
    let (served, seats) = serve_seats(rt, number, text, 1)?;
    client_on(rt, addr, &served, seats)
}
