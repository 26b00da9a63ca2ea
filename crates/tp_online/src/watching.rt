//! Watching a peer that is served: whether it runs, and its journal is still where it was, also while nobody asks.

ghost use Rattle.std.specs.Prelude.{◌≡◌, ◌⊎◌, not};
ghost use Rattle.tp_online.specs.Watching.{MayTurn, Watches, note_of};
ghost use Rattle.tp_served.specs.Seats.{Visits};

use crate::mirrored::{Mirrored, turn_beside};
use crate::mirroring::{Turns, no_turns};
use crossbeam_channel::{Receiver, RecvTimeoutError};
use std::io;
use std::io::ErrorKind;
use std::net::{Net, OpenListener, SocketAddr};
use std::sync::{Mutex, Wait};
use std::time::{Clock, Duration};
use tp_disk::Disk;
use tp_journal::Journal;
use tp_net::reach;
use tp_peer::Peer;
use tp_served::{Seat, Served, Visitor};

// This many seconds pass between two looks, and so long a listener has to accept that is to end.
const EVERY: u64 = 1;

/// Which listener of a serving it is.
#[derive(Clone, Copy)]
pub(crate) enum Door {
    /// The one that is always there.
    Main,
    /// The one beside it.
    Beside,
}

// How far a serving has come: whether it is to end, and with how many changes its peer has stopped then; how many connections it
// accepted before, and which listeners have ended.
#[derive(Clone, Copy)]
struct Progress {
    is_due: bool,
    changes: Option<usize>,
    connections: u64,
    main_ended: bool,
    beside_ended: bool,
}

impl Progress {
    // Counts a connection at a listener, and says whether it is one to be served. Where it isn't, the listener ends.
    fn admits(&mut self, door: Door) -> bool
        ensures admits { result ≡ not self.old.is_due }
        ensures due { self.new.is_due ≡ self.old.is_due }
    {
        if !self.is_due {
            self.connections = self.connections.saturating_add(1);
            return true;
        }
        match door {
            Door::Main => self.main_ended = true,
            Door::Beside => self.beside_ended = true,
        }
        false
    }
}

/// The end of a serving, which comes with the end of its peer. Who watches the peer sets it, and the listeners keep to it.
#[derive(Drop)]
pub(crate) struct Ending {
    progress: Mutex<Progress>,
}

impl Ending {
    /// It isn't due, and nothing was accepted.
    pub(crate) fn new() -> Ending {
        Ending {
            progress: Mutex::new(Progress {
                is_due: false,
                changes: None,
                connections: 0,
                main_ended: false,
                beside_ended: false,
            }),
        }
    }

    // From now on nothing more is accepted: the peer has stopped, with that many changes. Which listeners have ended.
    fn set<R: Wait>(&self, rt: &R, changes: usize) -> (bool, bool) {
        let mut progress = self.progress.lock(rt);
        progress.is_due = true;
        progress.changes = Some(changes);
        (progress.main_ended, progress.beside_ended)
    }

    // Whether a connection at a listener is one to be served.
    fn admits<R: Wait>(&self, rt: &R, door: Door) -> bool {
        self.progress.lock(rt).admits(door)
    }

    /// Whether it is due.
    pub(crate) fn is_due<R: Wait>(&self, rt: &R) -> bool {
        self.progress.lock(rt).is_due
    }

    /// How many changes the peer has, where it is due.
    pub(crate) fn change_count<R: Wait>(&self, rt: &R) -> Option<usize> {
        self.progress.lock(rt).changes
    }

    /// How many connections were accepted before.
    pub(crate) fn connection_count<R: Wait>(&self, rt: &R) -> u64 {
        self.progress.lock(rt).connections
    }
}

/// A listener that ends with a serving: the first connection that comes then is closed, and refused as `ConnectionAborted`.
#[derive(Drop)]
pub(crate) struct Closable<'a, L: OpenListener, R> {
    rt: &'a R,
    listener: L,
    door: Door,
    ending: &'a Ending,
}

impl<'a, L: OpenListener, R> Closable<'a, L, R> {
    /// Over the listener.
    pub(crate) fn new(
        rt: &'a R,
        listener: L,
        door: Door,
        ending: &'a Ending,
    ) -> Closable<'a, L, R> {
        Closable {
            rt,
            listener,
            door,
            ending,
        }
    }
}

impl<L: OpenListener, R: Wait> OpenListener for Closable<'_, L, R> {
    type Stream = L::Stream;

    fn accept(&self) -> io::Result<(L::Stream, SocketAddr)> {
        let (stream, client) = self.listener.accept()?;
        if !self.ending.admits(self.rt, self.door) {
            drop(stream);
            return Err(io::Error::from(ErrorKind::ConnectionAborted));
        }
        Ok((stream, client))
    }

    fn local_addr(&self) -> io::Result<SocketAddr> {
        self.listener.local_addr()
    }
}

// Settles a peer's journal. Where it has stopped, the answer is how many changes it has.
#[derive(Clone, Copy)]
struct Look;

impl<J: Journal> Visitor<J> for Look {
    ghost use Rattle.std.specs.Prelude.{[]};
    ghost use Rattle.std.proofs.Common.{ap, append-nil, sym, ◌∙◌};
    ghost use Rattle.tp_peer.specs.Links.{known_of};
    ghost use Rattle.tp_peer.specs.PeerState.{PeerState};
    ghost use Rattle.tp_online.specs.Watching.{IsLookedAt};

    type Answer = Result<(), usize>;

    ghost does = { λ _ p p'. IsLookedAt p p' };

    fn visit(&self, peer: &mut Peer<J>) -> Result<(), usize> {
        match peer.settle() {
            Ok(()) => Ok(()),
            Err(_) => Err(peer.change_count()),
        }
    }

    ghost serves = { λ _ p p' looked n. record { id = ap (λ (q : PeerState). q.id) looked; actor = ap (λ (q : PeerState). q.actor) looked; new = []; applied = ap (λ (q : PeerState). q.applied) looked ∙ sym (append-nil p.applied); links = λ m other. ap (λ (q : PeerState). known_of q.links m) looked } };
}

/// Where the listeners of a serving are, as far as the system says.
#[derive(Clone, Copy)]
pub(crate) struct Doors {
    /// The first of them.
    pub main: Option<SocketAddr>,
    /// The one beside it, if any.
    pub beside: Option<SocketAddr>,
}

// Calls the listener at the address, so that it accepts once more, unless it has ended.
fn call<R: Net>(rt: &R, door: Option<SocketAddr>, has_ended: bool) {
    match door {
        Some(door) if !has_ended => {
            let _ = reach(rt, door, Some(Duration::from_secs(EVERY)));
        }
        _ => {}
    }
}

// Sets the ending, of a peer that has stopped with that many changes, and calls the listeners that haven't ended.
fn end<R: Net + Wait>(rt: &R, ending: &Ending, doors: Doors, changes: usize) {
    let (main_ended, beside_ended) = ending.set(rt, changes);
    call(rt, doors.main, main_ended);
    call(rt, doors.beside, beside_ended);
}

// Looks at the served peer each second, until nothing sends to the receiver any more, and brings it in step with the text file that
// is kept beside it, where one is. Where it has stopped, the ending is set, and the listeners are called: each of them closes what it
// accepts then, and ends.
#[tactic(auto, using(crate::proofs::WatchLaws::not_yet, crate::proofs::WatchLaws::once_more, crate::proofs::WatchLaws::turned_more))]
fn keep_watch<R: Disk + Net + Wait + Clock + Eprint + AllocGlobal, J: Journal>(
    rt: &R,
    ending: &Ending,
    doors: Doors,
    serving: &Receiver<()>,
    mirrored: &Option<Mirrored>,
    served: &Served<J>,
    seat: Seat,
) -> Seat
    requires { seat.served ≡ served.now.served }
    ensures { Watches (R.saw rt.now) (note_of mirrored.now) seat result }
{
    let mut own = seat;
    let mut turns = no_turns(rt.alloc());
    for _ in rt.forever() {
        match serving.recv_timeout(rt, Duration::from_secs(EVERY)) {
            Err(RecvTimeoutError::Timeout) => {}
            _ => break,
        }
        if let Err(changes) = served.visit(rt, &mut own, &Look) {
            end(rt, ending, doors, changes);
        }
        own = turn_of(rt, mirrored, &mut turns, served, own);
    }
    own
}

// The seat after a turn with the text file that is kept beside the served peer, where one is.
fn turn_of<R: Disk + Wait + Clock + Eprint + AllocGlobal, J: Journal>(
    rt: &R,
    mirrored: &Option<Mirrored>,
    turns: &mut Turns,
    served: &Served<J>,
    seat: Seat,
) -> Seat
    requires { seat.served ≡ served.now.served }
    ensures served { result.served ≡ served.now.served }
    ensures turned { (result ≡ seat) ⊎ Visits seat.state (MayTurn (R.saw rt.now) (note_of mirrored.now)) result.state }
{
    match mirrored {
        Some(mirrored) => turn_beside(rt, mirrored, turns, served, seat),
        None => seat,
    }
}

/// Watches the served peer on the seat, which comes back: until nothing sends to the receiver any more, its journal is settled each
/// second, and brought in step with the text file that is kept beside it, where one is. A journal that is settled already is looked
/// at alone, by two calls of the system. Where that fails the peer has stopped, and what is accepted from then on is closed.
pub(crate) fn watch<R: Disk + Net + Wait + Clock + Eprint + AllocGlobal, J: Journal>(
    rt: &R,
    ending: &Ending,
    doors: Doors,
    serving: Receiver<()>,
    mirrored: &Option<Mirrored>,
    served: &Served<J>,
    seat: Seat,
) -> Seat
    requires { seat.served ≡ served.now.served }
    ensures { Watches (R.saw rt.now) (note_of mirrored.now) seat result }
{
    keep_watch(rt, ending, doors, &serving, mirrored, served, seat)
}
