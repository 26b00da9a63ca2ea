//! The commands `serve` and `sync`.

ghost use Rattle.std.specs.Prelude.{◌≡◌, ◌⊎◌, ℕ, ◌+◌, List, IfOk, IfErr, None, Ok, OnErr, OnOk, Option, is_some, length, min};
ghost use Rattle.std.specs.Io.KnownBytes.{Appends, Keeps};
ghost use Rattle.std.specs.String.{string_bytes};
ghost use Rattle.tp_textpeer.specs.Output.{AppendsPart};
ghost use Rattle.tp_online.specs.Network.{IsServeOutput, IsSynced, listening_line as line_of_port, served_line as line_of_sessions};
ghost use Rattle.tp_report.specs.Telling.{applied_line as line_of_applied, GrowsBy, GrowsPart, RefusesPrinting};
ghost use Rattle.tp_disk.specs.Opening.{CutsFile, MayCutFile, OpensUnder};
ghost use Rattle.tp_disk.specs.DiskView.{OfLocked};
ghost use Rattle.tp_session.specs.declared.session.Role.TheVariants.{Client};
ghost use Rattle.tp_net.specs.Sessions.{AllSit, AttemptsSessionAlone};
ghost use Rattle.tp_served.specs.Calls.{AreOf};
ghost use Rattle.tp_online.specs.Sessions.{HasMet, ReportsEach, ServesJournal, WasServed};
ghost use Rattle.tp_online.specs.Watching.{Watches, note_of};

use crate::accepting::{SERVE_PLACES, Teller};
use crate::listening::{Listening, STOPPED, Source, listen, open_anew, open_peer};
use crate::mirrored::{Mirrored, Noted, prepare};
use crate::seating::{Seated, end_watched, hold, seat_watched};
use crate::watching::{Closable, Door, Doors, Ending, watch};
use crossbeam_channel::Sender;
use std::alloc::Global;
use std::fs::OpenFile;
use std::io::{Read, Write};
use std::marker::Brand;
use std::net::{Net, OpenListener, OpenStream};
use std::sync::Wait;
use std::sync::ledger::{Blank, Ledger};
use std::thread;
use std::thread::Threads;
use std::time::{Clock, Duration};
use tp_command_line::Address;
use tp_commands::CommandError;
use tp_disk::{Disk, draw_actor};
use tp_journal::{DurableJournal, Journal};
use tp_net::{Unreached, hold_alone_on, reach};
use tp_patient::{Patient, Places};
use tp_peer::Peer;
use tp_report::{JobError, Log, applied_text, put, report};
use tp_served::{MAX_SEATS, Seat, Served};
use tp_session::Role;

/// How a server serves.
#[derive(Clone, Copy)]
pub struct Serving {
    /// How many sessions it holds.
    pub sessions: u64,
    /// How many at once, 1 to 64.
    pub workers: usize,
    /// How long a client may say nothing.
    pub patience: Option<Duration>,
    /// Whether a line is printed of each session as it ends.
    pub is_verbose: bool,
    /// For how many seconds the lock of the journal is waited for.
    pub wait: u64,
}

/// A peer, once it held a session.
#[derive(Drop)]
pub struct Met<F: Write + OpenFile + Drop> {
    /// The peer.
    pub peer: Peer<DurableJournal<F>>,
    /// How many changes entered by the session.
    pub applied: u64,
}

// The line of the port on which a server listens.
pub(crate) fn listening_line(alloc: Global, port: u16) -> Result<String, CommandError>
    ensures ok { IfOk result (λ l. string_bytes l ≡ line_of_port port) }
{
    Ok(format!(in alloc; "listening {port}\n")?)
}

// The line of how many sessions were held.
fn served_line(alloc: Global, sessions: u64) -> Result<String, CommandError>
    ensures ok { IfOk result (λ l. string_bytes l ≡ line_of_sessions sessions) }
{
    Ok(format!(in alloc; "served {sessions}\n")?)
}

// Prints the port.
fn tell_port<W: Write>(alloc: Global, port: u16, out: &mut W) -> Result<(), JobError>
    ensures ok { OnOk result
        (Appends (W.contents out.old) (W.contents out.new) (line_of_port port)) }
    ensures err { IfErr result
        (λ _. AppendsPart (W.contents out.old) (W.contents out.new) (line_of_port port)) }
{
    put(out, listening_line(alloc, port))
}

// Prints how many sessions there were.
fn tell_sessions<W: Write>(alloc: Global, sessions: u64, out: &mut W) -> Result<(), JobError>
    ensures ok { OnOk result
        (Appends (W.contents out.old) (W.contents out.new) (line_of_sessions sessions)) }
    ensures err { IfErr result
        (λ _. AppendsPart (W.contents out.old) (W.contents out.new) (line_of_sessions sessions)) }
{
    put(out, served_line(alloc, sessions))
}

// Prints how many changes entered.
fn tell_applied<W: Write>(alloc: Global, applied: u64, out: &mut W) -> Result<(), JobError>
    ensures ok { OnOk result
        (Appends (W.contents out.old) (W.contents out.new) (line_of_applied applied)) }
    ensures err { IfErr result
        (λ e. RefusesPrinting IsSynced (W.contents out.old) e (W.contents out.new)) }
{
    put(out, applied_text(alloc, Some(applied)))
}

// A listener, how sessions are held with it, how many are still to be held, and their end.
#[derive(Drop)]
struct Holding<'a, L> {
    listener: &'a L,
    how: &'a Serving,
    left: u64,
    ending: &'a Ending,
}

// Holds sessions as [`hold`] does; then the sender is gone.
fn hold_until<
    R: Threads + Wait + Clock + Eprint + AllocGlobal + Sync,
    S: Read + Write + OpenStream + Send + Drop,
    L: OpenListener<Stream = S>,
    M,
    J: Journal + Send,
>(
    rt: &R,
    listener: &L,
    holding: &Holding<'_, M>,
    served: &Served<J>,
    seats: Vec<Seat>,
    serving: Sender<()>,
) -> Result<Vec<Seat>, JobError>
    requires { AreOf served.now.served seats.items }
    ensures sat { IfOk result (λ back. AllSit served.now.opened.id seats.items back.items) }
    ensures of { IfOk result (λ back. AreOf served.now.served back.items
        × (length back.items ≡ length seats.items)) }
{
    let gate = Log {
        rt,
        is_verbose: holding.how.is_verbose,
    };
    let held = hold(
        rt,
        rt.alloc(),
        listener,
        served,
        seats,
        holding.left,
        holding.how.patience,
        &gate,
    );
    drop(serving);
    held
}

// Holds sessions with those that a listener accepts, and watches the peer meanwhile: the listener ends with the serving.
fn hold_watched<
    R: Disk + Net + Threads + Wait + Clock + Eprint + AllocGlobal + Sync,
    S: Read + Write + OpenStream + Send + Drop,
    L: OpenListener<Stream = S> + Sync + Drop,
    M: Sync,
    J: Journal + Send,
>(
    rt: &R,
    listener: L,
    holding: &Holding<'_, M>,
    mirrored: &Option<Mirrored>,
    served: &Served<J>,
    seats: Vec<Seat>,
    seat: Seat,
) -> Result<(Vec<Seat>, Seat), JobError>
where
    R::File: Send,
    R::New: Send,
    R::Listener: Sync,
    R::Stream: Send,
    requires are { AreOf served.now.served seats.items }
    requires watch { seat.served ≡ served.now.served }
    ensures sat { IfOk result (λ back. AllSit served.now.opened.id seats.items back.0.items) }
    ensures of { IfOk result (λ back. AreOf served.now.served back.0.items
        × (length back.0.items ≡ length seats.items)) }
    ensures watches { IfOk result (λ back. Watches (R.saw rt.now) (note_of mirrored.now) seat back.1) }
{
    let doors = Doors {
        main: listener.local_addr().ok(),
        beside: None,
    };
    let ending = holding.ending;
    let closable = Closable::new(rt, listener, Door::Main, ending);
    let listener = &closable;
    let (serving, ended) = crossbeam_channel::unbounded(rt.alloc())?;
    // (where no thread can be made the first is called last, when the serving has ended)
    let (watched, held) = thread::join(
        rt,
        move ||
            requires { seat.served ≡ served.now.served }
            ensures { Watches (R.saw rt.entry.now) (note_of mirrored.entry.now) seat result }
        { watch(rt, ending, doors, ended, mirrored, served, seat) },
        move ||
            requires { AreOf served.now.served seats.items }
            ensures sat { IfOk result
                (λ back. AllSit served.entry.now.opened.id seats.items back.items) }
            ensures of { IfOk result (λ back. AreOf served.entry.now.served back.items
                × (length back.items ≡ length seats.items)) }
        { hold_until(rt, listener, holding, served, seats, serving) },
    );
    match held {
        Ok(back) => Ok((back, watched)),
        Err(error) => Err(error),
    }
}

// Holds sessions as [`hold_watched`] does, on places that are counted by the ledger.
fn hold_counted<
    K: Ledger + Send + Sync,
    R: Disk + Net + Threads + Wait + Clock + Eprint + AllocGlobal + Sync,
    J: Journal + Send,
>(
    rt: &R,
    holding: &Holding<'_, R::Listener>,
    mirrored: &Option<Mirrored>,
    served: &Served<J>,
    seats: Vec<Seat>,
    seat: Seat,
    blank: Blank,
) -> Result<(Vec<Seat>, Seat), JobError>
where
    R::File: Send,
    R::New: Send,
    R::Listener: Sync,
    R::Stream: Send,
    requires are { AreOf served.now.served seats.items }
    requires watch { seat.served ≡ served.now.served }
    requires name { blank.name ≡ K.name }
    requires parts { blank.parts ≡ K.parts }
    requires places { blank.parts ≡ SERVE_PLACES }
    ensures sat { IfOk result (λ back. AllSit served.now.opened.id seats.items back.0.items) }
    ensures of { IfOk result (λ back. AreOf served.now.served back.0.items
        × (length back.0.items ≡ length seats.items)) }
    ensures watches { IfOk result (λ back. Watches (R.saw rt.now) (note_of mirrored.now) seat back.1) }
{
    let places = Places::<K>::new(blank, SERVE_PLACES);
    let kept = holding.how.workers as u64;
    let patient = Patient::new(rt, holding.listener, &places, kept, &Teller);
    hold_watched(rt, patient, holding, mirrored, served, seats, seat)
}

// How many seats a server gets: one for each session at once, and one that watches, but 64 at most.
fn seats_for(workers: usize) -> usize
    ensures { result ≡ min (workers + 1) 64 }
{
    if workers < MAX_SEATS {
        workers + 1
    } else {
        MAX_SEATS
    }
}

// Holds the sessions, and ends the serving with the seats that came back: the peer that the closing gives. One whose
// journal failed meanwhile is refused.
fn hold_sessions<
    R: Disk + Net + Threads + Wait + Clock + Eprint + AllocGlobal + Sync,
    F: Write + OpenFile + Send + Drop,
>(
    rt: &R,
    holding: &Holding<'_, R::Listener>,
    mirrored: &Option<Mirrored>,
    peer: Peer<DurableJournal<F>>,
) -> Result<Peer<DurableJournal<F>>, JobError>
where
    R::File: Send,
    R::New: Send,
    R::Listener: Sync,
    R::Stream: Send,
    ensures { IfOk result (λ p. WasServed (R.saw rt.now) (note_of mirrored.now) peer holding.now.how.now.workers p) }
{
    let Seated {
        served,
        seats,
        watch,
    } = seat_watched(rt.alloc(), peer, seats_for(holding.how.workers))?;
    match hold_counted::<Brand, R, DurableJournal<F>>(
        rt,
        holding,
        mirrored,
        &served,
        seats,
        watch,
        Blank::new(SERVE_PLACES),
    ) {
        Ok((back, watched)) => match end_watched(served, back, watched) {
            Ok(peer) => Ok(peer),
            Err(error) => Err(JobError::Command(error)),
        },
        Err(error) => {
            drop(served);
            if holding.ending.is_due(rt) {
                Err(STOPPED)
            } else {
                Err(error)
            }
        }
    }
}

// Holds the sessions of the peer, as many as said. Where its journal fails before the last was accepted, it is opened anew, and the
// other ones are those of that peer.
fn hold_all<R: Disk + Net + Threads + Wait + Clock + Eprint + AllocGlobal + Sync, E: Write>(
    rt: &R,
    source: &Source<'_>,
    mirrored: &Option<Mirrored>,
    listener: &R::Listener,
    how: &Serving,
    peer: Peer<DurableJournal<R::File>>,
    err: &mut E,
) -> Result<Peer<DurableJournal<R::File>>, JobError>
where
    R::File: Send,
    R::New: Send,
    R::Listener: Sync,
    R::Stream: Send,
    requires { OfLocked (R.saw rt.now) source.now.file.now
        (λ bytes. OpensUnder source.now.key bytes peer) }
    ensures served { IfOk result (λ p. OfLocked (R.saw rt.now) source.now.file.now
        (λ bytes. ServesJournal (R.saw rt.now) (note_of mirrored.now) source.now.key bytes how.now.workers p)) }
    ensures early { (cuts : List (Option ℕ)) × ReportsEach (R.saw rt.now) source.now.file.now cuts
        (E.contents err.old) (E.contents err.new) }
{
    let mut peer = peer;
    let mut left = how.sessions;
    for _ in 0..u64::MAX {
        let stamp = rt.stamp(source.file);
        let ending = Ending::new();
        let holding = Holding {
            listener,
            how,
            left,
            ending: &ending,
        };
        match hold_sessions(rt, &holding, mirrored, peer) {
            Ok(served) => return Ok(served),
            Err(error) => {
                left = left.saturating_sub(ending.connection_count(rt));
                if left == 0 {
                    return Err(error);
                }
                let changes = ending.change_count(rt);
                peer = open_anew(rt, source, &stamp, changes, error, err)?;
            }
        }
    }
    drop(peer);
    Err(STOPPED)
}

// Holds sessions as [`hold_all`] does, and prints how many they were.
fn hold_and_report<
    R: Disk + Net + Threads + Wait + Clock + Eprint + AllocGlobal + Sync,
    W: Write,
    E: Write,
>(
    rt: &R,
    source: &Source<'_>,
    mirrored: &Option<Mirrored>,
    listening: Listening<R::Listener, R::File>,
    how: &Serving,
    out: &mut W,
    err: &mut E,
) -> Result<Peer<DurableJournal<R::File>>, JobError>
where
    R::File: Send,
    R::New: Send,
    R::Listener: Sync,
    R::Stream: Send,
    requires { OfLocked (R.saw rt.now) source.now.file.now
        (λ bytes. OpensUnder source.now.key bytes listening.peer) }
    ensures served { IfOk result (λ p. OfLocked (R.saw rt.now) source.now.file.now
        (λ bytes. ServesJournal (R.saw rt.now) (note_of mirrored.now) source.now.key bytes how.now.workers p)) }
    ensures early { (cuts : List (Option ℕ)) × ReportsEach (R.saw rt.now) source.now.file.now cuts
        (E.contents err.old) (E.contents err.new) }
    ensures ok { OnOk result
        (Appends (W.contents out.old) (W.contents out.new) (line_of_sessions how.now.sessions)) }
    ensures err { IfErr result
        (λ _. AppendsPart (W.contents out.old) (W.contents out.new)
        (line_of_sessions how.now.sessions)) }
{
    let Listening {
        listener,
        port: _,
        peer,
    } = listening;
    match hold_all(rt, source, mirrored, &listener, how, peer, err) {
        Ok(peer) => match tell_sessions(rt.alloc(), how.sessions, out) {
            Ok(()) => Ok(peer),
            Err(error) => {
                drop(peer);
                Err(error)
            }
        },
        Err(error) => Err(error),
    }
}

// Prints the port, holds the sessions, and prints how many they were. The peer that the last closing gave back.
fn serve_on<
    R: Disk + Net + Threads + Wait + Clock + Eprint + AllocGlobal + Sync,
    W: Write,
    E: Write,
>(
    rt: &R,
    source: &Source<'_>,
    mirrored: &Option<Mirrored>,
    listening: Listening<R::Listener, R::File>,
    how: &Serving,
    out: &mut W,
    err: &mut E,
) -> Result<Peer<DurableJournal<R::File>>, JobError>
where
    R::File: Send,
    R::New: Send,
    R::Listener: Sync,
    R::Stream: Send,
    requires { OfLocked (R.saw rt.now) source.now.file.now
        (λ bytes. OpensUnder source.now.key bytes listening.peer) }
    ensures served { IfOk result (λ p. OfLocked (R.saw rt.now) source.now.file.now
        (λ bytes. ServesJournal (R.saw rt.now) (note_of mirrored.now) source.now.key bytes how.now.workers p)) }
    ensures early { (cuts : List (Option ℕ)) × ReportsEach (R.saw rt.now) source.now.file.now cuts
        (E.contents err.old) (E.contents err.new) }
    ensures ok { OnOk result
        (GrowsBy (IsServeOutput how.now.sessions) (W.contents out.old) (W.contents out.new)) }
    ensures err { IfErr result
        (λ _. GrowsPart (IsServeOutput how.now.sessions) (W.contents out.old) (W.contents out.new)) }
{
    match tell_port(rt.alloc(), listening.port, out) {
        Ok(()) => hold_and_report(rt, source, mirrored, listening, how, out, err),
        Err(error) => {
            drop(listening);
            Err(error)
        }
    }
}

// Serves the journal, as [`serve_file`] does.
fn serve_source<
    R: Disk + Net + Threads + Wait + Clock + Eprint + AllocGlobal + Sync,
    W: Write,
    E: Write,
>(
    rt: &R,
    source: &Source<'_>,
    mirrored: &Option<Mirrored>,
    addr: Address,
    how: &Serving,
    out: &mut W,
    err: &mut E,
    cut: &mut Option<u64>,
) -> Result<Peer<DurableJournal<R::File>>, JobError>
where
    R::File: Send,
    R::New: Send,
    R::Listener: Sync,
    R::Stream: Send,
    requires { cut.old ≡ None }
    ensures cuts { OnOk result (cut.new ≡ None) }
    ensures may_cut { OnErr result
        (MayCutFile (R.saw rt.now) source.now.file.now cut.new) }
    ensures early { (cuts : List (Option ℕ)) × ReportsEach (R.saw rt.now) source.now.file.now cuts
        (E.contents err.old) (E.contents err.new) }
    ensures served { IfOk result (λ p. OfLocked (R.saw rt.now) source.now.file.now
        (λ bytes. ServesJournal (R.saw rt.now) (note_of mirrored.now) source.now.key bytes how.now.workers p)) }
    ensures ok { OnOk result
        (GrowsBy (IsServeOutput how.now.sessions) (W.contents out.old) (W.contents out.new)) }
    ensures err { IfErr result (λ _. Keeps (W.contents out.old) (W.contents out.new)
        ⊎ GrowsPart (IsServeOutput how.now.sessions) (W.contents out.old) (W.contents out.new)) }
{
    match listen(rt, source, addr, cut) {
        Ok(listening) => {
            report(rt.alloc(), source.file, *cut, None, err);
            *cut = None;
            serve_on(rt, source, mirrored, listening, how, out, err)
        }
        Err(error) => Err(error),
    }
}

/// Serves the journal at a path, with as many sessions at once as there are workers, 1 to 64; of 64 one holds none, since a seat of
/// the peer is that of its watch. The port on which it listens is printed before the first session, and how many sessions there
/// were after the last. What was cut off the journal is said once it listens. Where it is verbose a line of each session is printed
/// by the runtime as it ends, and not to `err`.
///
/// Each second the journal is looked at. Where it was moved, removed, replaced or cut, it ends as `JournalFailed`. Where it fails
/// else, as on a full disk, the sessions end, and it is opened anew once that can be, under the same port; what was cut off it is
/// said then. One that fails after the last session was accepted ends it as `JournalFailed`. The peer that the last closing gave
/// back.
pub fn serve_file<
    R: Disk + Net + Threads + Wait + Clock + Eprint + AllocGlobal + Sync,
    W: Write,
    E: Write,
>(
    rt: &R,
    file: &str,
    addr: Address,
    how: &Serving,
    noted: &Option<Noted<'_>>,
    key: Option<[u8; 32]>,
    out: &mut W,
    err: &mut E,
    cut: &mut Option<u64>,
) -> Result<Peer<DurableJournal<R::File>>, JobError>
where
    R::File: Send,
    R::New: Send,
    R::Listener: Sync,
    R::Stream: Send,
    requires { cut.old ≡ None }
    ensures cuts { OnOk result (cut.new ≡ None) }
    ensures may_cut { OnErr result
        (MayCutFile (R.saw rt.now) file.now cut.new) }
    ensures early { (cuts : List (Option ℕ)) × ReportsEach (R.saw rt.now) file.now cuts
        (E.contents err.old) (E.contents err.new) }
    ensures served { IfOk result (λ p. OfLocked (R.saw rt.now) file.now
        (λ bytes. (note : Option (List ℕ)) × (is_some note ≡ is_some noted.now)
        × ServesJournal (R.saw rt.now) note key bytes how.now.workers p)) }
    ensures ok { OnOk result
        (GrowsBy (IsServeOutput how.now.sessions) (W.contents out.old) (W.contents out.new)) }
    ensures err { IfErr result (λ _. Keeps (W.contents out.old) (W.contents out.new)
        ⊎ GrowsPart (IsServeOutput how.now.sessions) (W.contents out.old) (W.contents out.new)) }
{
    match prepare(rt, file, noted, key, how.wait, err, cut) {
        Ok(mirrored) => {
            let source = Source {
                file,
                key,
                wait: how.wait,
            };
            serve_source(rt, &source, &mirrored, addr, how, out, err, cut)
        }
        Err(error) => Err(error),
    }
}

/// A connection with the server at the address.
pub(crate) fn reach_there<R: Net>(
    rt: &R,
    addr: Address,
    patience: Option<Duration>,
) -> Result<R::Stream, Unreached> {
    match addr {
        Address::Socket(addr) => reach(rt, addr, patience),
        Address::Host { name, port } => reach(rt, (name, port), patience),
    }
}

// Holds one session of the peer with the server at the address.
fn meet_there<R: Net + AllocGlobal, J: Journal>(
    rt: &R,
    addr: Address,
    patience: Option<Duration>,
    peer: &mut Peer<J>,
) -> Result<u64, JobError>
    ensures { IfOk result (λ n. AttemptsSessionAlone Client peer.old (Ok n) peer.new) }
{
    match reach_there(rt, addr, patience) {
        Ok(stream) => match hold_alone_on(rt.alloc(), stream, patience, Role::Client, peer) {
            Ok(applied) => Ok(applied),
            Err(error) => Err(JobError::from(error)),
        },
        Err(cause) => Err(JobError::Unreached(cause)),
    }
}

/// Holds one session with the server at the address, of the peer that is opened for it.
pub(crate) fn applied_by<R: Disk + Net + AllocGlobal>(
    rt: &R,
    file: &str,
    addr: Address,
    patience: Option<Duration>,
    key: Option<[u8; 32]>,
    wait: u64,
    cut: &mut Option<u64>,
) -> Result<Met<R::File>, JobError>
    requires { cut.old ≡ None }
    ensures cuts { OnOk result (CutsFile (R.saw rt.now) file.now cut.new) }
    ensures may_cut { OnErr result (MayCutFile (R.saw rt.now) file.now cut.new) }
    ensures met { IfOk result
        (λ met. HasMet (R.saw rt.now) file.now key Client met.applied met.peer) }
{
    let actor = draw_actor(rt, key)?;
    let mut peer = open_peer(rt, file, actor, wait, cut)?;
    match meet_there(rt, addr, patience, &mut peer) {
        Ok(applied) => Ok(Met { peer, applied }),
        Err(error) => {
            drop(peer);
            Err(error)
        }
    }
}

/// Holds one session with the server at the address, within the patience, and prints how many changes entered by it. The peer
/// is given back.
pub fn sync_file<R: Disk + Net + AllocGlobal, W: Write>(
    rt: &R,
    file: &str,
    addr: Address,
    patience: Option<Duration>,
    key: Option<[u8; 32]>,
    wait: u64,
    out: &mut W,
    cut: &mut Option<u64>,
) -> Result<Met<R::File>, JobError>
    requires { cut.old ≡ None }
    ensures cuts { OnOk result (CutsFile (R.saw rt.now) file.now cut.new) }
    ensures may_cut { OnErr result (MayCutFile (R.saw rt.now) file.now cut.new) }
    ensures met { IfOk result
        (λ met. HasMet (R.saw rt.now) file.now key Client met.applied met.peer) }
    ensures ok { IfOk result (λ met. Appends (W.contents out.old) (W.contents out.new)
        (line_of_applied met.applied)) }
    ensures err { IfErr result
        (λ e. RefusesPrinting IsSynced (W.contents out.old) e (W.contents out.new)) }
{
    let met = applied_by(rt, file, addr, patience, key, wait, cut)?;
    match tell_applied(rt.alloc(), met.applied, out) {
        Ok(()) => Ok(met),
        Err(error) => {
            drop(met);
            Err(error)
        }
    }
}
