//! The command `web`.

ghost use Rattle.std.specs.Prelude.{◌≡◌, ◌⊎◌, ◌++◌, ℕ, List, IfErr, IfOk, None, OnErr, OnOk, Option, is_some, length};
ghost use Rattle.std.specs.Io.KnownBytes.{Appends, Keeps};
ghost use Rattle.std.specs.String.{string_bytes};
ghost use Rattle.tp_disk.specs.DiskView.{OfLocked};
ghost use Rattle.tp_disk.specs.Opening.{MayCutFile, OpensUnder};
ghost use Rattle.tp_online.specs.Network.{IsPageShown, beside_line, page_line as line_of_page};
ghost use Rattle.tp_online.specs.Sessions.{ReportsEach};
ghost use Rattle.tp_online.specs.Showing.{AllTakePart, ShowsJournal, WasShown};
ghost use Rattle.tp_online.specs.Watching.{Watches, note_of};
ghost use Rattle.tp_report.specs.Telling.{GrowsBy, GrowsPart};
ghost use Rattle.tp_served.specs.Calls.{AreOf};
ghost use Rattle.tp_textpeer.specs.Output.{AppendsPart};

use crate::accepting::{KEPT, Teller, WEB_PLACES};
use crate::hosting::{Server, ServerAt, Stage, take_part};
use crate::listening::{Listening, STOPPED, Source, bind, listen, open_anew};
use crate::mirrored::{Mirrored, Noted, prepare};
use crate::seating::{Seated, end_watched, seat_watched};
use crate::serving::listening_line;
use crate::watching::{Closable, Door, Doors, Ending, watch};
use crossbeam_channel::Sender;
use std::alloc::Global;
use std::fs::OpenFile;
use std::io::{Read, Write};
use std::marker::Brand;
use std::net::{Net, OpenListener, OpenStream, SocketAddr};
use std::sync::Wait;
use std::sync::ledger::{Blank, Ledger};
use std::thread;
use std::thread::Threads;
use std::time::Clock;
use tp_command_line::{Address, Hosting};
use tp_commands::CommandError;
use tp_disk::{Disk, key_or_random};
use tp_journal::{DurableJournal, Journal};
use tp_net::Unreached;
use tp_patient::{Patient, Places};
use tp_peer::Peer;
use tp_report::{JobError, put, report};
use tp_served::{MAX_SEATS, Seat, Served};
use tp_web::{Secret, Site};

// What makes a page one of this run: drawn from the system, whatever the key of the random numbers is.
fn draw_secret<D: Disk>(rt: &D) -> Result<Secret, CommandError> {
    let drawn = key_or_random(rt, None)?;
    let mut key = [0; 16];
    key.copy_from_slice(&drawn[..16]);
    with_challenges(rt, key)
}

// The key of a page, with challenges that were never used.
fn with_challenges<D: Disk>(rt: &D, key: [u8; 16]) -> Result<Secret, CommandError> {
    let challenges = key_or_random(rt, None)?;
    Ok(Secret { key, challenges })
}

// The line of a page's address with its key.
fn address_line(alloc: Global, page: SocketAddr, key: &[u8; 16]) -> Result<String, CommandError>
    ensures ok { IfOk result (λ l. string_bytes l ≡ line_of_page page key.now) }
{
    let digits = hex::encode(alloc, key)?;
    Ok(format!(in alloc; "http://{page}/#{digits}\n")?)
}

// The line of a page's address with its key, and that of the port of sessions beside it, where there is one.
fn page_lines(
    alloc: Global,
    page: SocketAddr,
    key: &[u8; 16],
    port: Option<u16>,
) -> Result<String, CommandError>
    ensures ok { IfOk result (λ l. string_bytes l ≡ line_of_page page key.now ++ beside_line port) }
{
    let address = address_line(alloc, page, key)?;
    match port {
        Some(port) => {
            let listening = listening_line(alloc, port)?;
            Ok(format!(in alloc; "{address}{listening}")?)
        }
        None => Ok(address),
    }
}

// Prints the address of a page, and the port.
fn tell_page<W: Write>(
    alloc: Global,
    page: SocketAddr,
    key: &[u8; 16],
    port: Option<u16>,
    out: &mut W,
) -> Result<(), JobError>
    ensures ok { OnOk result (Appends (W.contents out.old) (W.contents out.new)
        (line_of_page page key.now ++ beside_line port)) }
    ensures err { IfErr result (λ _. AppendsPart (W.contents out.old) (W.contents out.new)
        (line_of_page page key.now ++ beside_line port)) }
{
    put(out, page_lines(alloc, page, key, port))
}

// What a page's program listens with, and where its page is.
#[derive(Drop)]
struct Bound<L: Drop> {
    at: SocketAddr,
    page: L,
    sessions: Option<L>,
}

// What accepts sessions beside a page, where that is asked for, and its port.
fn bound_beside<R: Net>(
    rt: &R,
    serve: Option<Address>,
) -> Result<(Option<R::Listener>, Option<u16>), JobError>
    ensures { IfOk result (λ b. (is_some b.0 ≡ is_some serve.entry) × (is_some b.1 ≡ is_some serve.entry)) }
{
    match serve {
        Some(addr) => match bind(rt, addr) {
            Ok((listener, port)) => Ok((Some(listener), Some(port))),
            Err(error) => Err(JobError::Unreached(Unreached::by(&error))),
        },
        None => Ok((None, None)),
    }
}

// The server that is followed, where one is.
fn server_of<'a, R>(rt: &'a R, hosting: &Hosting<'a>) -> Option<ServerAt<'a, R>>
    ensures { is_some result ≡ is_some hosting.now.follow }
{
    match hosting.follow {
        Some(addr) => Some(ServerAt { rt, addr }),
        None => None,
    }
}

// What accepts beside a page, where there is one, on the places that the page leaves.
fn patient_beside<'a, K: Ledger, R: Net + Wait + Clock + Eprint + AllocGlobal>(
    rt: &'a R,
    sessions: &'a Option<R::Listener>,
    places: &'a Places<K>,
) -> Option<Patient<'a, R::Listener, K, R, Teller>>
    ensures { is_some result ≡ is_some sessions.now }
{
    match sessions {
        Some(listener) => Some(Patient::new(rt, listener, places, KEPT, &Teller)),
        None => None,
    }
}

// The listener beside a page, where there is one, as one that ends with the serving.
fn closable_beside<'a, L: OpenListener + Drop, R>(
    rt: &'a R,
    sessions: Option<L>,
    ending: &'a Ending,
) -> Option<Closable<'a, L, R>>
    ensures { is_some result ≡ is_some sessions }
{
    match sessions {
        Some(listener) => Some(Closable::new(rt, listener, Door::Beside, ending)),
        None => None,
    }
}

// Where the listeners are, as far as the system says.
fn doors_of<L: OpenListener + Drop>(bound: &Bound<L>) -> Doors {
    let beside = match &bound.sessions {
        Some(listener) => listener.local_addr().ok(),
        None => None,
    };
    Doors {
        main: bound.page.local_addr().ok(),
        beside,
    }
}

// Shows the page, holds sessions and follows a server as [`take_part`] does; then the sender is gone.
fn show_until<
    R: Threads + Wait + Clock + Eprint + AllocGlobal + Sync,
    S: Read + Write + OpenStream + Send + Drop,
    L: OpenListener<Stream = S> + Sync + Drop,
    T: Read + Write + OpenStream + Drop,
    V: Server<Stream = T>,
    J: Journal + Send,
>(
    rt: &R,
    stage: &Stage<'_, L>,
    server: &Option<V>,
    hosting: &Hosting<'_>,
    served: &Served<J>,
    seats: Vec<Seat>,
    key: [u8; 32],
    serving: Sender<()>,
) -> Result<Vec<Seat>, JobError>
    requires of { AreOf served.now.served seats.items }
    requires beside { is_some stage.now.sessions ≡ is_some hosting.now.serve }
    requires there { is_some server.now ≡ is_some hosting.now.follow }
    ensures went { IfOk result (λ back. AllTakePart hosting.now served.now.opened.id seats.items
        back.items) }
    ensures of { IfOk result (λ back. AreOf served.now.served back.items
        × (length back.items ≡ length seats.items)) }
{
    let shown = take_part(rt, rt.alloc(), stage, server, hosting, served, seats, key);
    drop(serving);
    shown
}

// What accepts a page's connections, and sessions beside it, where its windows come from, and where it listens.
#[derive(Drop)]
struct Listeners<'a, L: Drop> {
    page: L,
    sessions: Option<L>,
    site: &'a Site,
    doors: Doors,
}

// What was bound, as listeners on the places.
fn listeners_on<'a, K: Ledger, R: Net + Wait + Clock + Eprint + AllocGlobal>(
    rt: &'a R,
    bound: &'a Bound<R::Listener>,
    site: &'a Site,
    places: &'a Places<K>,
) -> Listeners<'a, Patient<'a, R::Listener, K, R, Teller>>
    ensures { is_some result.sessions ≡ is_some bound.now.sessions }
{
    Listeners {
        page: Patient::new(rt, &bound.page, places, 0, &Teller),
        sessions: patient_beside(rt, &bound.sessions, places),
        site,
        doors: doors_of(bound),
    }
}

// Shows the page, and watches the peer meanwhile: the listeners end with the serving.
fn show_watched<
    'x,
    R: Disk + Net + Threads + Wait + Clock + Eprint + AllocGlobal + Sync,
    S: Read + Write + OpenStream + Send + Drop,
    L: OpenListener<Stream = S> + Sync + Drop,
    J: Journal + Send,
>(
    rt: &'x R,
    listeners: Listeners<'_, L>,
    hosting: &Hosting<'x>,
    ending: &'x Ending,
    mirrored: &Option<Mirrored>,
    served: &Served<J>,
    seats: Vec<Seat>,
    seat: Seat,
    key: [u8; 32],
) -> Result<(Vec<Seat>, Seat), JobError>
where
    R::File: Send,
    R::New: Send,
    R::Listener: Sync,
    R::Stream: Send,
    requires beside { is_some listeners.sessions ≡ is_some hosting.now.serve }
    requires of { AreOf served.now.served seats.items }
    requires watch { seat.served ≡ served.now.served }
    ensures went { IfOk result (λ back. AllTakePart hosting.now served.now.opened.id seats.items
        back.0.items) }
    ensures of { IfOk result (λ back. AreOf served.now.served back.0.items
        × (length back.0.items ≡ length seats.items)) }
    ensures watches { IfOk result (λ back. Watches (R.saw rt.now) (note_of mirrored.now) seat back.1) }
{
    let Listeners {
        page,
        sessions,
        site,
        doors,
    } = listeners;
    let closable = Stage {
        page: Closable::new(rt, page, Door::Main, ending),
        site,
        sessions: closable_beside(rt, sessions, ending),
    };
    let stage = &closable;
    let followed = server_of(rt, hosting);
    let server = &followed;
    let (serving, ended) = crossbeam_channel::unbounded(rt.alloc())?;
    // (where no thread can be made the first is called last, when the serving has ended)
    let (watched, shown) = thread::join(
        rt,
        move ||
            requires { seat.served ≡ served.now.served }
            ensures { Watches (R.saw rt.entry.now) (note_of mirrored.entry.now) seat result }
        { watch(rt, ending, doors, ended, mirrored, served, seat) },
        move ||
            requires of { AreOf served.now.served seats.items }
            requires beside { is_some stage.now.sessions ≡ is_some hosting.now.serve }
            requires there { is_some server.now ≡ is_some hosting.now.follow }
            ensures went { IfOk result (λ back. AllTakePart hosting.entry.now
                served.entry.now.opened.id seats.items back.items) }
            ensures of { IfOk result (λ back. AreOf served.entry.now.served back.items
                × (length back.items ≡ length seats.items)) }
        { show_until(rt, stage, server, hosting, served, seats, key, serving) },
    );
    match shown {
        Ok(back) => Ok((back, watched)),
        Err(error) => Err(error),
    }
}

// Shows the page as [`show_watched`] does, on places that are counted by the ledger.
fn show_counted<
    K: Ledger + Send + Sync,
    R: Disk + Net + Threads + Wait + Clock + Eprint + AllocGlobal + Sync,
    J: Journal + Send,
>(
    rt: &R,
    bound: &Bound<R::Listener>,
    site: &Site,
    hosting: &Hosting<'_>,
    ending: &Ending,
    mirrored: &Option<Mirrored>,
    served: &Served<J>,
    seats: Vec<Seat>,
    seat: Seat,
    key: [u8; 32],
    blank: Blank,
) -> Result<(Vec<Seat>, Seat), JobError>
where
    R::File: Send,
    R::New: Send,
    R::Listener: Sync,
    R::Stream: Send,
    requires beside { is_some bound.now.sessions ≡ is_some hosting.now.serve }
    requires of { AreOf served.now.served seats.items }
    requires watch { seat.served ≡ served.now.served }
    requires name { blank.name ≡ K.name }
    requires parts { blank.parts ≡ K.parts }
    requires places { blank.parts ≡ WEB_PLACES }
    ensures went { IfOk result (λ back. AllTakePart hosting.now served.now.opened.id seats.items
        back.0.items) }
    ensures of { IfOk result (λ back. AreOf served.now.served back.0.items
        × (length back.0.items ≡ length seats.items)) }
    ensures watches { IfOk result (λ back. Watches (R.saw rt.now) (note_of mirrored.now) seat back.1) }
{
    let places = Places::<K>::new(blank, WEB_PLACES);
    let listeners = listeners_on(rt, bound, site, &places);
    show_watched(
        rt, listeners, hosting, ending, mirrored, served, seats, seat, key,
    )
}

// Shows the peer, on as many seats as there may be, and ends that with those that came back: the peer that the closing gives. One
// whose journal failed meanwhile is refused.
fn show_peer<
    R: Disk + Net + Threads + Wait + Clock + Eprint + AllocGlobal + Sync,
    F: Write + OpenFile + Send + Drop,
>(
    rt: &R,
    bound: &Bound<R::Listener>,
    hosting: &Hosting<'_>,
    secret: Secret,
    key: [u8; 32],
    ending: &Ending,
    mirrored: &Option<Mirrored>,
    peer: Peer<DurableJournal<F>>,
) -> Result<Peer<DurableJournal<F>>, JobError>
where
    R::File: Send,
    R::New: Send,
    R::Listener: Sync,
    R::Stream: Send,
    requires { is_some bound.now.sessions ≡ is_some hosting.now.serve }
    ensures { IfOk result (λ p. WasShown (R.saw rt.now) (note_of mirrored.now) hosting.now peer p) }
{
    let Ok(site) = Site::at(rt.alloc(), bound.at, secret) else {
        drop(peer);
        return Err(JobError::Command(CommandError::OutOfMemory));
    };
    let Seated {
        served,
        seats,
        watch,
    } = seat_watched(rt.alloc(), peer, MAX_SEATS)?;
    match show_counted::<Brand, R, DurableJournal<F>>(
        rt,
        bound,
        &site,
        hosting,
        ending,
        mirrored,
        &served,
        seats,
        watch,
        key,
        Blank::new(WEB_PLACES),
    ) {
        Ok((back, watched)) => match end_watched(served, back, watched) {
            Ok(peer) => Ok(peer),
            Err(error) => Err(JobError::Command(error)),
        },
        Err(error) => {
            drop(served);
            if ending.is_due(rt) {
                Err(STOPPED)
            } else {
                Err(error)
            }
        }
    }
}

// Shows the peer. Where its journal fails, it is opened anew, and that peer is shown: under the same key, with other challenges, and
// the actors of its windows are drawn from another key.
fn show_all<R: Disk + Net + Threads + Wait + Clock + Eprint + AllocGlobal + Sync, E: Write>(
    rt: &R,
    source: &Source<'_>,
    mirrored: &Option<Mirrored>,
    bound: &Bound<R::Listener>,
    hosting: &Hosting<'_>,
    secret: Secret,
    key: [u8; 32],
    peer: Peer<DurableJournal<R::File>>,
    err: &mut E,
) -> Result<Peer<DurableJournal<R::File>>, JobError>
where
    R::File: Send,
    R::New: Send,
    R::Listener: Sync,
    R::Stream: Send,
    requires beside { is_some bound.now.sessions ≡ is_some hosting.now.serve }
    requires opens { OfLocked (R.saw rt.now) source.now.file.now
        (λ bytes. OpensUnder source.now.key bytes peer) }
    ensures shown { IfOk result (λ p. OfLocked (R.saw rt.now) source.now.file.now
        (λ bytes. ShowsJournal (R.saw rt.now) (note_of mirrored.now) hosting.now source.now.key bytes p)) }
    ensures early { (cuts : List (Option ℕ)) × ReportsEach (R.saw rt.now) source.now.file.now cuts
        (E.contents err.old) (E.contents err.new) }
{
    let mut peer = peer;
    let mut secret = secret;
    let mut key = key;
    for _ in 0..u64::MAX {
        let stamp = rt.stamp(source.file);
        let ending = Ending::new();
        match show_peer(rt, bound, hosting, secret, key, &ending, mirrored, peer) {
            Ok(shown) => return Ok(shown),
            Err(error) => {
                secret = with_challenges(rt, secret.key)?;
                key = key_or_random(rt, None)?;
                let changes = ending.change_count(rt);
                peer = open_anew(rt, source, &stamp, changes, error, err)?;
            }
        }
    }
    drop(peer);
    Err(STOPPED)
}

// Prints the page's address, and shows the peer there.
fn show_at<
    R: Disk + Net + Threads + Wait + Clock + Eprint + AllocGlobal + Sync,
    W: Write,
    E: Write,
>(
    rt: &R,
    source: &Source<'_>,
    mirrored: &Option<Mirrored>,
    listening: Listening<R::Listener, R::File>,
    hosting: &Hosting<'_>,
    secret: Secret,
    key: [u8; 32],
    out: &mut W,
    err: &mut E,
) -> Result<Peer<DurableJournal<R::File>>, JobError>
where
    R::File: Send,
    R::New: Send,
    R::Listener: Sync,
    R::Stream: Send,
    requires { OfLocked (R.saw rt.now) source.now.file.now
        (λ bytes. OpensUnder source.now.key bytes listening.peer) }
    ensures shown { IfOk result (λ p. OfLocked (R.saw rt.now) source.now.file.now
        (λ bytes. ShowsJournal (R.saw rt.now) (note_of mirrored.now) hosting.now source.now.key bytes p)) }
    ensures early { (cuts : List (Option ℕ)) × ReportsEach (R.saw rt.now) source.now.file.now cuts
        (E.contents err.old) (E.contents err.new) }
    ensures ok { OnOk result
        (GrowsBy (IsPageShown hosting.now) (W.contents out.old) (W.contents out.new)) }
    ensures err { IfErr result (λ _. Keeps (W.contents out.old) (W.contents out.new)
        ⊎ GrowsPart (IsPageShown hosting.now) (W.contents out.old) (W.contents out.new)) }
{
    let Listening {
        listener,
        port,
        peer,
    } = listening;
    let page = SocketAddr::new(hosting.page.ip(), port);
    match bound_beside(rt, hosting.serve) {
        Ok((sessions, beside)) => {
            let bound = Bound {
                at: page,
                page: listener,
                sessions,
            };
            match tell_page(rt.alloc(), page, &secret.key, beside, out) {
                Ok(()) => show_all(
                    rt, source, mirrored, &bound, hosting, secret, key, peer, err,
                ),
                Err(error) => {
                    drop(peer);
                    Err(error)
                }
            }
        }
        Err(error) => {
            drop(peer);
            Err(error)
        }
    }
}

// Shows the journal, as [`web_file`] does.
fn show_source<
    R: Disk + Net + Threads + Wait + Clock + Eprint + AllocGlobal + Sync,
    W: Write,
    E: Write,
>(
    rt: &R,
    source: &Source<'_>,
    mirrored: &Option<Mirrored>,
    hosting: &Hosting<'_>,
    out: &mut W,
    err: &mut E,
    cut: &mut Option<u64>,
) -> Result<Peer<DurableJournal<R::File>>, JobError>
where
    R::File: Send,
    R::New: Send,
    R::Listener: Sync,
    R::Stream: Send,
    requires { cut.old ≡ None }
    ensures cuts { OnOk result (cut.new ≡ None) }
    ensures may_cut { OnErr result (MayCutFile (R.saw rt.now) source.now.file.now cut.new) }
    ensures early { (cuts : List (Option ℕ)) × ReportsEach (R.saw rt.now) source.now.file.now cuts
        (E.contents err.old) (E.contents err.new) }
    ensures shown { IfOk result (λ p. OfLocked (R.saw rt.now) source.now.file.now
        (λ bytes. ShowsJournal (R.saw rt.now) (note_of mirrored.now) hosting.now source.now.key bytes p)) }
    ensures ok { OnOk result
        (GrowsBy (IsPageShown hosting.now) (W.contents out.old) (W.contents out.new)) }
    ensures err { IfErr result (λ _. Keeps (W.contents out.old) (W.contents out.new)
        ⊎ GrowsPart (IsPageShown hosting.now) (W.contents out.old) (W.contents out.new)) }
{
    let windows = key_or_random(rt, source.key)?;
    let secret = draw_secret(rt)?;
    match listen(rt, source, Address::Socket(hosting.page), cut) {
        Ok(listening) => {
            report(rt.alloc(), source.file, *cut, None, err);
            *cut = None;
            show_at(
                rt, source, mirrored, listening, hosting, secret, windows, out, err,
            )
        }
        Err(error) => Err(error),
    }
}

/// Shows the journal at a path as a page, which is of this machine: its address is printed once it listens, with the key that its
/// windows have to know, which is drawn from the system, and the port of the sessions that are served beside it, where these are
/// asked for. It is served until no connection can be accepted any more, with up to 63 windows at once, or 47 beside sessions and a
/// server that is followed. What was cut off the journal is said once it listens; how sessions with the server end that is followed
/// is printed by the runtime, and not to `err`.
///
/// Each second the journal is looked at. Where it was moved, removed, replaced or cut, it ends as `JournalFailed`. Where it fails
/// else, as on a full disk, the windows and the sessions end, and it is opened anew once that can be, under the same address and
/// the same key of the page; what was cut off it is said then. The peer that the last closing gave back.
pub fn web_file<
    R: Disk + Net + Threads + Wait + Clock + Eprint + AllocGlobal + Sync,
    W: Write,
    E: Write,
>(
    rt: &R,
    file: &str,
    hosting: Hosting<'_>,
    noted: &Option<Noted<'_>>,
    key: Option<[u8; 32]>,
    wait: u64,
    out: &mut W,
    err: &mut E,
    cut: &mut Option<u64>,
) -> Result<Peer<DurableJournal<R::File>>, JobError>
where
    R::File: Send,
    R::New: Send,
    R::Listener: Sync,
    R::Stream: Send,
    requires { cut.old ≡ None }
    ensures cuts { OnOk result (cut.new ≡ None) }
    ensures may_cut { OnErr result (MayCutFile (R.saw rt.now) file.now cut.new) }
    ensures early { (cuts : List (Option ℕ)) × ReportsEach (R.saw rt.now) file.now cuts
        (E.contents err.old) (E.contents err.new) }
    ensures shown { IfOk result (λ p. OfLocked (R.saw rt.now) file.now
        (λ bytes. (note : Option (List ℕ)) × (is_some note ≡ is_some noted.now)
        × ShowsJournal (R.saw rt.now) note hosting.entry key bytes p)) }
    ensures ok { OnOk result
        (GrowsBy (IsPageShown hosting.entry) (W.contents out.old) (W.contents out.new)) }
    ensures err { IfErr result (λ _. Keeps (W.contents out.old) (W.contents out.new)
        ⊎ GrowsPart (IsPageShown hosting.entry) (W.contents out.old) (W.contents out.new)) }
{
    match prepare(rt, file, noted, key, wait, err, cut) {
        Ok(mirrored) => {
            let source = Source { file, key, wait };
            show_source(rt, &source, &mirrored, &hosting, out, err, cut)
        }
        Err(error) => Err(error),
    }
}
