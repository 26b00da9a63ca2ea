//! What a server and a client begin with: a peer on a journal, and an address.

ghost use Rattle.std.specs.Prelude.{◌≡◌, ℕ, List, IfOk, None, OnErr, OnOk, Option};
ghost use Rattle.tp_disk.specs.Opening.{CutsFile, MayCutFile, OpensJournal, OpensUnder};
ghost use Rattle.tp_disk.specs.DiskView.{OfLocked};
ghost use Rattle.tp_online.specs.Refusals.{tells_stop};
ghost use Rattle.tp_online.specs.Sessions.{ReportsEach};

use std::fs::OpenFile;
use std::io::Write;
use std::net::{Net, OpenListener, TcpListener};
use std::time::{Clock, Duration};
use std::{io, thread};
use tp_command_line::Address;
use tp_commands::{CommandError, reopen};
use tp_disk::{Disk, Opened, Stamp, draw_actor};
use tp_journal::DurableJournal;
use tp_net::Unreached;
use tp_opid::Actor;
use tp_peer::{Peer, PeerError};
use tp_report::{JobError, report};

// A journal that can't be opened is tried again after this many seconds.
const EVERY: u64 = 1;

/// A journal that is served, and how it is opened.
#[derive(Clone, Copy)]
pub(crate) struct Source<'a> {
    /// Its path.
    pub file: &'a str,
    /// The key under which the peer's actor is drawn, or none.
    pub key: Option<[u8; 32]>,
    /// For how many seconds its lock is waited for.
    pub wait: u64,
}

/// A server that listens, and has accepted nothing yet.
#[derive(Drop)]
pub(crate) struct Listening<L: Drop, F: Write + OpenFile + Drop> {
    /// What accepts.
    pub listener: L,
    /// The port.
    pub port: u16,
    /// The peer that is served.
    pub peer: Peer<DurableJournal<F>>,
}

/// The peer on the journal in the file, whose lock is waited for that many seconds, and from which offset on what was cut off it is
/// kept.
pub(crate) fn open_peer<R: Disk + AllocGlobal>(
    rt: &R,
    file: &str,
    actor: Actor,
    wait: u64,
    cut: &mut Option<u64>,
) -> Result<Peer<DurableJournal<R::File>>, CommandError>
    requires { cut.old ≡ None }
    ensures opens { IfOk result (λ p. OfLocked (R.saw rt.now) file.now
        (λ bytes. OpensJournal bytes actor p)) }
    ensures cuts { OnOk result (CutsFile (R.saw rt.now) file.now cut.new) }
    ensures may_cut { OnErr result
        (MayCutFile (R.saw rt.now) file.now cut.new) }
{
    let Opened {
        journal,
        recovered,
        cut: kept,
    } = rt.journal(file, wait)?;
    *cut = kept;
    reopen(rt.alloc(), (journal, Ok(recovered)), actor)
}

/// Listens at the address, of a name at the first of its addresses where that can be; also answers the port.
pub(crate) fn bind<R: Net>(rt: &R, addr: Address) -> io::Result<(R::Listener, u16)> {
    let listener = match addr {
        Address::Socket(addr) => TcpListener::bind(rt, addr)?,
        Address::Host { name, port } => TcpListener::bind(rt, (name, port))?,
    };
    let local = listener.local_addr()?;
    Ok((listener, local.port()))
}

/// The peer on the journal, under the actor that is drawn under its key; from which offset on what was cut off is kept.
pub(crate) fn open_source<R: Disk + AllocGlobal>(
    rt: &R,
    source: &Source<'_>,
    cut: &mut Option<u64>,
) -> Result<Peer<DurableJournal<R::File>>, CommandError>
    requires { cut.old ≡ None }
    ensures opens { IfOk result (λ p. OfLocked (R.saw rt.now) source.now.file.now
        (λ bytes. OpensUnder source.now.key bytes p)) }
    ensures cuts { OnOk result (CutsFile (R.saw rt.now) source.now.file.now cut.new) }
    ensures may_cut { OnErr result
        (MayCutFile (R.saw rt.now) source.now.file.now cut.new) }
{
    let actor = draw_actor(rt, source.key)?;
    open_peer(rt, source.file, actor, source.wait, cut)
}

/// Opens the journal, and then listens at the address.
pub(crate) fn listen<R: Disk + Net + AllocGlobal>(
    rt: &R,
    source: &Source<'_>,
    addr: Address,
    cut: &mut Option<u64>,
) -> Result<Listening<R::Listener, R::File>, JobError>
    requires { cut.old ≡ None }
    ensures cuts { OnOk result (CutsFile (R.saw rt.now) source.now.file.now cut.new) }
    ensures may_cut { OnErr result
        (MayCutFile (R.saw rt.now) source.now.file.now cut.new) }
    ensures opens { IfOk result (λ l. OfLocked (R.saw rt.now) source.now.file.now
        (λ bytes. OpensUnder source.now.key bytes l.peer)) }
{
    let peer = open_source(rt, source, cut)?;
    match bind(rt, addr) {
        Ok((listener, port)) => Ok(Listening {
            listener,
            port,
            peer,
        }),
        Err(error) => {
            drop(peer);
            Err(JobError::Unreached(Unreached::by(&error)))
        }
    }
}

/// The refusal of a serving whose peer has stopped.
pub(crate) const STOPPED: JobError = JobError::Command(CommandError::Peer(
    PeerError::JournalFailed,
));

// Whether a serving ended since its peer stopped.
fn is_stop(error: &JobError) -> bool
    ensures { result ≡ tells_stop error.now }
{
    matches!(
        error,
        JobError::Command(CommandError::Peer(PeerError::JournalFailed))
    )
}

// Whether the journal can be read, and has that many changes.
fn has_changes<R: Disk>(rt: &R, file: &str, changes: usize) -> bool {
    let Ok(read) = rt.recover(file) else {
        return false;
    };
    match read.finish() {
        Ok(recovered) => {
            let count = recovered.document.changes().len();
            drop(recovered);
            count >= changes
        }
        Err(_) => false,
    }
}

// Whether the file is still the one that had the stamp, no shorter, and has as many changes as the peer that stopped.
fn is_kept<R: Disk>(rt: &R, file: &str, then: &Option<Stamp>, changes: Option<usize>) -> bool {
    match (rt.stamp(file), then, changes) {
        (Some(now), Some(then), Some(changes)) => {
            now.is_kept_of(then) && has_changes(rt, file, changes)
        }
        _ => false,
    }
}

// The peer on the journal, as [`open_source`] gives it. What was cut off is said.
fn open_and_report<R: Disk + AllocGlobal, E: Write>(
    rt: &R,
    source: &Source<'_>,
    err: &mut E,
) -> Result<Peer<DurableJournal<R::File>>, CommandError>
    ensures opens { IfOk result (λ p. OfLocked (R.saw rt.now) source.now.file.now
        (λ bytes. OpensUnder source.now.key bytes p)) }
    ensures early { (cuts : List (Option ℕ)) × ReportsEach (R.saw rt.now) source.now.file.now cuts
        (E.contents err.old) (E.contents err.new) }
{
    let mut cut = None;
    let opened = open_source(rt, source, &mut cut);
    report(rt.alloc(), source.file, cut, None, err);
    opened
}

/// The peer on a journal whose peer has stopped, as the error says, opened anew: the disk may have been full. It is tried each
/// second, for as long as the file is the one that had the stamp, and has as many changes as the peer had. Where the error says
/// something else, it is given back, and so it is where the file was moved, removed, replaced or cut. What was cut off the journal
/// is said each time.
pub(crate) fn open_anew<R: Disk + Clock + AllocGlobal, E: Write>(
    rt: &R,
    source: &Source<'_>,
    stamp: &Option<Stamp>,
    changes: Option<usize>,
    error: JobError,
    err: &mut E,
) -> Result<Peer<DurableJournal<R::File>>, JobError>
    ensures opens { IfOk result (λ p. OfLocked (R.saw rt.now) source.now.file.now
        (λ bytes. OpensUnder source.now.key bytes p)) }
    ensures early { (cuts : List (Option ℕ)) × ReportsEach (R.saw rt.now) source.now.file.now cuts
        (E.contents err.old) (E.contents err.new) }
{
    if !is_stop(&error) {
        return Err(error);
    }
    for _ in 0..u64::MAX {
        if !is_kept(rt, source.file, stamp, changes) {
            return Err(error);
        }
        if let Ok(peer) = open_and_report(rt, source, err) {
            return Ok(peer);
        }
        thread::sleep(rt, Duration::from_secs(EVERY));
    }
    Err(error)
}
