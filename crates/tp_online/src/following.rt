//! The command `sync --follow`.

ghost use Rattle.std.specs.Prelude.{◌≡◌, ◌≤◌, ℕ, List, IfErr, IfOk, IfSome, None, OnErr, OnOk, Option};
ghost use Rattle.std.specs.Io.KnownBytes.{Appends};
ghost use Rattle.tp_textpeer.specs.Output.{AppendsPart};
ghost use Rattle.tp_disk.specs.Opening.{CutsFile, MayCutFile};
ghost use Rattle.tp_online.specs.Network.{met_line};
ghost use Rattle.tp_online.specs.Refusals.{may_pass};
ghost use Rattle.tp_report.specs.Telling.{GrowsBy, GrowsPart};
ghost use Rattle.tp_online.specs.Sessions.{HasMet, IsIdle, ReportsEach, IsFollowed, MayMeet};
ghost use Rattle.tp_session.specs.declared.session.Role.TheVariants.{Client};

use crate::idling::{Between, idle_peer, meet_idle};
use crate::listening::open_peer;
use crate::serving::{Met, applied_by, reach_there};
use std::alloc::Global;
use std::io::Write;
use std::net::Net;
use std::thread;
use std::time::{Clock, Duration};
use tp_command_line::Address;
use tp_commands::CommandError;
use tp_disk::{Disk, draw_actor, left_stamp};
use tp_net::hold_alone_on;
use tp_report::{JobError, applied_text, put, report};
use tp_session::Role;

/// Whom one follows, and how.
#[derive(Drop)]
pub struct Following<'a> {
    /// Where the server is.
    pub addr: Address<'a>,
    /// How long it waits after a session, and after one that couldn't be.
    pub every: Duration,
    /// How long the server may say nothing.
    pub patience: Option<Duration>,
    /// For how many seconds the lock of the journal is waited for.
    pub wait: u64,
}

// Whether a session may be held later that was refused now: the server is away, or another has the journal.
fn is_for_now(error: &JobError) -> bool
    ensures { result ≡ may_pass error.now }
{
    matches!(
        error,
        JobError::Command(CommandError::Io)
            | JobError::Command(CommandError::Busy)
            | JobError::Unreached(_)
    )
}

// Prints how many changes entered, where any did.
fn tell_met<W: Write>(alloc: Global, applied: u64, out: &mut W) -> Result<(), JobError>
    ensures ok { OnOk result
        (Appends (W.contents out.old) (W.contents out.new) (met_line applied)) }
    ensures err { IfErr result
        (λ _. AppendsPart (W.contents out.old) (W.contents out.new) (met_line applied)) }
{
    match applied {
        0 => Ok(()),
        applied => put(out, applied_text(alloc, Some(applied))),
    }
}

// Holds one session over the stream, which leads to the server, of the peer that is opened for it.
fn applied_over<R: Disk + Net + AllocGlobal>(
    rt: &R,
    file: &str,
    stream: R::Stream,
    patience: Option<Duration>,
    key: Option<[u8; 32]>,
    wait: u64,
    cut: &mut Option<u64>,
) -> Result<Met<R::File>, JobError>
    requires { cut.old ≡ None }
    ensures cuts { OnOk result (CutsFile (R.saw rt.now) file.now cut.new) }
    ensures may_cut { OnErr result (MayCutFile (R.saw rt.now) file.now cut.new) }
    ensures met { IfOk result
        (λ met. HasMet (R.saw rt.now) file.now key Client met.applied met.peer) }
{
    let actor = draw_actor(rt, key)?;
    let mut peer = open_peer(rt, file, actor, wait, cut)?;
    match hold_alone_on(rt.alloc(), stream, patience, Role::Client, &mut peer) {
        Ok(applied) => Ok(Met { peer, applied }),
        Err(error) => {
            drop(peer);
            Err(JobError::from(error))
        }
    }
}

// Opens the journal, and holds one session with the server. The first one is refused for the journal before the server is asked;
// a later one is opened once there is a connection, and not at all where there is none.
fn open_and_meet<R: Disk + Net + AllocGlobal>(
    rt: &R,
    file: &str,
    how: &Following,
    may_wait: bool,
    key: Option<[u8; 32]>,
    cut: &mut Option<u64>,
) -> Result<Met<R::File>, JobError>
    requires { cut.old ≡ None }
    ensures cuts { OnOk result (CutsFile (R.saw rt.now) file.now cut.new) }
    ensures may_cut { OnErr result (MayCutFile (R.saw rt.now) file.now cut.new) }
    ensures met { IfOk result
        (λ met. HasMet (R.saw rt.now) file.now key Client met.applied met.peer) }
{
    if !may_wait {
        return applied_by(rt, file, how.addr, how.patience, key, how.wait, cut);
    }
    match reach_there(rt, how.addr, how.patience) {
        Ok(stream) => applied_over(rt, file, stream, how.patience, key, how.wait, cut),
        Err(cause) => Err(JobError::Unreached(cause)),
    }
}

// Holds one session of the peer that is opened for it, as [`meet`] does. How the journal was left is known then.
#[tactic(auto, using(crate::proofs::FollowLaws::met_opened))]
fn meet_anew<'a, R: Disk + Net + AllocGlobal>(
    rt: &'a R,
    file: &'a str,
    how: &Following,
    may_wait: bool,
    key: Option<[u8; 32]>,
    cut: &mut Option<u64>,
    between: &mut Between<'a, R>,
) -> Result<Option<u64>, JobError>
    requires cut { cut.old ≡ None }
    requires none { between.old.peer ≡ None }
    ensures cuts { MayCutFile (R.saw rt.now) file.now cut.new }
    ensures met { IfOk result (MayMeet (R.saw rt.now) file.now key) }
    ensures none { between.new.peer ≡ None }
{
    match open_and_meet(rt, file, how, may_wait, key, cut) {
        Ok(met) => {
            let Met { peer, applied } = met;
            between.stamp = left_stamp(rt, file, peer.stop());
            Ok(Some(applied))
        }
        Err(error) => {
            between.stamp = None;
            if may_wait && is_for_now(&error) {
                return Ok(None);
            }
            Err(error)
        }
    }
}

// How many changes entered by a session that was held, or `None` where it may be held later. The journal is opened where its file
// isn't as it was left.
fn meet<'a, R: Disk + Net + AllocGlobal>(
    rt: &'a R,
    file: &'a str,
    how: &Following,
    may_wait: bool,
    key: Option<[u8; 32]>,
    cut: &mut Option<u64>,
    between: &mut Between<'a, R>,
) -> Result<Option<u64>, JobError>
    requires cut { cut.old ≡ None }
    requires idle { IfSome between.old.peer (IsIdle (R.saw rt.now) file.now key) }
    ensures idle { IfSome between.new.peer (IsIdle (R.saw rt.now) file.now key) }
    ensures cuts { MayCutFile (R.saw rt.now) file.now cut.new }
    ensures met { IfOk result (MayMeet (R.saw rt.now) file.now key) }
{
    match idle_peer(rt, file, how, key, between) {
        Some(peer) => meet_idle(rt, file, how, key, peer, between),
        None => meet_anew(rt, file, how, may_wait, key, cut, between),
    }
}

// Holds one session as [`meet`] does, and says what was cut off the journal, unless it is refused.
fn meet_and_report<'a, R: Disk + Net + AllocGlobal, E: Write>(
    rt: &'a R,
    file: &'a str,
    how: &Following,
    may_wait: bool,
    key: Option<[u8; 32]>,
    err: &mut E,
    cut: &mut Option<u64>,
    between: &mut Between<'a, R>,
) -> Result<Option<u64>, JobError>
    requires cut { cut.old ≡ None }
    requires idle { IfSome between.old.peer (IsIdle (R.saw rt.now) file.now key) }
    ensures idle { IfSome between.new.peer (IsIdle (R.saw rt.now) file.now key) }
    ensures cuts { OnOk result (cut.new ≡ None) }
    ensures may_cut { OnErr result (MayCutFile (R.saw rt.now) file.now cut.new) }
    ensures early { (cuts : List (Option ℕ)) × ReportsEach (R.saw rt.now) file.now cuts
        (E.contents err.old) (E.contents err.new) }
    ensures met { IfOk result (MayMeet (R.saw rt.now) file.now key) }
{
    match meet(rt, file, how, may_wait, key, cut, between) {
        Ok(met) => {
            report(rt.alloc(), file, *cut, None, err);
            *cut = None;
            Ok(met)
        }
        Err(error) => Err(error),
    }
}

/// Holds one session as [`meet_and_report`] does, and prints how many changes entered, where any did. Answers how many
/// sessions were held.
pub(crate) fn follow_once<'a, R: Disk + Net + AllocGlobal, W: Write, E: Write>(
    rt: &'a R,
    file: &'a str,
    how: &Following,
    may_wait: bool,
    key: Option<[u8; 32]>,
    out: &mut W,
    err: &mut E,
    cut: &mut Option<u64>,
    between: &mut Between<'a, R>,
) -> Result<u64, JobError>
    requires cut { cut.old ≡ None }
    requires idle { IfSome between.old.peer (IsIdle (R.saw rt.now) file.now key) }
    ensures idle { IfSome between.new.peer (IsIdle (R.saw rt.now) file.now key) }
    ensures cuts { OnOk result (cut.new ≡ None) }
    ensures may_cut { OnErr result (MayCutFile (R.saw rt.now) file.now cut.new) }
    ensures early { (cuts : List (Option ℕ)) × ReportsEach (R.saw rt.now) file.now cuts
        (E.contents err.old) (E.contents err.new) }
    ensures few { IfOk result (λ held. held ≤ 1) }
    ensures ok { IfOk result (λ held. GrowsBy (IsFollowed (R.saw rt.now) file.now key held)
        (W.contents out.old) (W.contents out.new)) }
    ensures err { OnErr result
        (GrowsPart (λ printed. (n : ℕ) × IsFollowed (R.saw rt.now) file.now key n printed)
        (W.contents out.old) (W.contents out.new)) }
{
    match meet_and_report(rt, file, how, may_wait, key, err, cut, between) {
        Ok(Some(applied)) => match tell_met(rt.alloc(), applied, out) {
            Ok(()) => Ok(1),
            Err(error) => Err(error),
        },
        Ok(None) => Ok(0),
        Err(error) => Err(error),
    }
}

/// Waits, but before the first turn.
pub(crate) fn pause<R: Clock>(rt: &R, turn: u64, every: Duration) {
    if turn > 0 {
        thread::sleep(rt, every);
    }
}

/// Holds sessions with the server, as many as said, one after another: the journal is closed between two, so that other commands
/// have it. Of each is printed how many changes entered, where any did, as it ends; what was cut off the journal is said.
///
/// The first session is of the peer that is opened for it, and so is each after which the file was changed by another. The
/// other ones are of a peer that was read of the file as the session before left it, all of it on the disk: it is kept while
/// nothing enters, so that the file is neither read nor locked, and takes the lock where something enters.
///
/// A refusal of the first session ends it. A later one as `Io` or `Busy` is waited out, as often as it comes, and every other
/// one ends it; so does an output that fails.
pub fn follow_file<'a, R: Disk + Net + Clock + AllocGlobal, W: Write, E: Write>(
    rt: &'a R,
    file: &'a str,
    how: &Following,
    sessions: u64,
    key: Option<[u8; 32]>,
    out: &mut W,
    err: &mut E,
    cut: &mut Option<u64>,
) -> Result<(), JobError>
    requires { cut.old ≡ None }
    ensures cuts { OnOk result (cut.new ≡ None) }
    ensures may_cut { OnErr result (MayCutFile (R.saw rt.now) file.now cut.new) }
    ensures early { (cuts : List (Option ℕ)) × ReportsEach (R.saw rt.now) file.now cuts
        (E.contents err.old) (E.contents err.new) }
    ensures ok { OnOk result (GrowsBy (IsFollowed (R.saw rt.now) file.now key sessions)
        (W.contents out.old) (W.contents out.new)) }
    ensures err { OnErr result
        (GrowsPart (λ printed. (n : ℕ) × IsFollowed (R.saw rt.now) file.now key n printed)
        (W.contents out.old) (W.contents out.new)) }
{
    let mut held = 0;
    let mut between = Between {
        stamp: None,
        peer: None,
    };
    for turn in 0..u64::MAX {
        if held == sessions {
            return Ok(());
        }
        pause(rt, turn, how.every);
        held += follow_once(rt, file, how, held > 0, key, out, err, cut, &mut between)?;
    }
    Err(JobError::Command(CommandError::Io))
}
