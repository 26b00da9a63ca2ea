//! The commands `mirror --every`, `mirror --follow` and `sync --follow --mirror`.

ghost use Rattle.std.specs.Prelude.{◌≡◌, ℕ, IfOk, IfSome, None, OnErr, OnOk, Option, true};
ghost use Rattle.std.specs.String.{string_bytes};
ghost use Rattle.tp_commands.specs.declared.error.CommandError.{CommandError as Refusal};
ghost use Rattle.tp_disk.specs.Opening.{MayCutFile};
ghost use Rattle.tp_online.specs.Mirroring.{TellsPassing, TellsShared, TellsSome, is_waited_out};
ghost use Rattle.tp_online.specs.Sessions.{IsFollowed, IsIdle};
ghost use Rattle.tp_report.specs.Telling.{GrowsBy, GrowsPart};

use crate::following::{Following, follow_once, pause};
use crate::idling::Between;
use rand_chacha::ChaCha20Rng;
use std::alloc::Global;
use std::io::Write;
use std::net::Net;
use std::thread;
use std::time::{Clock, Duration};
use tp_commands::CommandError;
use tp_disk::{Disk, Stamp, generator};
use tp_mirror::{Name, Take};
use tp_mirroring::{Paths, look, mirror, place_of};
use tp_report::{JobError, exit_status, report, tell_followed};
use tp_session::NetError;

// So often, in seconds, a file that was moved away is looked at again though nothing changed: once nobody wrote to it for ten minutes
// it is removed.
const AT_REST: u64 = 60;

/// What is kept in step with a journal, and how.
#[derive(Clone, Copy)]
pub struct Keeping<'a> {
    /// The path of the text file.
    pub note: &'a str,
    /// Which text counts at the first use, where the two have different ones; if that is said.
    pub take: Option<Take>,
    /// How long it waits before it looks again.
    pub every: Duration,
    /// For how many seconds the lock of the journal is waited for.
    pub wait: u64,
}

/// What the turns so far came to.
#[derive(Drop)]
pub(crate) struct Turns {
    /// Whether all was in step once.
    pub(crate) has_begun: bool,
    /// Whether all was in step at the last turn.
    pub(crate) is_in_step: bool,
    /// Why it wasn't, where that was said.
    pub(crate) told: Option<CommandError>,
    /// What was seen of the files before the last turn.
    pub(crate) seen: Vec<Option<Stamp>>,
    /// The names of the files that were moved away.
    pub(crate) left: Vec<Name>,
    /// For how many seconds nothing has changed.
    pub(crate) rest: u64,
    /// How many turns in a row found a file that wasn't quiet.
    pub(crate) busy: u64,
}

/// None was had yet.
pub(crate) fn no_turns(alloc: Global) -> Turns {
    Turns {
        has_begun: false,
        is_in_step: false,
        told: None,
        seen: Vec::new(alloc),
        left: Vec::new(alloc),
        rest: 0,
        busy: 0,
    }
}

// Whether a later turn may be done that was refused now.
fn waits_out(error: &CommandError) -> bool
    ensures { result ≡ is_waited_out error.now }
{
    matches!(
        error,
        CommandError::Io
            | CommandError::Busy
            | CommandError::NotQuiet
            | CommandError::NotText { .. }
    )
}

/// Whether there is something to do: something changed, or the last turn was refused, or a file that was moved away may be left.
pub(crate) fn is_due(turns: &Turns, seen: &[Option<Stamp>]) -> bool {
    !turns.is_in_step
        || turns.seen.as_slice() != seen
        || (!turns.left.is_empty() && turns.rest >= AT_REST)
}

// Says why all isn't in step, where it didn't say so before.
fn tell<E: Write>(alloc: Global, error: CommandError, turns: &mut Turns, err: &mut E)
    requires { is_waited_out error ≡ true }
    ensures { (told : Option Refusal) × TellsPassing told (E.contents err.old) (E.contents err.new) }
{
    if turns.told == Some(error) {
        return;
    }
    exit_status(alloc, Err(JobError::Command(error)), err);
    turns.told = Some(error);
}

// Brings them in step, and says what was cut off the journal, and why it isn't so where that may pass.
fn take_turn<R: Disk + Clock + AllocGlobal, E: Write>(
    rt: &R,
    paths: &Paths,
    how: &Keeping,
    random: &mut ChaCha20Rng,
    turns: &mut Turns,
    err: &mut E,
    cut: &mut Option<u64>,
) -> Result<(), JobError>
    requires { cut.old ≡ None }
    ensures none { OnOk result (cut.new ≡ None) }
    ensures may_cut { OnErr result (MayCutFile (R.saw rt.now) (string_bytes paths.now.file) cut.new) }
    ensures told { TellsSome (R.saw rt.now) (string_bytes paths.now.file) (E.contents err.old) (E.contents err.new) }
{
    match mirror(rt, paths, how.take, random, how.wait, cut) {
        Ok(left) => {
            report(rt.alloc(), paths.file.as_str(), *cut, None, err);
            *cut = None;
            turns.has_begun = true;
            turns.is_in_step = true;
            turns.told = None;
            turns.left = left;
            Ok(())
        }
        Err(error) if turns.has_begun && waits_out(&error) => {
            report(rt.alloc(), paths.file.as_str(), *cut, None, err);
            *cut = None;
            turns.is_in_step = false;
            tell(rt.alloc(), error, turns, err);
            Ok(())
        }
        Err(error) => Err(JobError::Command(error)),
    }
}

// Looks whether there is something to do, and does it.
fn look_and_do<R: Disk + Clock + AllocGlobal, E: Write>(
    rt: &R,
    paths: &Paths,
    how: &Keeping,
    random: &mut ChaCha20Rng,
    turns: &mut Turns,
    err: &mut E,
    cut: &mut Option<u64>,
) -> Result<(), JobError>
    requires { cut.old ≡ None }
    ensures none { OnOk result (cut.new ≡ None) }
    ensures may_cut { OnErr result (MayCutFile (R.saw rt.now) (string_bytes paths.now.file) cut.new) }
    ensures told { TellsSome (R.saw rt.now) (string_bytes paths.now.file) (E.contents err.old) (E.contents err.new) }
{
    let seen = look(rt, paths, &turns.left)?;
    if !is_due(turns, &seen) {
        turns.rest = turns.rest.saturating_add(how.every.as_secs());
        return Ok(());
    }
    turns.seen = seen;
    turns.rest = 0;
    take_turn(rt, paths, how, random, turns, err, cut)
}

/// The paths, and the generator of actors and names.
pub(crate) fn start<R: Disk + Clock + AllocGlobal>(
    rt: &R,
    file: &str,
    note: &str,
    key: Option<[u8; 32]>,
) -> Result<(Paths, ChaCha20Rng), CommandError>
    ensures { IfOk result (λ started. string_bytes started.0.file ≡ file.now) }
{
    let place = place_of(rt, note)?;
    let paths = Paths::new(rt.alloc(), file, place.as_str())?;
    Ok((paths, generator(rt, key)?))
}

// Looks again and again.
fn go_on<R: Disk + Clock + AllocGlobal, E: Write>(
    rt: &R,
    paths: &Paths,
    how: &Keeping,
    random: ChaCha20Rng,
    err: &mut E,
    cut: &mut Option<u64>,
) -> Result<(), JobError>
    requires { cut.old ≡ None }
    ensures none { OnOk result (cut.new ≡ None) }
    ensures may_cut { OnErr result (MayCutFile (R.saw rt.now) (string_bytes paths.now.file) cut.new) }
    ensures told { TellsSome (R.saw rt.now) (string_bytes paths.now.file) (E.contents err.old) (E.contents err.new) }
{
    let mut random = random;
    let mut turns = no_turns(rt.alloc());
    for turn in 0..u64::MAX {
        if turn > 0 {
            thread::sleep(rt, how.every);
        }
        look_and_do(rt, paths, how, &mut random, &mut turns, err, cut)?;
    }
    Ok(())
}

/// Keeps a text file and a journal in step, as [`mirror`](tp_mirroring::mirror) brings them in step, for good: it looks at both again
/// and again, and has a turn where one of them was changed. The journal is closed between two turns, so that other commands have
/// it.
///
/// A refusal of the first turn ends it. A later one as `Io`, `Busy`, `NotQuiet` or `NotText` is said once and waited out; every
/// other one ends it.
pub fn keep_mirror<R: Disk + Clock + AllocGlobal, E: Write>(
    rt: &R,
    file: &str,
    how: &Keeping,
    key: Option<[u8; 32]>,
    err: &mut E,
    cut: &mut Option<u64>,
) -> JobError
    requires { cut.old ≡ None }
    ensures may_cut { MayCutFile (R.saw rt.now) file.now cut.new }
    ensures told { TellsSome (R.saw rt.now) file.now (E.contents err.old) (E.contents err.new) }
{
    match start(rt, file, how.note, key) {
        Ok((paths, random)) => match go_on(rt, &paths, how, random, err, cut) {
            Ok(()) => JobError::Command(CommandError::Io),
            Err(error) => error,
        },
        Err(error) => JobError::Command(error),
    }
}

// Says on the standard error of the runtime whether a session was held, where that isn't as it was the time before.
fn tell_change<R: Eprint + AllocGlobal>(
    rt: &R,
    server: &Following,
    is_held: bool,
    is_met: &mut bool,
) {
    if is_held == *is_met {
        return;
    }
    *is_met = is_held;
    let error = if is_held { None } else { Some(NetError::Io) };
    tell_followed(rt, rt.alloc(), &server.addr, error);
}

// Has a turn and then a session, again and again.
fn share_on<'a, R: Disk + Net + Clock + Eprint + AllocGlobal, W: Write, E: Write>(
    rt: &'a R,
    file: &'a str,
    paths: &Paths,
    how: &Keeping,
    server: &Following,
    sessions: u64,
    random: ChaCha20Rng,
    key: Option<[u8; 32]>,
    out: &mut W,
    err: &mut E,
    cut: &mut Option<u64>,
) -> Result<(), JobError>
    requires cut { cut.old ≡ None }
    requires file { string_bytes paths.now.file ≡ file.now }
    ensures cuts { OnOk result (cut.new ≡ None) }
    ensures may_cut { OnErr result (MayCutFile (R.saw rt.now) file.now cut.new) }
    ensures told { TellsShared (R.saw rt.now) file.now (E.contents err.old) (E.contents err.new) }
    ensures ok { OnOk result (GrowsBy (IsFollowed (R.saw rt.now) file.now key sessions)
        (W.contents out.old) (W.contents out.new)) }
    ensures err { OnErr result
        (GrowsPart (λ printed. (n : ℕ) × IsFollowed (R.saw rt.now) file.now key n printed)
        (W.contents out.old) (W.contents out.new)) }
{
    let mut random = random;
    let mut turns = no_turns(rt.alloc());
    let mut held = 0;
    let mut is_met = true;
    let mut between = Between {
        stamp: None,
        peer: None,
    };
    for turn in 0..u64::MAX {
        if held == sessions {
            return Ok(());
        }
        pause(rt, turn, how.every);
        look_and_do(rt, paths, how, &mut random, &mut turns, err, cut)?;
        let met = follow_once(rt, file, server, true, key, out, err, cut, &mut between)?;
        tell_change(rt, server, met > 0, &mut is_met);
        held += met;
    }
    Err(JobError::Command(CommandError::Io))
}

/// Keeps a text file and a journal in step as [`keep_mirror`] does, and holds a session with a server after each turn, as
/// [`follow_file`](crate::following::follow_file) does, until as many as said were held. So the text file, the journal and the
/// server's journal come to one text.
///
/// A session that can't be held since the server is away, or another has the journal, is waited out, also the first one: the
/// standard error of the runtime says so, and when one is held again.
pub fn share_mirror<'a, R: Disk + Net + Clock + Eprint + AllocGlobal, W: Write, E: Write>(
    rt: &'a R,
    file: &'a str,
    how: &Keeping,
    server: &Following,
    sessions: u64,
    key: Option<[u8; 32]>,
    out: &mut W,
    err: &mut E,
    cut: &mut Option<u64>,
) -> Result<(), JobError>
    requires { cut.old ≡ None }
    ensures cuts { OnOk result (cut.new ≡ None) }
    ensures may_cut { OnErr result (MayCutFile (R.saw rt.now) file.now cut.new) }
    ensures told { TellsShared (R.saw rt.now) file.now (E.contents err.old) (E.contents err.new) }
    ensures ok { OnOk result (GrowsBy (IsFollowed (R.saw rt.now) file.now key sessions)
        (W.contents out.old) (W.contents out.new)) }
    ensures err { OnErr result
        (GrowsPart (λ printed. (n : ℕ) × IsFollowed (R.saw rt.now) file.now key n printed)
        (W.contents out.old) (W.contents out.new)) }
{
    match start(rt, file, how.note, key) {
        Ok((paths, random)) => share_on(
            rt, file, &paths, how, server, sessions, random, key, out, err, cut,
        ),
        Err(error) => Err(JobError::Command(error)),
    }
}
