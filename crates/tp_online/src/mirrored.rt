//! A text file that is kept in step with the journal of a served peer.

ghost use Rattle.std.specs.Prelude.{◌≡◌, ◌⊎◌, ℕ, List, IfOk, None, OnErr, OnOk, Option, is_some};
ghost use Rattle.std.specs.String.{string_bytes};
ghost use Rattle.tp_disk.specs.Opening.{MayCutFile};
ghost use Rattle.tp_online.specs.Sessions.{ReportsEach};
ghost use Rattle.tp_online.specs.Watching.{IsMirrored};
ghost use Rattle.tp_served.specs.Seats.{Visits};

use crate::mirroring::{Turns, is_due, start};
use std::io::Write;
use std::sync::Wait;
use std::time::Clock;
use tp_commands::CommandError;
use tp_disk::{Disk, generator};
use tp_journal::Journal;
use tp_mirror::{Name, Take};
use tp_mirroring::{Paths, look, mirror, turn_on};
use tp_peer::Peer;
use tp_report::{JobError, report, tell_refusal};
use tp_served::{Seat, Served};

// The text file may be unquiet for this many turns in a row, one a second, before that is said.
const LONG: u64 = 15;

/// A text file that is to be kept in step with a journal while that is served.
#[derive(Clone, Copy)]
pub struct Noted<'a> {
    /// Its path.
    pub note: &'a str,
    /// Which text counts at the first use, where the two have different ones; if that is said.
    pub take: Option<Take>,
}

// Brings the journal and the text file in step for the first time.
fn begin<R: Disk + Clock + AllocGlobal>(
    rt: &R,
    file: &str,
    noted: &Noted<'_>,
    key: Option<[u8; 32]>,
    wait: u64,
    cut: &mut Option<u64>,
) -> Result<Paths, CommandError>
    requires { cut.old ≡ None }
    ensures may_cut { MayCutFile (R.saw rt.now) file.now cut.new }
{
    let (paths, mut random) = start(rt, file, noted.note, key)?;
    mirror(rt, &paths, noted.take, &mut random, wait, cut)?;
    Ok(paths)
}

/// A text file that is kept in step with the journal of a served peer.
#[derive(Drop)]
pub(crate) struct Mirrored {
    /// Where the journal is, and it.
    pub paths: Paths,
    /// Which text counts at the first use, where the two have different ones; if that is said.
    pub take: Option<Take>,
}

/// Brings the journal and the text file in step for the first time, where one is to be kept beside it. What was cut off the journal is
/// said.
pub(crate) fn prepare<R: Disk + Clock + AllocGlobal, E: Write>(
    rt: &R,
    file: &str,
    noted: &Option<Noted<'_>>,
    key: Option<[u8; 32]>,
    wait: u64,
    err: &mut E,
    cut: &mut Option<u64>,
) -> Result<Option<Mirrored>, JobError>
    requires { cut.old ≡ None }
    ensures some { IfOk result (λ mirrored. is_some mirrored ≡ is_some noted.now) }
    ensures cuts { OnOk result (cut.new ≡ None) }
    ensures may_cut { OnErr result (MayCutFile (R.saw rt.now) file.now cut.new) }
    ensures early { (cuts : List (Option ℕ)) × ReportsEach (R.saw rt.now) file.now cuts
        (E.contents err.old) (E.contents err.new) }
{
    match noted {
        None => Ok(None),
        Some(noted) => match begin(rt, file, noted, key, wait, cut) {
            Ok(paths) => {
                report(rt.alloc(), file, *cut, None, err);
                *cut = None;
                Ok(Some(Mirrored {
                    paths,
                    take: noted.take,
                }))
            }
            Err(error) => Err(JobError::Command(error)),
        },
    }
}

// Whether there is something to do, as far as can be seen.
fn comes_due<R: Disk + AllocGlobal>(rt: &R, paths: &Paths, turns: &mut Turns, every: u64) -> bool {
    let Ok(seen) = look(rt, paths, &turns.left) else {
        return false;
    };
    if !is_due(turns, &seen) {
        turns.rest = turns.rest.saturating_add(every);
        return false;
    }
    turns.seen = seen;
    turns.rest = 0;
    true
}

// Brings a peer in step with the text file, where it runs. How that ended.
fn turn_if_running<R: Disk + Clock + AllocGlobal, J: Journal>(
    rt: &R,
    mirrored: &Mirrored,
    peer: Peer<J>,
) -> (Peer<J>, Option<Result<Vec<Name>, CommandError>>)
    ensures { IsMirrored (R.saw rt.now) (string_bytes mirrored.now.paths.note) peer result.0 }
{
    if peer.is_stopped() {
        return (peer, None);
    }
    match generator(rt, None) {
        Ok(random) => {
            let mut random = random;
            let (peer, done) = turn_on(rt, &mirrored.paths, peer, mirrored.take, &mut random);
            (peer, Some(done))
        }
        Err(error) => (peer, Some(Err(error))),
    }
}

// Remembers how a turn ended. A refusal is said once; that a file isn't quiet only where it has been so for long.
fn note_end<R: Eprint + AllocGlobal>(
    rt: &R,
    done: Option<Result<Vec<Name>, CommandError>>,
    turns: &mut Turns,
) {
    match done {
        None => {}
        Some(Ok(left)) => {
            turns.is_in_step = true;
            turns.told = None;
            turns.left = left;
            turns.busy = 0;
        }
        Some(Err(error)) => {
            turns.is_in_step = false;
            turns.busy = turns.busy.saturating_add(1);
            let is_new = turns.told != Some(error);
            if is_new && (error != CommandError::NotQuiet || turns.busy >= LONG) {
                turns.told = Some(error);
                tell_refusal(rt, rt.alloc(), JobError::Command(error));
            }
        }
    }
}

/// Brings the peer that is served in step with the text file in a turn of the seat, where one of the two was changed, as far as can be
/// seen. A refusal is said once on the standard error of the runtime, and tried again as often as this is called.
pub(crate) fn turn_beside<R: Disk + Wait + Clock + Eprint + AllocGlobal, J: Journal>(
    rt: &R,
    mirrored: &Mirrored,
    turns: &mut Turns,
    served: &Served<J>,
    seat: Seat,
) -> Seat
    requires { seat.served ≡ served.now.served }
    ensures served { result.served ≡ served.now.served }
    ensures turned { (result ≡ seat) ⊎ Visits seat.state
        (IsMirrored (R.saw rt.now) (string_bytes mirrored.now.paths.note)) result.state }
{
    if !comes_due(rt, &mirrored.paths, turns, 1) {
        return seat;
    }
    let (absence, peer) = served.begin_turn(rt, seat);
    let (peer, done) = turn_if_running(rt, mirrored, peer);
    note_end(rt, done, turns);
    served.end_turn(absence, peer)
}
