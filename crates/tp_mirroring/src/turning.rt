//! The rounds of a turn.

ghost use Rattle.std.specs.Prelude.{◌≡◌, [], List, ℕ, None, OnOk, false};
ghost use Rattle.std.specs.String.{string_bytes};
ghost use Rattle.tp_journal.specs.Journal.{no_device};
ghost use Rattle.tp_commands.specs.Since.{GrowsAlone};
ghost use Rattle.tp_disk.specs.DiskView.{DiskView};
ghost use Rattle.tp_peer.specs.PeerState.{PeerState, opened_peer};
ghost use Rattle.tp_mirror.specs.Mirroring.{IsKept};
ghost use Rattle.tp_mirroring.specs.Taking.{HasTakings};

use crate::account::names_of;
use crate::folder::{Ended, Folder};
use crate::paths::Paths;
use crate::refusal::{end_of, refusal_of};
use rand_chacha::ChaCha20Rng;
use std::marker::Brand;
use std::time::Clock;
use tp_commands::CommandError;
use tp_disk::Disk;
use tp_journal::Journal;
use tp_mirror::{MirrorError, Name, Outcome, State, Take, forget, round, start};
use tp_peer::Peer;

/// What a turn began with: what was seen of the disk, where NOTE is, and the peer. Whoever has a turn made picks it.
pub trait Turning {
    ghost saw: { DiskView → Type 0 };

    ghost note: { List ℕ };

    ghost first: { PeerState };
}

impl Turning for Brand {
    ghost saw = { λ _. Unit {0} };

    ghost note = { [] };

    ghost first = { opened_peer (record { 0 = [] }) (record { 0 = [] }) [] no_device };
}

// How many rounds a turn has at most.
const ROUNDS: usize = 8;

/// A turn, and the peer after it.
#[derive(Drop)]
pub(crate) struct Turned<J: Journal> {
    /// The peer.
    pub(crate) peer: Peer<J>,
    /// Where all is in step, the names of the files that were moved away, and may still be written; or why it isn't.
    pub(crate) done: Result<Vec<Name>, CommandError>,
}

// Removes the files that were moved away and that nobody wrote to for long.
fn forget_all<D: Disk + Clock + AllocGlobal, J: Journal, K: Turning>(
    folder: &mut Folder<'_, D, J, K>,
    state: &mut State,
) -> Result<(), MirrorError>
    requires { IsKept folder.old.seen state.old None }
{
    let mut at = state.moved.len();
    while at > 0 {
        at -= 1;
        if at < state.moved.len() {
            let name = state.moved.as_slice()[at].name;
            if folder.is_left(name)? {
                forget(folder, state, at)?;
            }
        }
    }
    Ok(())
}

// Does a round and those that follow it at once: what the last one came to. Where all is in step, files that were moved away and
// that nobody wrote to for long are removed.
fn do_rounds<D: Disk + Clock + AllocGlobal, J: Journal, K: Turning>(
    folder: &mut Folder<'_, D, J, K>,
    state: &mut State,
) -> Result<Outcome, MirrorError>
    requires { IsKept folder.old.seen state.old None }
{
    for _ in 0..ROUNDS {
        let outcome = round(folder, state)?;
        match outcome {
            Outcome::Put | Outcome::Again => {}
            Outcome::InStep => {
                forget_all(folder, state)?;
                return Ok(outcome);
            }
            Outcome::Busy | Outcome::NotText | Outcome::Gone => return Ok(outcome),
        }
    }
    Ok(Outcome::Again)
}

// What the rounds came to, and the names of the files that were moved away.
#[derive(Drop)]
struct Done {
    outcome: Outcome,
    left: Vec<Name>,
}

// Starts, and does the rounds.
fn start_and_do<D: Disk + Clock + AllocGlobal, J: Journal, K: Turning>(
    folder: &mut Folder<'_, D, J, K>,
    take: Option<Take>,
) -> Result<Done, MirrorError> {
    let document = folder.document();
    let alloc = folder.alloc();
    let mut state = start(folder, alloc, document, take)?;
    let outcome = do_rounds(folder, &mut state)?;
    let left = names_of(alloc, state.moved.as_slice())?;
    Ok(Done { outcome, left })
}

// What a turn came to. Where a change was begun and not made it is a refusal.
fn end_of_turn(
    ended: Result<Done, MirrorError>,
    cause: Option<CommandError>,
    has_failed: bool,
) -> Result<Vec<Name>, CommandError>
    ensures { OnOk result (has_failed ≡ false) }
{
    match ended {
        Ok(_) if has_failed => Err(cause.unwrap_or(CommandError::Io)),
        Ok(Done { outcome, left }) => match end_of(outcome, cause) {
            Ok(()) => Ok(left),
            Err(error) => Err(error),
        },
        Err(error) => Err(refusal_of(error, cause)),
    }
}

/// The rounds of a turn with the journal's peer. All that it has afterwards beyond what it had are changes that were made of
/// texts which were read.
pub(crate) fn do_turn<D: Disk + Clock + AllocGlobal, J: Journal, K: Turning>(
    rt: &D,
    paths: &Paths,
    peer: Peer<J>,
    take: Option<Take>,
    random: ChaCha20Rng,
) -> Turned<J>
    requires saw { (v : DiskView) → D.saw rt.now v → K.saw v }
    requires note { string_bytes paths.now.note ≡ K.note }
    requires first { peer ≡ K.first }
    requires runs { peer.stopped ≡ false }
    ensures grows { GrowsAlone K.first result.peer }
    ensures taken { OnOk result.done (HasTakings false K.saw K.note K.first result.peer) }
{
    let mut folder: Folder<'_, D, J, K> = Folder::new(rt, paths, peer, random);
    let ended = start_and_do(&mut folder, take);
    let Ended {
        peer,
        cause,
        has_failed,
    } = folder.end();
    Turned {
        peer,
        done: end_of_turn(ended, cause, has_failed),
    }
}
