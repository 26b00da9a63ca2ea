//! Bringing a journal and NOTE in step.

ghost use Rattle.std.specs.Prelude.{◌≡◌, None, OnErr, OnOk, false};
ghost use Rattle.std.specs.String.{string_bytes};
ghost use Rattle.tp_commands.specs.Since.{GrowsAlone};
ghost use Rattle.tp_disk.specs.DiskView.{ChangesFile};
ghost use Rattle.tp_disk.specs.Opening.{CutsFile, MayCutFile};
ghost use Rattle.tp_mirroring.specs.Seeing.{first_cut};
ghost use Rattle.tp_mirroring.specs.Taking.{HasTakings, Mirrors};

use crate::paths::Paths;
use crate::turning::{Turned, do_turn};
use rand_chacha::ChaCha20Rng;
use rand_core::SeedableRng;
use std::marker::Brand;
use std::thread;
use std::time::{Clock, Duration};
use tp_commands::{CommandError, reopen};
use tp_disk::{Disk, Opened, draw};
use tp_journal::{DurableJournal, Journal};
use tp_mirror::{Name, Take};
use tp_opid::Actor;
use tp_peer::Peer;

// How many milliseconds it waits before a file that isn't quiet is looked at again.
const PAUSE: u64 = 250;

// How often at most: for 15 s, which is longer than any file has to be quiet.
const TRIES: u64 = 60;

// A generator of its own for each turn.
fn draw_generator(random: &mut ChaCha20Rng) -> ChaCha20Rng {
    let Actor(first) = draw(random);
    let Actor(second) = draw(random);
    let mut key = [0; 32];
    key[..16].copy_from_slice(&first);
    key[16..].copy_from_slice(&second);
    ChaCha20Rng::from_seed(key)
}

// Notes what an opening cut off, unless an earlier one cut something off.
fn note_cut(cut: &mut Option<u64>, opened: Option<u64>)
    ensures { cut.new ≡ first_cut cut.old opened }
{
    if cut.is_none() {
        *cut = opened;
    }
}

// Opens the journal, does the rounds of a turn, and leaves it.
fn turn<D: Disk + Clock + AllocGlobal>(
    rt: &D,
    paths: &Paths,
    take: Option<Take>,
    random: ChaCha20Rng,
    wait: u64,
    cut: &mut Option<u64>,
) -> Result<Vec<Name>, CommandError>
    requires { cut.old ≡ None }
    ensures cuts { OnOk result (CutsFile (D.saw rt.now) (string_bytes paths.now.file) cut.new) }
    ensures may_cut { MayCutFile (D.saw rt.now) (string_bytes paths.now.file) cut.new }
    ensures mirrors { OnOk result (ChangesFile (D.saw rt.now) (string_bytes paths.now.file)
        (Mirrors (D.saw rt.now) (string_bytes paths.now.note))) }
{
    let mut random = random;
    let actor = draw(&mut random);
    let file = paths.file.as_str();
    let Opened {
        journal,
        recovered,
        cut: kept,
    } = rt.journal(file, wait)?;
    *cut = kept;
    let peer = reopen(rt.alloc(), (journal, Ok(recovered)), actor)?;
    let Turned { peer, done } = do_turn::<D, DurableJournal<D::File>, Brand>(
        rt, paths, peer, take, random,
    );
    let mut journal = peer.stop();
    rt.leave(file, &mut journal)?;
    done
}

/// Has the rounds of a turn with a peer that is open and runs, as [`mirror`] has them with a journal, but waits for nothing: where a
/// file isn't quiet it is refused as `NotQuiet`. All that the peer has more is at its list's end.
pub fn turn_on<D: Disk + Clock + AllocGlobal, J: Journal>(
    rt: &D,
    paths: &Paths,
    peer: Peer<J>,
    take: Option<Take>,
    random: &mut ChaCha20Rng,
) -> (Peer<J>, Result<Vec<Name>, CommandError>)
    requires { peer.stopped ≡ false }
    ensures grows { GrowsAlone peer result.0 }
    ensures taken { OnOk result.1
        (HasTakings false (D.saw rt.now) (string_bytes paths.now.note) peer result.0) }
{
    let generator = draw_generator(random);
    let Turned { peer, done } = do_turn::<D, J, Brand>(rt, paths, peer, take, generator);
    (peer, done)
}

/// Brings the journal and NOTE in step: what an editor saved in NOTE becomes changes of the journal, on the text that the editor had,
/// and then NOTE has the journal's text, with all of that in it. `take` says which text counts at the first use. Actors and
/// names are drawn from the generator, and the journal's lock is waited for `wait` seconds. Answers the names of the files that were
/// NOTE and were moved away, and may still be written by whoever has them open.
///
/// Where a file isn't quiet it waits, for 15 s at most, and then it is refused as `NotQuiet`; the journal is free meanwhile.
/// `NotText`: NOTE isn't UTF-8. `Io`: NOTE is gone, though it was there; nothing is deleted from the journal. `BothHaveText`: at
/// the first use both have a text, these differ, and `take` says nothing. `BadState`: the state file isn't whole, or is
/// another document's. After any refusal the next call goes on from what is there.
pub fn mirror<D: Disk + Clock + AllocGlobal>(
    rt: &D,
    paths: &Paths,
    take: Option<Take>,
    random: &mut ChaCha20Rng,
    wait: u64,
    cut: &mut Option<u64>,
) -> Result<Vec<Name>, CommandError>
    requires { cut.old ≡ None }
    ensures cuts { OnOk result (CutsFile (D.saw rt.now) (string_bytes paths.now.file) cut.new) }
    ensures may_cut { OnErr result (MayCutFile (D.saw rt.now) (string_bytes paths.now.file) cut.new) }
    ensures mirrors { OnOk result (ChangesFile (D.saw rt.now) (string_bytes paths.now.file)
        (Mirrors (D.saw rt.now) (string_bytes paths.now.note))) }
{
    for _ in 0..TRIES {
        let mut opened = None;
        let done = turn(rt, paths, take, draw_generator(random), wait, &mut opened);
        note_cut(cut, opened);
        match done {
            Err(CommandError::NotQuiet) => thread::sleep(rt, Duration::from_millis(PAUSE)),
            done => return done,
        }
    }
    Err(CommandError::NotQuiet)
}
