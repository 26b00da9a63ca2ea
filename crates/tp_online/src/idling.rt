//! What one that follows knows of its journal between two sessions.

ghost use Rattle.std.specs.Prelude.{◌≡◌, ◌⊎◌, IfOk, IfSome, None, OnErr, OnOk};
ghost use Rattle.tp_disk.specs.DiskView.{OfFile};
ghost use Rattle.tp_disk.specs.Opening.{MayCutFile, OpensUnder};
ghost use Rattle.tp_online.specs.Sessions.{IsIdle, MayMeet};

use crate::following::Following;
use crate::serving::reach_there;
use std::net::Net;
use tp_commands::{CommandError, reopen};
use tp_disk::{Disk, IdleJournal, Stamp, draw_actor};
use tp_net::hold_alone_on;
use tp_peer::{Peer, PeerError};
use tp_report::JobError;
use tp_session::Role;

/// What is known of the journal in a file between two sessions, while nobody has its lock.
#[derive(Drop)]
pub(crate) struct Between<'a, R: Disk> {
    /// The file's stamp as it was left, with all of it on the disk, where that is known.
    pub stamp: Option<Stamp>,
    /// The peer that was read of the file as it was left.
    pub peer: Option<Peer<IdleJournal<'a, R>>>,
}

// The peer on the journal that is read of the file, where it was left so.
fn read_peer<'a, R: Disk + AllocGlobal>(
    rt: &'a R,
    file: &'a str,
    wait: u64,
    key: Option<[u8; 32]>,
    stamp: Stamp,
) -> Option<Peer<IdleJournal<'a, R>>>
    ensures { IfSome result (IsIdle (R.saw rt.now) file.now key) }
{
    let Ok(actor) = draw_actor(rt, key) else {
        return None;
    };
    let Ok(read) = rt.recover(file) else {
        return None;
    };
    if rt.stamp(file) != Some(stamp) {
        drop(read);
        return None;
    }
    let Some((journal, recovered)) = IdleJournal::finish(rt, file, stamp, wait, read) else {
        return None;
    };
    match reopen(rt.alloc(), (journal, Ok(recovered)), actor) {
        Ok(peer) => Some(peer),
        Err(_) => None,
    }
}

/// The peer of the journal in the file, where the file is as it was left: the one that was kept, or one that is read. Where the
/// file was changed, or can't be read so, nothing is known of it any more.
pub(crate) fn idle_peer<'a, R: Disk + AllocGlobal>(
    rt: &'a R,
    file: &'a str,
    how: &Following,
    key: Option<[u8; 32]>,
    between: &mut Between<'a, R>,
) -> Option<Peer<IdleJournal<'a, R>>>
    requires { IfSome between.old.peer (IsIdle (R.saw rt.now) file.now key) }
    ensures idle { IfSome result (IsIdle (R.saw rt.now) file.now key) }
    ensures none { between.new.peer ≡ None }
{
    let kept = between.peer.take();
    match between.stamp {
        Some(stamp) if rt.stamp(file) == Some(stamp) => match kept {
            Some(peer) => Some(peer),
            None => read_peer(rt, file, how.wait, key, stamp),
        },
        _ => {
            between.stamp = None;
            drop(kept);
            None
        }
    }
}

// Whether a session that was broken off for this may go well with the journal opened anew: the server is away; or the journal
// failed and never had its file, since another has that or changed it.
fn is_for_now(error: &JobError, had_file: bool) -> bool {
    match error {
        JobError::Command(CommandError::Io) => true,
        JobError::Command(CommandError::Peer(PeerError::JournalFailed)) => !had_file,
        _ => false,
    }
}

/// Holds one session with the server, of a peer whose journal nobody has: it takes the lock only where something is appended.
/// How many changes entered, or `None` where a session may be held later. The peer is kept where nothing entered.
pub(crate) fn meet_idle<'a, R: Disk + Net + AllocGlobal>(
    rt: &'a R,
    file: &'a str,
    how: &Following,
    key: Option<[u8; 32]>,
    peer: Peer<IdleJournal<'a, R>>,
    between: &mut Between<'a, R>,
) -> Result<Option<u64>, JobError>
    requires idle { IsIdle (R.saw rt.now) file.now key peer }
    requires none { between.old.peer ≡ None }
    ensures idle { IfSome between.new.peer (IsIdle (R.saw rt.now) file.now key) }
    ensures met { IfOk result (MayMeet (R.saw rt.now) file.now key) }
{
    let mut peer = peer;
    let Ok(stream) = reach_there(rt, how.addr, how.patience) else {
        between.peer = Some(peer);
        return Ok(None);
    };
    match hold_alone_on(rt.alloc(), stream, how.patience, Role::Client, &mut peer) {
        Ok(applied) => {
            if applied == 0 {
                between.peer = Some(peer);
                Ok(Some(applied))
            } else {
                between.stamp = peer.stop().leave();
                Ok(Some(applied))
            }
        }
        Err(error) => {
            between.stamp = None;
            let had_file = peer.stop().has_file();
            let error = JobError::from(error);
            if is_for_now(&error, had_file) {
                return Ok(None);
            }
            Err(error)
        }
    }
}
