//! Keeping what is cut off a journal.

ghost use Rattle.std.specs.Prelude.{IfOk, OnOk};
ghost use Rattle.tp_disk.specs.DiskView.{WasLeft};
ghost use Rattle.tp_disk.specs.Opening.{KeepsTail, cut_path};

use crate::files::Disk;
use crate::folders::Folders;
use crate::replacing::put_new;
use tp_commands::CommandError;
use tp_journal::{Recovered, holds_record};
use tp_peer::{PeerError, PeerSequence};

// Puts what is cut off from the offset on into a file of its own, unless it is there already.
fn put_cut<D: Folders + AllocGlobal>(
    rt: &D,
    path: &str,
    at: u64,
    bytes: &[u8],
) -> Result<(), CommandError>
    ensures { OnOk result (D.saw rt.now (WasLeft (cut_path path.now at) bytes.now)) }
{
    let place = format!(in rt.alloc(); "{path}.cut-{at}")?;
    match put_new(rt, place.as_str(), path, bytes) {
        Err(CommandError::Peer(PeerError::JournalNotEmpty)) => {
            if rt.has(place.as_str(), bytes)? {
                rt.sync_folder(place.as_str())
            } else {
                Err(CommandError::Peer(PeerError::JournalNotEmpty))
            }
        }
        put => put,
    }
}

// Whether the journal at the path has other bytes from the offset on than those that are kept of it, or none.
fn is_off<D: Disk + AllocGlobal>(rt: &D, path: &str, at: u64) -> Result<bool, CommandError> {
    let place = format!(in rt.alloc(); "{path}.cut-{at}")?;
    let kept = rt.read(place.as_str())?;
    let journal = rt.read(path)?;
    let begin = journal.len().min(usize::try_from(at).unwrap_or(usize::MAX));
    Ok(&journal.as_slice()[begin..] != kept.as_slice())
}

/// Whether the bytes that are kept of the journal at the path, from the offset on, aren't in it any more: the path's file
/// and the one that keeps them are read. `false` where one of these can't be read.
pub fn is_cut<D: Disk + AllocGlobal>(rt: &D, path: &str, at: u64) -> bool {
    is_off(rt, path, at).unwrap_or(false)
}

/// Keeps the bytes that opening the journal at the path cuts off, as [`Disk::journal`](crate::Disk::journal)
/// says. The offset of the first of them, where they are kept.
pub(crate) fn keep_cut<D: Folders + AllocGlobal>(
    rt: &D,
    path: &str,
    recovered: &Recovered<PeerSequence>,
) -> Result<Option<u64>, CommandError>
    ensures { IfOk result (KeepsTail (D.saw rt.now) path.now
        recovered.now.keep recovered.now.tail.items) }
{
    if holds_record(rt.alloc(), recovered.tail.as_slice())? {
        put_cut(rt, path, recovered.keep, recovered.tail.as_slice())?;
        Ok(Some(recovered.keep))
    } else {
        Ok(None)
    }
}
