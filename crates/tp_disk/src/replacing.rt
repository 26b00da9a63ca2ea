//! Putting bytes in the place of a file.

ghost use Rattle.std.specs.Prelude.{List, ℕ, OnOk};
ghost use Rattle.tp_disk.specs.DiskView.{WasLeft};

use crate::files::Disk;
use crate::folders::{Folders, Found};
use std::fs::Permissions;
use std::io::{ErrorKind, Read};
use tp_commands::CommandError;
use tp_journal::MAGIC;
use tp_peer::PeerError;

/// Whether the file at the path begins as a journal does.
pub fn begins_journal<D: Disk>(rt: &D, path: &str) -> Result<bool, CommandError> {
    let mut first = [0; MAGIC.len()];
    match rt.open(path)?.read_exact(&mut first) {
        Ok(()) => Ok(first == MAGIC),
        Err(error) if error.kind() == ErrorKind::UnexpectedEof => Ok(false),
        Err(error) => Err(CommandError::from(error)),
    }
}

// The mode of what is at the path.
fn mode_of<D: Folders>(rt: &D, path: &str) -> Result<Permissions, CommandError> {
    match rt.find(path)? {
        Found::File(mode) | Found::Other(mode) => Ok(mode),
        Found::Nothing => Err(CommandError::Io),
    }
}

// Writes a new file of the mode, and brings it to the disk.
fn write_and_sync<D: Folders>(
    rt: &D,
    path: &str,
    mode: Permissions,
    bytes: &[u8],
) -> Result<(), CommandError>
    ensures { OnOk result (D.synced rt.now path.now bytes.now) }
{
    let new = rt.write_new(path, mode, bytes)?;
    rt.sync_new(new)
}

// Writes a new file at the path `part`, which then takes the name of the other.
fn write_and_rename<D: Folders>(
    rt: &D,
    part: &str,
    path: &str,
    mode: Permissions,
    bytes: &[u8],
) -> Result<(), CommandError>
    ensures { OnOk result (D.saw rt.now (WasLeft path.now bytes.now)) }
{
    write_and_sync(rt, part, mode, bytes)?;
    rt.rename(part, path)?;
    rt.sync_folder(path)
}

// Puts a new file of the mode in the place of the one at the path, if one is there.
fn put_in_place<D: Folders>(
    rt: &D,
    path: &str,
    mode: Permissions,
    bytes: &[u8],
) -> Result<(), CommandError>
    ensures { OnOk result (D.saw rt.now (WasLeft path.now bytes.now)) }
{
    let part = rt.name_beside(path)?;
    let put = write_and_rename(rt, part.as_str(), path, mode, bytes);
    if put.is_err() {
        rt.remove(part.as_str());
    }
    put
}

// Puts a file of the mode where the path leads.
fn put<D: Folders>(rt: &D, path: &str, mode: Permissions, bytes: &[u8]) -> Result<(), CommandError>
    ensures { OnOk result (D.saw rt.now (WasLeft path.now bytes.now)) }
{
    match rt.beyond(path)? {
        Some(place) => put_in_place(rt, place.as_str(), mode, bytes),
        None => rt.write_after(path, bytes),
    }
}

/// Makes the file at the path of these bytes, in place of one that is there: a link is followed, and a regular file keeps
/// its mode. A new one has the mode of the file at the path `like`. A crash leaves it as it was, or whole. What is no
/// regular file, as a pipe, or is open already, as the standard output, is written to.
///
/// The file is replaced by one that is written beside it, under a name that no other has and that ends with `.part`, and
/// then takes its name; and the folder is brought to the disk. Where it is refused, the file beside it is removed, as far as
/// that can be done.
///
/// A file that begins as a journal does is refused as `JournalNotEmpty`, and stays.
pub fn replace<D: Disk>(rt: &D, path: &str, like: &str, bytes: &[u8]) -> Result<(), CommandError>
    ensures { OnOk result (D.saw rt.now (WasLeft path.now bytes.now)) }
{
    match rt.find(path)? {
        Found::File(mode) => {
            if begins_journal(rt, path)? {
                return Err(CommandError::Peer(PeerError::JournalNotEmpty));
            }
            put(rt, path, mode, bytes)
        }
        Found::Other(_) => rt.write_after(path, bytes),
        Found::Nothing => put(rt, path, mode_of(rt, like)?, bytes),
    }
}

// Gives the file at the path `part` the other name too, if nothing has that.
fn name_new<D: Folders>(rt: &D, part: &str, path: &str) -> Result<(), CommandError>
    requires { (bytes : List ℕ) × D.synced rt.now part.now bytes }
    ensures { OnOk result ((bytes : List ℕ) → D.synced rt.now part.now bytes
        → D.named rt.now path.now bytes) }
{
    match rt.link(part, path) {
        Ok(()) => Ok(()),
        Err(error) => match error.kind() {
            ErrorKind::AlreadyExists => Err(CommandError::Peer(PeerError::JournalNotEmpty)),
            // The file system has no second names.
            ErrorKind::PermissionDenied | ErrorKind::Unsupported => {
                if rt.is_absent(path)? {
                    Ok(rt.rename(part, path)?)
                } else {
                    Err(CommandError::Peer(PeerError::JournalNotEmpty))
                }
            }
            _ => Err(CommandError::from(error)),
        },
    }
}

// Writes a new file at the path `part`, which then gets the other name, and brings the folder to the disk.
fn write_and_name<D: Folders>(
    rt: &D,
    part: &str,
    path: &str,
    mode: Permissions,
    bytes: &[u8],
) -> Result<(), CommandError>
    ensures { OnOk result (D.saw rt.now (WasLeft path.now bytes.now)) }
{
    write_and_sync(rt, part, mode, bytes)?;
    name_new(rt, part, path)?;
    rt.remove(part);
    rt.sync_folder(path)
}

/// Makes a new file at the path of these bytes, with the mode of the file at the path `like`. A crash leaves none, or the
/// whole. What is there already, whatever it is, is refused as `JournalNotEmpty`, and stays.
pub fn put_new<D: Folders>(rt: &D, path: &str, like: &str, bytes: &[u8]) -> Result<(), CommandError>
    ensures { OnOk result (D.saw rt.now (WasLeft path.now bytes.now)) }
{
    if !rt.is_absent(path)? {
        return Err(CommandError::Peer(PeerError::JournalNotEmpty));
    }
    let mode = mode_of(rt, like)?;
    let part = rt.name_beside(path)?;
    let put = write_and_name(rt, part.as_str(), path, mode, bytes);
    if put.is_err() {
        rt.remove(part.as_str());
    }
    put
}
