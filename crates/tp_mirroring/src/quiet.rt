//! Reading a file that others write.

ghost use Rattle.std.specs.Prelude.{IfOk};
ghost use Rattle.tp_mirroring.specs.Seeing.{IsContentOf};

use std::time::{Clock, SystemTime};
use tp_commands::CommandError;
use tp_disk::{Disk, Found, Stamp};

// How long nothing was written to a file before it is read, in nanoseconds: 1 s.
const QUIET: u64 = 1_000_000_000;

/// How long it is where the text is under half of the journal's, or has no byte: 10 s.
pub(crate) const LONG_QUIET: u64 = 10_000_000_000;

// How long nobody wrote to a file that was moved away before it is removed, in nanoseconds: 10 minutes.
const LEFT: u64 = 600_000_000_000;

/// What was read of a file.
#[derive(Drop)]
pub(crate) enum Content {
    /// Nothing is there.
    Absent,
    /// It was changed while it was read.
    Torn,
    /// Its bytes, and how long ago it was written, in nanoseconds.
    Bytes(Vec<u8>, u64),
}

/// The time, in nanoseconds since 1970. Before it is 0.
pub(crate) fn now<C: Clock>(rt: &C) -> Result<u64, CommandError> {
    match SystemTime::now(rt) {
        Ok(now) => match now.duration_since(SystemTime::UNIX_EPOCH) {
            Ok(since) => Ok(u64::try_from(since.as_nanos()).unwrap_or(u64::MAX)),
            Err(_) => Ok(0),
        },
        Err(error) => Err(CommandError::from(error)),
    }
}

// How long ago something was, in nanoseconds. What is to come by more than a second is as old as can be, so that a clock that
// went back blocks nobody.
fn age(now: u64, then: u64) -> u64 {
    match now.checked_sub(then) {
        Some(age) => age,
        None => { if then - now < QUIET { 0 } else { u64::MAX } }
    }
}

// All bytes of the file at the path, where it wasn't changed meanwhile.
fn whole_content<D: Disk + Clock>(rt: &D, path: &str) -> Result<Content, CommandError>
    ensures { IfOk result (IsContentOf (D.saw rt.now) path.now) }
{
    let before = rt.stamp(path);
    let read = rt.read(path);
    match rt.stamp(path) {
        Some(stamp) if before == Some(stamp) => {
            let bytes = read?;
            Ok(Content::Bytes(bytes, age(now(rt)?, stamp.write_time())))
        }
        _ => Ok(Content::Torn),
    }
}

/// All bytes of the file at the path, where it wasn't changed meanwhile. What is no regular file is refused as `Io`.
pub(crate) fn content_of<D: Disk + Clock>(rt: &D, path: &str) -> Result<Content, CommandError>
    ensures { IfOk result (IsContentOf (D.saw rt.now) path.now) }
{
    match rt.find(path)? {
        Found::File(_) => whole_content(rt, path),
        Found::Other(_) => Err(CommandError::Io),
        Found::Nothing => Ok(Content::Absent),
    }
}

/// How long a file has to be quiet before a text of `count` characters is taken from it, where the journal's has `journal`.
pub(crate) fn patience(count: usize, journal: usize) -> u64 {
    if count < journal / 2 {
        LONG_QUIET
    } else {
        QUIET
    }
}

/// Whether nobody wrote to the file for ten minutes, or gave it another name.
pub(crate) fn is_left(now: u64, stamp: &Stamp) -> bool {
    age(now, stamp.write_time()) >= LEFT && age(now, stamp.note_time()) >= LEFT
}
