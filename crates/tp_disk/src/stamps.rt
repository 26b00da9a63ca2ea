//! Whether a file was changed.

use crate::locks::FileId;
use std::fs::Metadata;
use std::os::unix::fs::MetadataExt;

/// By what a file is known to be as it was: which one it is, how long, and when the system last wrote it or noted anything of it,
/// in seconds since 1970 and nanoseconds. A clock of the system goes by milliseconds, so two writes within one that leave the
/// same length look alike.
#[derive(Clone, Copy, PartialEq, Eq)]
pub struct Stamp {
    file: FileId,
    length: u64,
    modified: (i64, i64),
    changed: (i64, i64),
}

// Nanoseconds since 1970, of seconds and nanoseconds; 0 where they were before.
fn nanoseconds_of(time: (i64, i64)) -> u64 {
    let (seconds, nanos) = time;
    let seconds = u64::try_from(seconds).unwrap_or(0);
    let nanos = u64::try_from(nanos).unwrap_or(0);
    seconds.saturating_mul(1_000_000_000).saturating_add(nanos)
}

impl Stamp {
    /// That of the file whose metadata these are.
    pub(crate) fn of(found: &Metadata) -> Stamp {
        Stamp {
            file: FileId {
                device: found.dev(),
                inode: found.ino(),
            },
            length: found.size(),
            modified: (found.mtime(), found.mtime_nsec()),
            changed: (found.ctime(), found.ctime_nsec()),
        }
    }

    /// When the system last wrote the file, in nanoseconds since 1970; 0 where that was before.
    pub fn write_time(&self) -> u64 {
        nanoseconds_of(self.modified)
    }

    /// When the system last wrote it or noted anything of it, likewise.
    pub fn note_time(&self) -> u64 {
        nanoseconds_of(self.changed)
    }

    /// Whether this is the same file as then, and no shorter.
    pub fn is_kept_of(&self, then: &Stamp) -> bool {
        self.file == then.file && self.length >= then.length
    }
}
