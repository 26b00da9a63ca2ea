//! Where an open file is.

use std::alloc::{AllocError, Global};

// A path has at most this many bytes.
const MOST: usize = 4096;

// What the system puts after the path of a file that has no name any more.
const REMOVED: &[u8] = b" (deleted)";

/// The place of an open file when this was made: the path by which the system names it (`/proc/self/fd`, proc(5)). The
/// system names it otherwise once it was moved or removed, or another file was put in its place. Where the system doesn't
/// say, since there is no `/proc`, the file counts as there.
///
/// What the system says is in no contract. A file that another program overwrites in its place isn't noticed.
#[derive(Drop)]
pub struct Place {
    fd: i32,
    link: String,
    name: Vec<u8>,
}

// What the link leads to, as far as there is room; nothing where it can't be read.
fn target_of<'a>(link: &str, room: &'a mut [u8]) -> &'a [u8] {
    let count = os::readlink(link.as_bytes(), room);
    if count < 0 {
        &[]
    } else {
        &room[..(count as usize).min(room.len())]
    }
}

impl Place {
    /// The place of the open file with this descriptor.
    pub(crate) fn of(alloc: Global, fd: i32) -> Result<Place, AllocError> {
        let link = format!(in alloc; "/proc/self/fd/{fd}")?;
        let mut room = [0; MOST];
        let name = Vec::from_slice(alloc, target_of(&link, &mut room))?;
        Ok(Place { fd, link, name })
    }

    /// Whether the file that was opened at this path had no name any more. A path that ends as the system marks such a file counts
    /// as one that leads to it.
    pub fn was_removed(&self, path: &str) -> bool {
        self.name.as_slice().ends_with(REMOVED) && !path.as_bytes().ends_with(REMOVED)
    }

    /// Whether the open file is still there. One call of the system.
    pub fn is_there(&self) -> bool {
        let mut room = [0; MOST];
        target_of(&self.link, &mut room) == self.name.as_slice()
    }

    /// Whether the open file is still there, and has at least `least` bytes. Two calls of the system, some microseconds. The
    /// second moves the file's offset to its end.
    pub fn is_kept(&self, least: u64) -> bool {
        self.is_there() && libc::lseek(self.fd, 0, libc::SEEK_END).cast_unsigned() >= least
    }
}
