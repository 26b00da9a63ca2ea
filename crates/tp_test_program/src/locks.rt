//! The locks of files, as the system lists them.

use crate::lines::meaning_of;
use tp_commands::Lock;
use tp_disk::{FileId, lock_in};
use tp_test_runner::{Fault, Shelf, Words, number};

/// `lock DEVICE INODE TEXT`: who has the lock of the file with that inode on that device, both in decimal, where the text is what
/// the system lists: `held N`, `free` or `unknown`.
pub fn lock_of(names: &Shelf<String>, words: &mut Words) -> Result<String, Fault> {
    let file = FileId {
        device: number(words.next()?)?,
        inode: number(words.next()?)?,
    };
    let listed = meaning_of(names, words.next()?)?;
    words.end()?;
    Ok(match lock_in(listed.as_str().as_bytes(), file) {
        Lock::HeldBy(process) => format!(in names.alloc(); "held {process}")?,
        Lock::Free => String::from_str(names.alloc(), "free")?,
        Lock::Unknown => String::from_str(names.alloc(), "unknown")?,
    })
}
