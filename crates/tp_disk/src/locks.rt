//! Who has the lock of a file, by what Linux lists.

use tp_commands::Lock;

/// By what the system knows a file.
#[derive(Clone, Copy, PartialEq, Eq)]
pub struct FileId {
    /// The number of its device, as `stat` gives it.
    pub device: u64,
    /// Its inode there.
    pub inode: u64,
}

// The major and the minor number of a device, as Linux puts them into one.
fn device_numbers(device: u64) -> (u64, u64) {
    let major = ((device >> 8) & 0xfff) | ((device >> 32) & 0xffff_f000);
    let minor = (device & 0xff) | ((device >> 12) & 0xffff_ff00);
    (major, minor)
}

// Whether the words, MAJOR:MINOR:INODE, name the file's device, where they name its inode.
fn is_on_device(place: &str, file: FileId) -> Option<bool> {
    let (device, inode) = place.rsplit_once(':')?;
    let (major, minor) = device.split_once(':')?;
    let numbers = (
        u64::from_str_radix(major, 16).ok()?,
        u64::from_str_radix(minor, 16).ok()?,
    );
    if inode.parse::<u64>().ok()? == file.inode {
        Some(numbers == device_numbers(file.device))
    } else {
        None
    }
}

// Who has the lock of a line, where that is one as `flock` takes it, of a file with this inode. Of another device it may be this
// file all the same, since some file systems give a file another device than the one that they are on.
fn holder(line: &str, file: FileId) -> Option<Lock> {
    let mut words = line.split_whitespace();
    let kind = words.nth(1)?;
    let process = words.nth(2)?;
    let is_on_device = is_on_device(words.next()?, file)?;
    if kind != "FLOCK" {
        None
    } else if is_on_device {
        Some(Lock::HeldBy(process.parse::<u32>().ok()?))
    } else {
        Some(Lock::Unknown)
    }
}

/// Who has the lock of the file, by what Linux's `/proc/locks` says.
pub fn lock_in(locks: &[u8], file: FileId) -> Lock {
    let Ok(locks) = str::from_utf8(locks) else {
        return Lock::Unknown;
    };
    let mut lock = Lock::Free;
    for line in locks.lines() {
        match holder(line, file) {
            Some(Lock::Unknown) => lock = Lock::Unknown,
            Some(held) => return held,
            None => {}
        }
    }
    lock
}
