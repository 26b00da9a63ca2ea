//! Files of the system by their paths, for who isn't given the process: a function that C calls has no runtime.

ghost use Rattle.std.specs.Prelude.{◌≤◌, IfOk};

use crate::lock::Lockable;
use crate::place::Place;
use libc::{LOCK_EX, LOCK_NB, O_APPEND, O_CREAT, O_EXCL, O_RDONLY, O_RDWR, O_TRUNC, O_WRONLY};
use os::FromRawFd;
use std::alloc::{AllocError, Allocator, Global};
use std::fs::{Metadata, OpenFile, OpenOptions};
use std::io;
use std::io::{ErrorKind, Read, Seek, SeekFrom, Write};
use std::os::fd::{AsRawFd, OwnedFd};
use std::rt::Files;

/// An open file of the system. It is closed where it is dropped.
#[derive(Drop)]
pub struct SystemFile {
    fd: OwnedFd,
}

/// The files of the system. They are opened, and nothing else is done by a path: every other call is refused as
/// `Unsupported`.
#[derive(Clone, Copy)]
pub struct SystemFiles;

// Why the last call of the C library failed.
fn last_error() -> io::Error {
    io::Error::from_raw_os_error(os::errno())
}

fn unsupported_error() -> io::Error {
    io::Error::from(ErrorKind::Unsupported)
}

// A call on an open file that answers 0 or -1.
#[derive(Clone, Copy)]
enum FileCall {
    SetLen(i64),
    SyncAll,
    SyncData,
    TryLock,
}

fn call_once(fd: i32, call: FileCall) -> i32 {
    match call {
        FileCall::SetLen(len) => libc::ftruncate(fd, len),
        FileCall::SyncAll => libc::fsync(fd),
        FileCall::SyncData => libc::fdatasync(fd),
        FileCall::TryLock => libc::flock(fd, LOCK_EX | LOCK_NB),
    }
}

impl SystemFile {
    // Makes the call, and again where a signal interrupts it.
    fn call(&self, call: FileCall) -> io::Result<()> {
        for _ in 0..u64::MAX {
            if call_once(self.fd.as_raw_fd(), call) >= 0 {
                return Ok(());
            }
            let error = last_error();
            if error.kind() != ErrorKind::Interrupted {
                return Err(error);
            }
        }
        Err(io::Error::from(ErrorKind::Interrupted))
    }
}

// How many bytes a call moved that was given `most`; it answers -1 where it fails.
fn moved_bytes(count: isize, most: usize) -> io::Result<usize>
    ensures { IfOk result (λ n. n ≤ most) }
{
    if count < 0 {
        Err(last_error())
    } else {
        Ok((count as usize).min(most))
    }
}

impl Read for SystemFile {
    fn read(&mut self, buf: &mut [u8]) -> io::Result<usize> {
        let most = buf.len();
        moved_bytes(libc::read(self.fd.as_raw_fd(), buf), most)
    }
}

impl Write for SystemFile {
    fn write(&mut self, buf: &[u8]) -> io::Result<usize> {
        moved_bytes(libc::write(self.fd.as_raw_fd(), buf), buf.len())
    }

    fn flush(&mut self) -> io::Result<()> {
        Ok(())
    }
}

impl Seek for SystemFile {
    fn seek(&mut self, to: SeekFrom) -> io::Result<u64> {
        let (offset, whence) = match to {
            SeekFrom::Start(at) => (at.cast_signed(), libc::SEEK_SET),
            SeekFrom::End(offset) => (offset, libc::SEEK_END),
            SeekFrom::Current(offset) => (offset, libc::SEEK_CUR),
        };
        let at = libc::lseek(self.fd.as_raw_fd(), offset, whence);
        if at < 0 {
            Err(last_error())
        } else {
            Ok(at.cast_unsigned())
        }
    }
}

impl Lockable for SystemFile {
    ghost is_locked = { λ _. Unit {0} };

    fn take_lock(&self) -> io::Result<bool> {
        match self.call(FileCall::TryLock) {
            Ok(()) => Ok(true),
            Err(error) if error.kind() == ErrorKind::WouldBlock => Ok(false),
            Err(error) => Err(error),
        }
    }

    fn place(&self, alloc: Global) -> Result<Place, AllocError> {
        Place::of(alloc, self.fd.as_raw_fd())
    }
}

impl OpenFile for SystemFile {
    fn metadata(&self) -> io::Result<Metadata> {
        Err(unsupported_error())
    }

    fn set_len(&self, size: u64) -> io::Result<()> {
        match i64::try_from(size) {
            Ok(len) => self.call(FileCall::SetLen(len)),
            Err(_) => Err(io::Error::from(ErrorKind::InvalidInput)),
        }
    }

    fn sync_all(&self) -> io::Result<()> {
        self.call(FileCall::SyncAll)
    }

    fn sync_data(&self) -> io::Result<()> {
        self.call(FileCall::SyncData)
    }
}

// The flags of C's `open` for how a file is to be read and written.
fn access_of(how: &OpenOptions) -> i32 {
    let writes = how.asks_write() || how.asks_append();
    let appends = if how.asks_append() { O_APPEND } else { 0 };
    match (how.asks_read(), writes) {
        (true, true) => O_RDWR | appends,
        (false, true) => O_WRONLY | appends,
        _ => O_RDONLY,
    }
}

// And for how it is to be made or emptied.
fn creation_of(how: &OpenOptions) -> i32 {
    if how.asks_create_new() {
        return O_CREAT | O_EXCL;
    }
    let creates = if how.asks_create() { O_CREAT } else { 0 };
    let empties = if how.asks_truncate() { O_TRUNC } else { 0 };
    creates | empties
}

impl Files for SystemFiles {
    type File = SystemFile;

    type Dir = SystemFile;

    fn open_file(&self, how: &OpenOptions, path: &str) -> io::Result<SystemFile> {
        how.check()?;
        let flags = access_of(how) | creation_of(how);
        for _ in 0..u64::MAX {
            let fd = os::open_with(path.as_bytes(), flags, 0o666);
            if fd >= 0 {
                let fd = unsafe { OwnedFd::from_raw_fd(fd) };
                return Ok(SystemFile { fd });
            }
            let error = last_error();
            if error.kind() != ErrorKind::Interrupted {
                return Err(error);
            }
        }
        Err(io::Error::from(ErrorKind::Interrupted))
    }

    fn open_dir(&self, _path: &str) -> io::Result<SystemFile> {
        Err(unsupported_error())
    }

    fn metadata(&self, _path: &str) -> io::Result<Metadata> {
        Err(unsupported_error())
    }

    fn symlink_metadata(&self, _path: &str) -> io::Result<Metadata> {
        Err(unsupported_error())
    }

    fn copy(&self, _from: &str, _to: &str) -> io::Result<u64> {
        Err(unsupported_error())
    }

    fn rename(&self, _from: &str, _to: &str) -> io::Result<()> {
        Err(unsupported_error())
    }

    fn remove_file(&self, _path: &str) -> io::Result<()> {
        Err(unsupported_error())
    }

    fn create_dir(&self, _path: &str) -> io::Result<()> {
        Err(unsupported_error())
    }

    fn remove_dir(&self, _path: &str) -> io::Result<()> {
        Err(unsupported_error())
    }

    fn remove_dir_all<B: Allocator>(&self, _alloc: B, _path: &str) -> io::Result<()> {
        Err(unsupported_error())
    }
}
