//! Files on a disk that fails.

ghost use Rattle.std.specs.Prelude.{◌≤◌, IfOk};

use std::alloc::{AllocError, Allocator, Global};
use std::fmt::Display;
use std::fs::{Metadata, OpenFile, OpenOptions};
use std::io;
use std::io::{ErrorKind, Read, Seek, SeekFrom, Write};
use std::net::{Net, SocketAddr};
use std::rt::Files;
use std::sync::Wait;
use std::sync::atomic::{AtomicU64, AtomicUsize, Ordering};
use std::thread::Threads;
use std::time::{Clock, Duration};
use tp_journal::{Lockable, Place};

/// A disk that takes a number of writes whole, then a part of one and none after it, and that brings what it took to
/// its ground a number of times.
#[derive(Drop)]
pub struct Disk {
    writes: AtomicU64,
    part: AtomicUsize,
    syncs: AtomicU64,
}

fn fault() -> io::Error {
    io::Error::from(ErrorKind::StorageFull)
}

// One of the number is spent, if one is left. One thread at a time has the journal, so none comes between.
fn spends(left: &AtomicU64) -> bool {
    match left.load(Ordering::SeqCst).checked_sub(1) {
        Some(less) => {
            left.store(less, Ordering::SeqCst);
            true
        }
        None => false,
    }
}

impl Disk {
    /// `writes` writes, `part` bytes of the next one, `syncs` syncs.
    pub fn new(writes: u64, part: usize, syncs: u64) -> Disk {
        Disk {
            writes: AtomicU64::new(writes),
            part: AtomicUsize::new(part),
            syncs: AtomicU64::new(syncs),
        }
    }

    // How many of the bytes of the next write it takes.
    fn takes(&self, len: usize) -> io::Result<usize>
        ensures { IfOk result (λ n. n ≤ len) }
    {
        if spends(&self.writes) {
            return Ok(len);
        }
        match self.part.swap(0, Ordering::SeqCst) {
            0 => Err(fault()),
            part => Ok(len.min(part)),
        }
    }

    fn syncs(&self) -> io::Result<()> {
        if spends(&self.syncs) {
            Ok(())
        } else {
            Err(fault())
        }
    }
}

/// An open file on the disk.
#[derive(Drop)]
pub struct OnDisk<'a, F> {
    file: F,
    disk: &'a Disk,
}

impl<F: Read> Read for OnDisk<'_, F> {
    fn read(&mut self, buf: &mut [u8]) -> io::Result<usize> {
        self.file.read(buf)
    }
}

impl<F: Write> Write for OnDisk<'_, F> {
    fn write(&mut self, buf: &[u8]) -> io::Result<usize> {
        let count = self.disk.takes(buf.len())?;
        self.file.write(&buf[..count])
    }

    fn flush(&mut self) -> io::Result<()> {
        self.file.flush()
    }
}

impl<F: Seek> Seek for OnDisk<'_, F> {
    fn seek(&mut self, to: SeekFrom) -> io::Result<u64> {
        self.file.seek(to)
    }
}

impl<F: OpenFile> OpenFile for OnDisk<'_, F> {
    fn metadata(&self) -> io::Result<Metadata> {
        self.file.metadata()
    }

    fn set_len(&self, size: u64) -> io::Result<()> {
        self.file.set_len(size)
    }

    fn sync_all(&self) -> io::Result<()> {
        self.disk.syncs()?;
        self.file.sync_all()
    }

    fn sync_data(&self) -> io::Result<()> {
        self.disk.syncs()?;
        self.file.sync_data()
    }
}

impl<F: Lockable> Lockable for OnDisk<'_, F> {
    ghost is_locked = { λ f. F.is_locked f.file };

    fn take_lock(&self) -> io::Result<bool> {
        self.file.take_lock()
    }

    fn place(&self, alloc: Global) -> Result<Place, AllocError> {
        self.file.place(alloc)
    }
}

/// A runtime over another one, all of whose files lie on the disk.
#[derive(Drop)]
pub struct OverDisk<'r, 'd, R> {
    /// The other one.
    pub rt: &'r R,
    /// The disk.
    pub disk: &'d Disk,
}

impl<R: AllocGlobal> Alloc for OverDisk<'_, '_, R> {
    type A = Global;

    fn alloc(&self) -> Global {
        self.rt.alloc()
    }
}

impl<R: Clock> Clock for OverDisk<'_, '_, R> {
    fn monotonic(&self) -> io::Result<Duration> {
        self.rt.monotonic()
    }

    fn since_1970(&self) -> io::Result<Duration> {
        self.rt.since_1970()
    }

    fn sleep(&self, duration: Duration) {
        self.rt.sleep(duration)
    }
}

impl<R: Eprint> Eprint for OverDisk<'_, '_, R> {
    fn eprint<D: Display + Drop>(&self, value: D) -> io::Result<()> {
        self.rt.eprint(value)
    }

    fn eprintln<D: Display + Drop>(&self, value: D) -> io::Result<()> {
        self.rt.eprintln(value)
    }
}

impl<R: Threads> Threads for OverDisk<'_, '_, R> {}

impl<R: Wait> Wait for OverDisk<'_, '_, R> {}

impl<R: Net> Net for OverDisk<'_, '_, R> {
    type Stream = R::Stream;

    type Listener = R::Listener;

    fn bind(&self, addr: SocketAddr) -> io::Result<R::Listener> {
        self.rt.bind(addr)
    }

    fn connect(&self, addr: SocketAddr) -> io::Result<R::Stream> {
        self.rt.connect(addr)
    }

    fn connect_timeout(&self, addr: SocketAddr, timeout: Duration) -> io::Result<R::Stream> {
        self.rt.connect_timeout(addr, timeout)
    }
}

impl<'d, R: Files> Files for OverDisk<'_, 'd, R> {
    type File = OnDisk<'d, R::File>;

    type Dir = R::Dir;

    fn open_file(&self, how: &OpenOptions, path: &str) -> io::Result<OnDisk<'d, R::File>> {
        Ok(OnDisk {
            file: self.rt.open_file(how, path)?,
            disk: self.disk,
        })
    }

    fn open_dir(&self, path: &str) -> io::Result<R::Dir> {
        self.rt.open_dir(path)
    }

    fn metadata(&self, path: &str) -> io::Result<Metadata> {
        self.rt.metadata(path)
    }

    fn symlink_metadata(&self, path: &str) -> io::Result<Metadata> {
        self.rt.symlink_metadata(path)
    }

    fn copy(&self, from: &str, to: &str) -> io::Result<u64> {
        self.rt.copy(from, to)
    }

    fn rename(&self, from: &str, to: &str) -> io::Result<()> {
        self.rt.rename(from, to)
    }

    fn remove_file(&self, path: &str) -> io::Result<()> {
        self.rt.remove_file(path)
    }

    fn create_dir(&self, path: &str) -> io::Result<()> {
        self.rt.create_dir(path)
    }

    fn remove_dir(&self, path: &str) -> io::Result<()> {
        self.rt.remove_dir(path)
    }

    fn remove_dir_all<B: Allocator>(&self, alloc: B, path: &str) -> io::Result<()> {
        self.rt.remove_dir_all(alloc, path)
    }
}
