//! The runtime of a run: the files of the folder, and streams that keep what is printed.

use crate::budget::Budget;
use crate::device::Device;
use crate::paths::inside;
use crate::stream::Stream;
use std::alloc::{AllocError, Allocator, Global};
use std::fmt::Display;
use std::fs::{Metadata, OpenOptions};
use std::io;
use std::path::PathBuf;
use std::rt::Files;
use std::time::{Clock, Duration};

/// A runtime over another one, which has the files.
#[derive(Drop)]
pub struct Host<'a, R> {
    /// The other one.
    pub rt: &'a R,
    /// How many calls on files succeed.
    pub device: &'a Budget,
    /// How many bytes the files take.
    pub room: &'a Budget,
    /// The standard output.
    pub out: Stream,
    /// The standard error.
    pub err: Stream,
}

impl<'a, R: AllocGlobal> Host<'a, R> {
    /// The files have these budgets, and the streams never fail.
    pub fn new(rt: &'a R, device: &'a Budget, room: &'a Budget) -> Result<Host<'a, R>, AllocError> {
        Ok(Host {
            rt,
            device,
            room,
            out: Stream::new(rt.alloc(), Budget::new(u64::MAX))?,
            err: Stream::new(rt.alloc(), Budget::new(u64::MAX))?,
        })
    }
}

impl<R: AllocGlobal> Alloc for Host<'_, R> {
    type A = Global;

    fn alloc(&self) -> Global {
        self.rt.alloc()
    }
}

// A clock that is always at its beginning, and on which nobody waits.
impl<R> Clock for Host<'_, R> {
    fn monotonic(&self) -> io::Result<Duration> {
        Ok(Duration::from_secs(0))
    }

    fn since_1970(&self) -> io::Result<Duration> {
        Ok(Duration::from_secs(0))
    }
}

impl<R> Print for Host<'_, R> {
    fn print<D: Display + Drop>(&self, value: D) -> io::Result<()> {
        self.out.put(value)
    }

    fn println<D: Display + Drop>(&self, value: D) -> io::Result<()> {
        self.out.put(value)?;
        self.out.put_bytes(b"\n")
    }

    fn write_all(&self, bytes: &[u8]) -> io::Result<()> {
        self.out.put_bytes(bytes)
    }
}

impl<R> Eprint for Host<'_, R> {
    fn eprint<D: Display + Drop>(&self, value: D) -> io::Result<()> {
        self.err.put(value)
    }

    fn eprintln<D: Display + Drop>(&self, value: D) -> io::Result<()> {
        self.err.put(value)?;
        self.err.put_bytes(b"\n")
    }
}

impl<'a, R: Files + AllocGlobal> Files for Host<'a, R> {
    type File = Device<'a, R::File>;

    type Dir = R::Dir;

    fn open_file(&self, how: &OpenOptions, path: &str) -> io::Result<Device<'a, R::File>> {
        self.device.spend()?;
        let path = inside(self.rt.alloc(), path)?;
        let file = self.rt.open_file(how, path.as_str())?;
        Ok(Device {
            file,
            budget: self.device,
            room: self.room,
        })
    }

    fn open_dir(&self, path: &str) -> io::Result<R::Dir> {
        self.rt.open_dir(path)
    }

    fn metadata(&self, path: &str) -> io::Result<Metadata> {
        self.device.spend()?;
        let path = inside(self.rt.alloc(), path)?;
        self.rt.metadata(path.as_str())
    }

    fn symlink_metadata(&self, path: &str) -> io::Result<Metadata> {
        self.device.spend()?;
        let path = inside(self.rt.alloc(), path)?;
        self.rt.symlink_metadata(path.as_str())
    }

    fn read_link<B: Allocator>(&self, alloc: B, path: &str) -> io::Result<PathBuf<B>> {
        self.device.spend()?;
        let path = inside(self.rt.alloc(), path)?;
        self.rt.read_link(alloc, path.as_str())
    }

    fn copy(&self, from: &str, to: &str) -> io::Result<u64> {
        self.rt.copy(from, to)
    }

    fn rename(&self, from: &str, to: &str) -> io::Result<()> {
        self.device.spend()?;
        let from = inside(self.rt.alloc(), from)?;
        let to = inside(self.rt.alloc(), to)?;
        self.rt.rename(from.as_str(), to.as_str())
    }

    fn hard_link(&self, original: &str, link: &str) -> io::Result<()> {
        self.device.spend()?;
        let original = inside(self.rt.alloc(), original)?;
        let link = inside(self.rt.alloc(), link)?;
        self.rt.hard_link(original.as_str(), link.as_str())
    }

    fn remove_file(&self, path: &str) -> io::Result<()> {
        let path = inside(self.rt.alloc(), path)?;
        self.rt.remove_file(path.as_str())
    }

    fn create_dir(&self, path: &str) -> io::Result<()> {
        self.rt.create_dir(path)
    }

    fn remove_dir(&self, path: &str) -> io::Result<()> {
        self.rt.remove_dir(path)
    }

    fn remove_dir_all<B: Allocator>(&self, alloc: B, path: &str) -> io::Result<()> {
        self.rt.remove_dir_all(alloc, path)
    }
}
