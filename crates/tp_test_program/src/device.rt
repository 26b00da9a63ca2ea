//! A file whose device fails where a row says so.

use crate::budget::Budget;
use std::alloc::{AllocError, Global};
use std::fs::{Metadata, OpenFile, Permissions};
use std::io;
use std::io::{Read, Seek, SeekFrom, Write};
use tp_journal::{Lockable, Place};

/// An open file. Each of its calls spends one of the device's.
#[derive(Drop)]
pub struct Device<'a, F> {
    /// The file.
    pub file: F,
    /// The calls that the device answers.
    pub budget: &'a Budget,
    /// The bytes that the device takes.
    pub room: &'a Budget,
}

impl<F: Read> Read for Device<'_, F> {
    fn read(&mut self, buf: &mut [u8]) -> io::Result<usize> {
        self.budget.spend()?;
        self.file.read(buf)
    }
}

impl<F: Write> Write for Device<'_, F> {
    fn write(&mut self, buf: &[u8]) -> io::Result<usize> {
        self.budget.spend()?;
        let taken = self.room.take(buf.len())?;
        self.file.write(&buf[..taken])
    }

    fn flush(&mut self) -> io::Result<()> {
        self.file.flush()
    }
}

impl<F: Seek> Seek for Device<'_, F> {
    fn seek(&mut self, to: SeekFrom) -> io::Result<u64> {
        self.budget.spend()?;
        self.file.seek(to)
    }
}

impl<F: OpenFile> OpenFile for Device<'_, F> {
    fn metadata(&self) -> io::Result<Metadata> {
        self.file.metadata()
    }

    fn set_len(&self, size: u64) -> io::Result<()> {
        self.budget.spend()?;
        self.file.set_len(size)
    }

    fn sync_all(&self) -> io::Result<()> {
        self.budget.spend()?;
        self.file.sync_all()
    }

    fn sync_data(&self) -> io::Result<()> {
        self.budget.spend()?;
        self.file.sync_data()
    }

    fn set_permissions(&self, mode: Permissions) -> io::Result<()> {
        self.budget.spend()?;
        self.file.set_permissions(mode)
    }
}

impl<F: Lockable> Lockable for Device<'_, F> {
    ghost is_locked = { λ f. F.is_locked f.file };

    fn take_lock(&self) -> io::Result<bool> {
        self.budget.spend()?;
        self.file.take_lock()
    }

    fn place(&self, alloc: Global) -> Result<Place, AllocError> {
        self.file.place(alloc)
    }
}
