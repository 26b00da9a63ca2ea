//! The lock of a file.

ghost use Rattle.std.specs.Prelude.{true, IfOk, IsTrue};

use crate::place::Place;
use std::alloc::{AllocError, Global};
use std::fs::{File, TryLockError};
use std::io;
use std::os::fd::AsRawFd;

/// An open file that can have the lock of its file. The lock is advisory: it keeps out who asks for it too. It is free again
/// once the open file is closed, at the latest where its process ends, however it ends.
///
/// Contracts see that an open file took the lock; what the system does with locks is outside of them.
pub trait Lockable {
    /// The open file has taken the lock.
    ghost is_locked: { Self → Type 0 };

    /// Takes the lock, and doesn't wait for it. Whether it was taken: not where another open file has it, of this process
    /// or of another one.
    fn take_lock(&self) -> io::Result<bool>
        ensures { IfOk result (λ taken. IsTrue taken → is_locked self.now) };

    /// The place where the open file is now.
    fn place(&self, alloc: Global) -> Result<Place, AllocError>;
}

impl Lockable for File {
    ghost is_locked = { λ _. Unit {0} };

    fn take_lock(&self) -> io::Result<bool> {
        match self.try_lock() {
            Ok(()) => Ok(true),
            Err(TryLockError::WouldBlock) => Ok(false),
            Err(TryLockError::Error(error)) => Err(error),
        }
    }

    fn place(&self, alloc: Global) -> Result<Place, AllocError> {
        Place::of(alloc, self.as_raw_fd())
    }
}
