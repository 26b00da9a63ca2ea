//! Calls that succeed until none is left.

ghost use Rattle.std.specs.Prelude.{◌≤◌, IfOk};

use std::cell::Cell;
use std::io;
use std::io::ErrorKind;

/// How many calls succeed, or how many bytes are taken; all after them fail.
#[derive(Drop)]
pub struct Budget {
    left: Cell<u64>,
    fault: ErrorKind,
}

impl Budget {
    /// `left` calls succeed; the others find no room.
    pub fn new(left: u64) -> Budget {
        Budget::failing(left, ErrorKind::StorageFull)
    }

    /// `left` calls succeed; the others fail so.
    pub fn failing(left: u64, fault: ErrorKind) -> Budget {
        Budget {
            left: Cell::new(left),
            fault,
        }
    }

    /// Spends a call, and fails where none is left.
    pub fn spend(&self) -> io::Result<()> {
        match self.left.get().checked_sub(1) {
            Some(left) => {
                self.left.set(left);
                Ok(())
            }
            None => Err(io::Error::from(self.fault)),
        }
    }

    /// How many of `len` bytes are taken, which are then spent; it fails where none is left.
    pub fn take(&self, len: usize) -> io::Result<usize>
        ensures { IfOk result (λ taken. taken ≤ len) }
    {
        let left = self.left.get();
        if left == 0 {
            return Err(io::Error::from(self.fault));
        }
        self.left.set(left.saturating_sub(len as u64));
        if left < len as u64 {
            return Ok(left as usize);
        }
        Ok(len)
    }
}
