//! A journal in memory.

ghost use Rattle.std.specs.Prelude.{◌≡◌, ◌++◌, length, take, IsOk, OnOk, OnErr, IfOk, IsOkUnless};
ghost use Rattle.tp_journal.specs.Journal.{no_device};
ghost use Rattle.tp_journal.specs.declared.error.JournalError.TheVariants.{OutOfMemory};

use crate::error::JournalError;
use crate::journal::Journal;
use std::marker::Model;

/// A journal in memory. It has no device that could fail: its failures are none for ever, and its calls are refused as
/// `OutOfMemory` alone.
///
/// Contracts see its content.
#[derive(Drop)]
pub struct MemJournal {
    bytes: Vec<u8>,
}

impl Model for MemJournal {
    ghost use Rattle.std.specs.Prelude.{ℕ, List};

    ghost Value = { List ℕ };

    ghost view = { λ j. j.bytes.items };
}

impl MemJournal {
    /// A journal with these bytes as its content. No memory.
    pub fn new(bytes: Vec<u8>) -> MemJournal
        ensures { result ≡ bytes.items }
    {
        MemJournal { bytes }
    }

    /// How many bytes the content has.
    pub(crate) fn len(&self) -> u64
        ensures { result ≡ length self.now }
    {
        self.bytes.len() as u64
    }

    /// The content. No memory.
    pub fn into_vec(self) -> Vec<u8>
        ensures { result.items ≡ self }
    {
        self.bytes
    }
}

impl Journal for MemJournal {
    ghost content = { λ j. j };

    ghost device = { λ _. no_device };

    ghost is_settled = { λ _. Unit {0} };

    fn append(&mut self, bytes: &[u8]) -> Result<(), JournalError>
        ensures ok { OnOk result (self.new ≡ self.old ++ bytes.now) }
        ensures err { OnErr result (self.new ≡ self.old) }
        ensures only { IsOkUnless result OutOfMemory }
    {
        match self.bytes.extend_from_slice(bytes) {
            Ok(()) => Ok(()),
            Err(_) => Err(JournalError::OutOfMemory),
        }
    }

    fn settle(&mut self) -> Result<(), JournalError>
        ensures stays { self.new ≡ self.old }
        ensures settled { IsOk result }
    {
        Ok(())
    }

    fn cut(&mut self, len: u64) -> Result<(), JournalError>
        ensures cut { self.new ≡ take len self.old }
        ensures always { IsOk result }
    {
        self.bytes.truncate(len as usize);
        Ok(())
    }

    fn read_all(&mut self) -> Result<Vec<u8>, JournalError>
        ensures ok { IfOk result (λ bytes. bytes.items ≡ self.old) }
        ensures stays { self.new ≡ self.old }
        ensures only { IsOkUnless result OutOfMemory }
    {
        match Vec::from_slice(*self.bytes.allocator(), self.bytes.as_slice()) {
            Ok(bytes) => Ok(bytes),
            Err(_) => Err(JournalError::OutOfMemory),
        }
    }

    fn failures(&self) -> u64
        ensures { result ≡ 0 }
    {
        0
    }
}
