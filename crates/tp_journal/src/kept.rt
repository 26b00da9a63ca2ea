//! What is kept of the content of a file beneath a journal.

ghost use Rattle.std.specs.Prelude.{◌≡◌, ◌≤◌, ℕ, List, [], ◌++◌, length, take, false, OnOk, OnErr, IfOk, IfSome, IsTrue};
ghost use Rattle.tp_journal.specs.Calls.{AsksOnce, IsCut, IsSync, IsAllSynced, IsWrite, file_content};

use crate::beneath::JournalFile;
use crate::error::JournalError;
use std::alloc::AllocError;
use std::marker::Model;
use tp_ghost::GhostBytes;

/// A file, what was read of it, how many bytes it has, a copy of these, where one is held, and whether a sync failed. Bytes
/// that have no copy are nowhere in memory.
///
/// Contracts see what was asked of the file.
pub(crate) struct Kept<F: JournalFile + Drop> {
    file: F,
    opened: GhostBytes,
    len: u64,
    copy: Option<Vec<u8>>,
    fails: bool,
}

impl<F: JournalFile + Drop> Drop for Kept<F> {
    fn drop(self) {
        let Kept {
            file: _,
            opened: _,
            len: _,
            copy: _,
            fails: _,
        } = self;
    }
}

impl<F: JournalFile + Drop> Model for Kept<F> {
    ghost use Rattle.std.specs.Prelude.{◌≡◌, length, IfSome};
    ghost use Rattle.tp_journal.specs.Calls.{FileCalls, content_after, fails_sync};

    ghost Value = { FileCalls };

    ghost view = { λ k. record { opened = k.opened.bytes; calls = F.calls k.file } };

    ghost invariant = { λ k. (k.len ≡ length (content_after k.opened.bytes (F.calls k.file)))
        × IfSome k.copy (λ copy. copy.items ≡ content_after k.opened.bytes (F.calls k.file))
        × (k.fails ≡ fails_sync (F.calls k.file)) };
}

// Puts the bytes after those of a copy, if one is held.
fn extend(copy: &mut Option<Vec<u8>>, bytes: &[u8]) -> Result<(), AllocError>
    ensures ok { OnOk result ((content : List ℕ) → IfSome copy.old (λ c. c.items ≡ content)
        → IfSome copy.new (λ c. c.items ≡ content ++ bytes.now)) }
    ensures err { OnErr result ((content : List ℕ) → IfSome copy.old (λ c. c.items ≡ content)
        → IfSome copy.new (λ c. c.items ≡ content)) }
{
    match copy {
        Some(copy) => copy.extend_from_slice(bytes),
        None => Ok(()),
    }
}

// Cuts a copy to `len` bytes, if one is held.
fn truncate(copy: &mut Option<Vec<u8>>, len: u64)
    ensures { (content : List ℕ) → IfSome copy.old (λ c. c.items ≡ content)
        → IfSome copy.new (λ c. c.items ≡ take len content) }
{
    if let Some(copy) = copy {
        copy.truncate(len as usize);
    }
}

impl<F: JournalFile + Drop> Kept<F> {
    /// A file that was just opened, and of whose bytes this is the copy that is held.
    pub(crate) fn with_copy(file: F, copy: Vec<u8>) -> Kept<F>
        requires { F.calls file ≡ [] }
        ensures { result ≡ record { opened = copy.items; calls = [] } }
    {
        Kept {
            file,
            opened: GhostBytes::of(copy.as_slice()),
            len: copy.len() as u64,
            copy: Some(copy),
            fails: false,
        }
    }

    /// A file that was just opened and has `len` bytes; no copy of them is held.
    pub(crate) fn with_len(file: F, opened: GhostBytes, len: u64) -> Kept<F>
        requires calls { F.calls file ≡ [] }
        requires len { len ≡ length opened.bytes }
        ensures { result ≡ record { opened = opened.bytes; calls = [] } }
    {
        Kept {
            file,
            opened,
            len,
            copy: None,
            fails: false,
        }
    }

    /// How many bytes the file has.
    pub(crate) fn len(&self) -> u64
        ensures { result ≡ length (file_content self.now) }
    {
        self.len
    }

    /// Writes the bytes, once, at the end of the file. How many were taken, which the file has then; none of more bytes than
    /// a number of 64 bits counts.
    pub(crate) fn write(&mut self, bytes: &[u8]) -> Result<usize, AllocError>
        ensures asks { AsksOnce (IsWrite bytes.now) self.old self.new }
        ensures ok { IfOk result (λ count. (count ≤ length bytes.now)
            × (file_content self.new ≡ file_content self.old ++ take count bytes.now)) }
        ensures err { OnErr result (self.new ≡ self.old) }
    {
        if bytes.len() as u64 > u64::MAX - self.len {
            return Ok(0);
        }
        match extend(&mut self.copy, bytes) {
            Ok(()) => {}
            Err(error) => return Err(error),
        }
        let count = self.file.write(bytes);
        self.len += count as u64;
        truncate(&mut self.copy, self.len);
        Ok(count)
    }

    /// Cuts the file to `len` bytes, which it has. Whether that was done.
    pub(crate) fn cut(&mut self, len: u64) -> bool
        requires { len ≤ length (file_content self.old) }
        ensures asks { AsksOnce (IsCut len) self.old self.new }
        ensures done { IsTrue result → file_content self.new ≡ take len (file_content self.old) }
        ensures stays { result ≡ false → file_content self.new ≡ file_content self.old }
    {
        let done = self.file.cut(len);
        if done {
            self.len = len;
            truncate(&mut self.copy, len);
        }
        done
    }

    /// Brings the file to the disk. Whether that was done; after one sync that failed none is.
    pub(crate) fn sync(&mut self) -> bool
        ensures asks { AsksOnce IsSync self.old self.new }
        ensures done { IsTrue result → IsAllSynced self.new }
        ensures stays { file_content self.new ≡ file_content self.old }
    {
        if self.fails {
            return false;
        }
        let done = self.file.sync();
        self.fails = !done;
        done
    }

    /// Whether the file is still where it was opened, and no shorter than its content.
    pub(crate) fn is_there(&self) -> bool {
        self.file.is_there(self.len)
    }

    /// A copy of what the file has. `Io` where none is held, else `OutOfMemory`.
    pub(crate) fn read(&self) -> Result<Vec<u8>, JournalError>
        ensures { IfOk result (λ bytes. bytes.items ≡ file_content self.now) }
    {
        match &self.copy {
            Some(copy) => match Vec::from_slice(*copy.allocator(), copy.as_slice()) {
                Ok(bytes) => Ok(bytes),
                Err(_) => Err(JournalError::OutOfMemory),
            },
            None => Err(JournalError::Io),
        }
    }
}
