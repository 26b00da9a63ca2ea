//! The file beneath a journal.

ghost use Rattle.std.specs.Prelude.{◌≡◌, ◌≤◌, ◌+◌, Option, List, ℕ, [], ◌∷◌, ◌++◌, length, take, IfOk, IfSome, OnOk};
ghost use Rattle.std.specs.Io.KnownBytes.{Appends};
ghost use Rattle.tp_journal.specs.declared.calls.FileCall.{FileCall};
ghost use Rattle.tp_journal.specs.declared.calls.FileCall.TheVariants.{Write as Wrote, Cut, Sync};

use crate::calls::{Calls, FileCall};
use crate::opening::OpenError;
use std::alloc::Global;
use std::fs::OpenFile;
use std::io;
use std::io::{ErrorKind, Read, Write};
use tp_file::{Lockable, Place};
use tp_ghost::GhostBytes;
use tp_recovery::Recovering;
use tp_rga::Sequence;

/// A file that is appended to, cut and brought to the disk.
///
/// Contracts see what was asked of it: its calls with their answers, the last one first. What the system does when it is asked
/// is outside of them.
pub(crate) trait JournalFile {
    ghost calls: { Self → List FileCall };

    /// The bytes that were written to it, where they are known.
    ghost written: { Self → Option (List ℕ) };

    /// Writes the bytes at its end, once. How many were taken: none where it was refused.
    fn write(&mut self, bytes: &[u8]) -> usize
        ensures bound { result ≤ length bytes.now }
        ensures asks { calls self.new ≡ Wrote (record { bytes = bytes.now }) result ∷ calls self.old }
        ensures written { Appends (written self.old) (written self.new) (take result bytes.now) };

    /// Cuts it to `len` bytes. Whether that was done.
    fn cut(&mut self, len: u64) -> bool
        ensures { calls self.new ≡ Cut len result ∷ calls self.old };

    /// Brings it to the disk. Whether that was done.
    fn sync(&mut self) -> bool
        ensures { calls self.new ≡ Sync result ∷ calls self.old };

    /// Whether it is still where it was opened, and has at least `least` bytes.
    fn is_there(&self, least: u64) -> bool;
}

/// An open file of the system, and its calls: each of its functions makes one call of the file, and keeps that with its answer.
/// That it makes the calls that it keeps no clause can say, of a write excepted: std's contracts say nothing of the others. So
/// nothing else has the file once it is opened.
pub(crate) struct CalledFile<F: Write + OpenFile + Drop> {
    file: F,
    place: Place,
    calls: Calls,
}

impl<F: Write + OpenFile + Drop> Drop for CalledFile<F> {
    fn drop(self) {
        let CalledFile {
            file: _,
            place: _,
            calls: _,
        } = self;
    }
}

impl<F: Write + OpenFile + Drop> CalledFile<F> {
    /// An open file, and where it is. Nothing was asked of it yet but its bytes.
    pub(crate) fn of(file: F, place: Place) -> CalledFile<F>
        ensures { result.calls.list ≡ [] }
    {
        CalledFile {
            file,
            place,
            calls: Calls::none(),
        }
    }
}

impl<F: Write + OpenFile + Lockable + Drop> CalledFile<F> {
    /// Takes the file's lock. `Busy` where another has it. `Io` where the file was removed from the path, or another one put
    /// there, between its opening and its lock.
    pub(crate) fn lock(&self, path: &str) -> Result<(), OpenError>
        ensures { OnOk result (F.is_locked self.now.file) }
    {
        if !self.file.take_lock()? {
            return Err(OpenError::Busy);
        }
        if self.place.was_removed(path) || !self.place.is_there() {
            return Err(OpenError::Io);
        }
        Ok(())
    }
}

impl<F: Read + Write + OpenFile + Drop> CalledFile<F> {
    /// All that is left to read of the file.
    pub(crate) fn read_whole(&mut self, alloc: Global) -> io::Result<Vec<u8>>
        ensures calls { self.new.calls.list ≡ self.old.calls.list }
        ensures whole { IfOk result
            (λ bytes. IfSome (F.remaining self.old.file) (λ held. bytes.items ≡ held)) }
    {
        let mut bytes = Vec::new(alloc);
        self.file.read_to_end(&mut bytes)?;
        Ok(bytes)
    }

    /// Feeds all that is left to read of the file, by pieces. How many bytes it was.
    pub(crate) fn read_into<S: Sequence>(
        &mut self,
        recovering: &mut Recovering<S>,
    ) -> io::Result<u64>
        ensures calls { self.new.calls.list ≡ self.old.calls.list }
        ensures count { IfOk result
            (λ count. length recovering.new ≡ length recovering.old + count) }
        ensures whole { OnOk result (IfSome (F.remaining self.old.file)
            (λ held. recovering.new ≡ recovering.old ++ held)) }
    {
        let count = io::copy(&mut self.file, recovering)?;
        if count == u64::MAX {
            return Err(io::Error::from(ErrorKind::FileTooLarge));
        }
        Ok(count)
    }
}

// Writes the bytes, once. How many were taken: none where the writer failed.
fn write_once<W: Write>(writer: &mut W, bytes: &[u8]) -> usize
    ensures bound { result ≤ length bytes.now }
    ensures written { Appends (W.contents writer.old) (W.contents writer.new) (take result bytes.now) }
{
    match writer.write(bytes) {
        Ok(count) => count,
        Err(_) => 0,
    }
}

impl<F: Write + OpenFile + Drop> JournalFile for CalledFile<F> {
    ghost calls = { λ f. f.calls.list };

    ghost written = { λ f. F.contents f.file };

    fn write(&mut self, bytes: &[u8]) -> usize {
        let taken = write_once(&mut self.file, bytes);
        let call = FileCall::Write(GhostBytes::of(bytes), taken);
        self.calls = Calls::with(&self.calls, &call);
        taken
    }

    fn cut(&mut self, len: u64) -> bool {
        let done = self.file.set_len(len).is_ok();
        self.calls = Calls::with(&self.calls, &FileCall::Cut(len, done));
        done
    }

    fn sync(&mut self) -> bool {
        let done = self.file.sync_data().is_ok();
        self.calls = Calls::with(&self.calls, &FileCall::Sync(done));
        done
    }

    fn is_there(&self, least: u64) -> bool {
        self.place.is_kept(least)
    }
}
