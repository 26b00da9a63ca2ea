//! A journal in a file.

ghost use Rattle.std.specs.Prelude.{◌≡◌, ◌⊎◌, ◌+◌, [], ◌++◌, length, OnOk, OnErr, IfOk, IfErr, IfSome, IsErrOf, IsOkUnless};
ghost use Rattle.tp_journal.specs.Calls.{AsksOnce, IsSync, IsAllSynced};
ghost use Rattle.tp_journal.specs.Journal.{HasGrown, failing};
ghost use Rattle.tp_recovery.specs.Recovery.{HasTail, Recovers};
ghost use Rattle.tp_recovery.specs.Refusals.{IsJournalFault};
ghost use Rattle.tp_journal.specs.declared.error.JournalError.TheVariants.{Io};
ghost use Rattle.tp_store.specs.declared.error.StoreError.TheVariants.{OutOfMemory as Lack};

use crate::beneath::CalledFile;
use crate::error::JournalError;
use crate::journal::Journal;
use crate::kept::Kept;
use crate::opening::OpenError;
use std::alloc::Global;
use std::fs::{OpenFile, OpenOptions};
use std::io::{Read, Write};
use std::marker::Model;
use std::rt::Files;
use tp_file::Lockable;
use tp_ghost::GhostBytes;
use tp_recovery::{Recovered, Recovering};
use tp_rga::Sequence;
use tp_store::StoreError;

/// A journal in a file. Its content is what it read at opening and what its writes and cuts make of that: that the file
/// agrees with it is a matter of the device. It has the file's lock from its opening on until it ends, so no other journal is
/// opened on the file meanwhile, in this process or in another one.
///
/// Each append is one write at the end of the file. A write that took fewer bytes than it was given is a failure of the
/// device, and the content has what it took. What was written is on the disk once [`sync`](FileJournal::sync) has
/// answered Ok.
///
/// A copy of the content is held in memory by one that [`at`](FileJournal::at) opened, and none by one that
/// [`recovering`](FileJournal::recovering) opened.
///
/// Contracts see its content, how often its device failed, and what was asked of the file.
pub struct FileJournal<F: Write + OpenFile + Drop> {
    kept: Kept<CalledFile<F>>,
    failures: u64,
}

impl<F: Write + OpenFile + Drop> Drop for FileJournal<F> {
    fn drop(self) {
        let FileJournal {
            kept: _,
            failures: _,
        } = self;
    }
}

impl<F: Write + OpenFile + Drop> Model for FileJournal<F> {
    ghost use Rattle.tp_journal.specs.Calls.{file_content};
    ghost use Rattle.tp_journal.specs.Journal.{FileState};

    ghost Value = { FileState };

    ghost view = { λ j. record { content = file_content j.kept; failures = j.failures; asked = j.kept } };
}

// Opens the file at the path for reading and appending, and takes its lock.
fn open<R: Files>(
    rt: &R,
    alloc: Global,
    path: &str,
    make: bool,
) -> Result<CalledFile<R::File>, OpenError>
where
    R::File: Lockable,
    ensures locked { IfOk result (λ file. R.File.is_locked file.file) }
    ensures new { IfOk result (λ file. file.calls.list ≡ []) }
{
    let file = OpenOptions::new()
        .read(true)
        .append(true)
        .create(make)
        .open(rt, path)?;
    let Ok(place) = file.place(alloc) else {
        drop(file);
        return Err(OpenError::OutOfMemory);
    };
    let file = CalledFile::of(file, place);
    file.lock(path)?;
    Ok(file)
}

// What was read of all that the file has, how many bytes it was, and what it recovers to.
fn recover_from<S: Sequence, F: Read + Write + OpenFile + Drop>(
    alloc: Global,
    file: &mut CalledFile<F>,
) -> Result<(GhostBytes, u64, Result<Recovered<S>, StoreError>), OpenError>
    ensures whole { IfOk result (λ read. (read.1 ≡ length read.0.bytes)
        × (file.new.calls.list ≡ file.old.calls.list)
        × IfSome (F.remaining file.old.file) (λ held. read.0.bytes ≡ held)) }
    ensures ok { IfOk result (λ read. IfOk read.2 (λ r.
        Recovers read.0.bytes r.document.id r.document.applied r.keep × (r.document.waiting ≡ []))) }
    ensures tail { IfOk result (λ read. IfOk read.2 (λ r. HasTail read.0.bytes r.keep r.tail.items)) }
    ensures err { IfOk result (λ read. IfErr read.2 (λ e. (e ≡ Lack) ⊎ IsJournalFault read.0.bytes e)) }
{
    let mut recovering = Recovering::new(alloc);
    match file.read_into(&mut recovering) {
        Ok(count) => Ok((recovering.content(), count, recovering.finish())),
        Err(error) => {
            drop(recovering);
            Err(OpenError::from(error))
        }
    }
}

impl<F: Read + Write + OpenFile + Lockable + Drop> FileJournal<F> {
    /// Opens the file at the path as a journal, takes its lock, and then reads all of it. An absent one is made where `make`
    /// is true, before the lock is taken, and else refused as `Io`, as is a file that can't be opened for reading and
    /// writing, locked or read. Where another has the lock it is refused as `Busy`, and not read. The only other refusal is
    /// `OutOfMemory`.
    pub fn at<R: Files<File = F>>(
        rt: &R,
        alloc: Global,
        path: &str,
        make: bool,
    ) -> Result<FileJournal<F>, OpenError>
        ensures new { IfOk result
            (λ j. (j.failures ≡ 0) × (j.asked ≡ record { opened = j.content; calls = [] })) }
        ensures locked { IfOk result (λ _. (file : F) × F.is_locked file) }
    {
        let mut file = open(rt, alloc, path, make)?;
        let copy = file.read_whole(alloc)?;
        Ok(FileJournal {
            kept: Kept::with_copy(file, copy),
            failures: 0,
        })
    }

    /// Opens the file at the path as a journal, as [`at`](FileJournal::at) does, and recovers from its bytes while they are
    /// read, by pieces: they are never all in memory, so [`read_all`](Journal::read_all) is refused as `Io`. Who wants them
    /// opens the file anew. A journal that doesn't recover is opened too, and why is given with it.
    ///
    /// The cost is that of [`recover`](crate::recover).
    pub fn recovering<S: Sequence, R: Files<File = F>>(
        rt: &R,
        alloc: Global,
        path: &str,
        make: bool,
    ) -> Result<(FileJournal<F>, Result<Recovered<S>, StoreError>), OpenError>
        ensures new { IfOk result (λ opened. (opened.0.failures ≡ 0)
            × (opened.0.asked ≡ record { opened = opened.0.content; calls = [] })) }
        ensures locked { IfOk result (λ _. (file : F) × F.is_locked file) }
        ensures ok { IfOk result (λ opened. IfOk opened.1 (λ r.
            Recovers opened.0.content r.document.id r.document.applied r.keep
            × (r.document.waiting ≡ []))) }
        ensures tail { IfOk result (λ opened. IfOk opened.1
            (λ r. HasTail opened.0.content r.keep r.tail.items)) }
        ensures err { IfOk result (λ opened. IfErr opened.1
            (λ e. (e ≡ Lack) ⊎ IsJournalFault opened.0.content e)) }
    {
        let mut file = open(rt, alloc, path, make)?;
        let (content, len, recovered) = recover_from(alloc, &mut file)?;
        let journal = FileJournal {
            kept: Kept::with_len(file, content, len),
            failures: 0,
        };
        Ok((journal, recovered))
    }
}

impl<F: Write + OpenFile + Drop> FileJournal<F> {
    /// Brings to the disk what was written. A failure is refused as `Io` and counted; the content stays. After one failure
    /// each is refused so, and the file isn't asked, since the system may have dropped what it was to bring.
    pub fn sync(&mut self) -> Result<(), JournalError>
        ensures asks { AsksOnce IsSync self.old.asked self.new.asked }
        ensures stays { self.new.content ≡ self.old.content }
        ensures ok { OnOk result (IsAllSynced self.new.asked × (self.new.failures ≡ self.old.failures)) }
        ensures err { IsOkUnless result Io × OnErr result (HasGrown self.old.failures self.new.failures) }
    {
        if self.kept.sync() {
            Ok(())
        } else {
            self.failures = self.failures.saturating_add(1);
            Err(JournalError::Io)
        }
    }
}

impl<F: Write + OpenFile + Drop> FileJournal<F> {
    /// Looks whether the file is still where it was opened, and no shorter than its content. Where not, that is a failure of the
    /// device.
    pub(crate) fn look(&mut self) -> Result<(), JournalError>
        ensures asks { self.new.asked ≡ self.old.asked }
        ensures stays { self.new.content ≡ self.old.content }
        ensures ok { OnOk result (self.new.failures ≡ self.old.failures) }
        ensures err { IsOkUnless result Io × OnErr result (HasGrown self.old.failures self.new.failures) }
    {
        if self.kept.is_there() {
            Ok(())
        } else {
            self.refuse()
        }
    }

    /// Counts a failure of the device.
    pub(crate) fn refuse(&mut self) -> Result<(), JournalError>
        ensures asks { self.new.asked ≡ self.old.asked }
        ensures stays { self.new.content ≡ self.old.content }
        ensures err { IsErrOf result Io × HasGrown self.old.failures self.new.failures }
    {
        self.failures = self.failures.saturating_add(1);
        Err(JournalError::Io)
    }
}

impl<F: Write + OpenFile + Drop> Journal for FileJournal<F> {
    ghost content = { λ j. j.content };

    ghost device = { λ j. failing j.failures };

    ghost asked = { λ j. j.asked };

    ghost is_settled = { λ _. Unit {0} };

    fn append(&mut self, bytes: &[u8]) -> Result<(), JournalError> {
        match self.kept.write(bytes) {
            Ok(count) if count == bytes.len() => Ok(()),
            Ok(_) => {
                self.failures = self.failures.saturating_add(1);
                Err(JournalError::Io)
            }
            Err(_) => Err(JournalError::OutOfMemory),
        }
    }

    // Whoever has the file calls `sync` when it has to be.
    fn settle(&mut self) -> Result<(), JournalError> {
        Ok(())
    }

    fn cut(&mut self, len: u64) -> Result<(), JournalError> {
        if self.kept.len() <= len {
            return Ok(());
        }
        if self.kept.cut(len) {
            Ok(())
        } else {
            self.failures = self.failures.saturating_add(1);
            Err(JournalError::Io)
        }
    }

    fn read_all(&mut self) -> Result<Vec<u8>, JournalError> {
        match self.kept.read() {
            Ok(bytes) => Ok(bytes),
            Err(JournalError::OutOfMemory) => Err(JournalError::OutOfMemory),
            Err(JournalError::Io) => {
                self.failures = self.failures.saturating_add(1);
                Err(JournalError::Io)
            }
        }
    }

    fn failures(&self) -> u64 {
        self.failures
    }
}
