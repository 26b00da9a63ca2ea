//! A journal in a file that brings to the disk what was appended.

ghost use Rattle.std.specs.Prelude.{◌≡◌, ◌⊎◌, [], false, true, IfOk, IfErr, OnOk, OnErr, IsOkUnless};
ghost use Rattle.tp_journal.specs.Calls.{IsAllSynced};
ghost use Rattle.tp_journal.specs.Journal.{HasGrown, failing};
ghost use Rattle.tp_journal.specs.declared.error.JournalError.TheVariants.{Io};
ghost use Rattle.tp_recovery.specs.Recovery.{HasTail, Recovers};
ghost use Rattle.tp_recovery.specs.Refusals.{IsJournalFault};
ghost use Rattle.tp_store.specs.declared.error.StoreError.TheVariants.{OutOfMemory as Lack};

use crate::error::JournalError;
use crate::file::FileJournal;
use crate::journal::Journal;
use crate::opening::OpenError;
use std::alloc::Global;
use std::fs::OpenFile;
use std::io::{Read, Write};
use std::rt::Files;
use tp_file::Lockable;
use tp_recovery::Recovered;
use tp_rga::Sequence;
use tp_store::StoreError;

/// A journal in a file, which is all on the disk once [`settle`](Journal::settle) has answered Ok: many appends take
/// one sync of the file.
///
/// After the sync `settle` looks whether the path still leads to the file, and whether the file is no shorter than the content.
/// Where not, since another program moved, removed, replaced or cut it, that is a failure of the device, and so is each
/// later `settle`.
#[derive(Drop)]
pub struct DurableJournal<F: Write + OpenFile + Drop> {
    file: FileJournal<F>,
    is_ahead: bool,
    is_there: bool,
    is_gone: bool,
    ghost is_synced: { is_ahead ≡ false → IsAllSynced file.asked },
}

impl<F: Read + Write + OpenFile + Lockable + Drop> DurableJournal<F> {
    /// Opens the file at the path as a journal, as [`FileJournal::at`] does. That what it has is on the disk isn't known
    /// yet: who wrote it may have ended before.
    pub fn at<R: Files<File = F>>(
        rt: &R,
        alloc: Global,
        path: &str,
        make: bool,
    ) -> Result<DurableJournal<F>, OpenError>
        ensures { IfOk result (λ _. (file : F) × F.is_locked file) }
    {
        match FileJournal::at(rt, alloc, path, make) {
            Ok(file) => Ok(DurableJournal {
                file,
                is_ahead: true,
                is_there: false,
                is_gone: false,
            }),
            Err(error) => Err(error),
        }
    }
}

impl<F: Read + Write + OpenFile + Lockable + Drop> DurableJournal<F> {
    /// Opens the file at the path as a journal, and recovers from its bytes, as [`FileJournal::recovering`] does. That
    /// what it has is on the disk isn't known yet.
    pub fn recovering<S: Sequence, R: Files<File = F>>(
        rt: &R,
        alloc: Global,
        path: &str,
        make: bool,
    ) -> Result<(DurableJournal<F>, Result<Recovered<S>, StoreError>), OpenError>
        ensures locked { IfOk result (λ _. (file : F) × F.is_locked file) }
        ensures ok { IfOk result (λ opened. IfOk opened.1 (λ r.
            Recovers opened.0.file.content r.document.id r.document.applied r.keep
            × (r.document.waiting ≡ []))) }
        ensures tail { IfOk result (λ opened. IfOk opened.1
            (λ r. HasTail opened.0.file.content r.keep r.tail.items)) }
        ensures err { IfOk result (λ opened. IfErr opened.1
            (λ e. (e ≡ Lack) ⊎ IsJournalFault opened.0.file.content e)) }
    {
        match FileJournal::recovering(rt, alloc, path, make) {
            Ok((file, recovered)) => {
                let journal = DurableJournal {
                    file,
                    is_ahead: true,
                    is_there: false,
                    is_gone: false,
                };
                Ok((journal, recovered))
            }
            Err(error) => Err(error),
        }
    }
}

impl<F: Write + OpenFile + Drop> DurableJournal<F> {
    // Looks whether the file is still where it was opened. Once it isn't, it is gone for good.
    fn look(&mut self) -> Result<(), JournalError>
        requires { self.old.is_gone ≡ false }
        ensures there { OnOk result ((self.new.is_there ≡ true) × (self.new.is_gone ≡ false)) }
        ensures gone { OnErr result (self.new.is_gone ≡ true) }
        ensures ahead { self.new.is_ahead ≡ self.old.is_ahead }
        ensures asks { self.new.file.asked ≡ self.old.file.asked }
        ensures stays { self.new.file.content ≡ self.old.file.content }
        ensures ok { OnOk result (self.new.file.failures ≡ self.old.file.failures) }
        ensures err { IsOkUnless result Io
            × OnErr result (HasGrown self.old.file.failures self.new.file.failures) }
    {
        match self.file.look() {
            Ok(()) => {
                self.is_there = true;
                Ok(())
            }
            Err(error) => {
                self.is_there = false;
                self.is_gone = true;
                Err(error)
            }
        }
    }

    /// Whether the file was found moved, removed, replaced or cut. Each later [`settle`](Journal::settle) is refused then.
    pub fn is_gone(&self) -> bool
        ensures { result ≡ self.now.is_gone }
    {
        self.is_gone
    }
}

impl<F: Write + OpenFile + Drop> Journal for DurableJournal<F> {
    ghost content = { λ j. j.file.content };

    ghost device = { λ j. failing j.file.failures };

    ghost asked = { λ j. j.file.asked };

    ghost is_settled = { λ j. IsAllSynced j.file.asked × (j.is_there ≡ true) × (j.is_gone ≡ false) };

    fn append(&mut self, bytes: &[u8]) -> Result<(), JournalError> {
        self.is_ahead = true;
        self.is_there = false;
        self.file.append(bytes)
    }

    fn settle(&mut self) -> Result<(), JournalError> {
        if self.is_gone {
            return self.file.refuse();
        }
        if self.is_ahead {
            self.file.sync()?;
            self.is_ahead = false;
        }
        self.look()
    }

    fn cut(&mut self, len: u64) -> Result<(), JournalError> {
        self.is_ahead = true;
        self.is_there = false;
        self.file.cut(len)
    }

    fn read_all(&mut self) -> Result<Vec<u8>, JournalError> {
        self.file.read_all()
    }

    fn failures(&self) -> u64 {
        self.file.failures()
    }
}
