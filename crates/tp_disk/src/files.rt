//! The files that commands read and write.

ghost use Rattle.std.specs.Prelude.{◌≡◌, [], IfErr, IfOk, OnOk, Ok};
ghost use Rattle.tp_journal.specs.Calls.{IsAllSynced};
ghost use Rattle.tp_recovery.specs.Recovery.{HasTail, Recovers};
ghost use Rattle.tp_disk.specs.DiskView.{WasLeft, WasLocked, WasRead, WasRefused};
ghost use Rattle.tp_disk.specs.Waiting.{tries_in};
ghost use Rattle.tp_commands.specs.declared.error.CommandError.TheVariants.{Busy};
ghost use Rattle.tp_disk.specs.Opening.{CutsJournal, KeepsTail};

use crate::cutting::keep_cut;
use crate::folders::{Folders, is_of_system};
use crate::locks::{FileId, lock_in};
use crate::stamps::Stamp;
use crate::waiting::{locked_journal, locked_recovery};
use std::fs::{OpenFile, OpenOptions};
use std::io::{ErrorKind, Read, Seek, Write};
use std::os::unix::fs::MetadataExt;
use std::rt::Files;
use std::time::Clock;
use std::{fs, io};
use tp_commands::{CommandError, Lock, Recovery};
use tp_journal::{DurableJournal, Journal, Lockable, Recovered, Recovering};
use tp_peer::PeerSequence;

/// A journal that was opened to write.
#[derive(Drop)]
pub struct Opened<F: Write + OpenFile + Drop> {
    /// The journal. All that is said of it is on the disk.
    pub journal: DurableJournal<F>,
    /// What its content recovers to.
    pub recovered: Recovered<PeerSequence>,
    /// The offset of the bytes that are cut off it, where these are kept, since a whole record is in them.
    pub cut: Option<u64>,
}

/// Why a file can't be used, as far as the system says.
#[derive(Clone, Copy, Debug, PartialEq, Eq)]
pub enum Cause {
    /// Nothing is at the path.
    NotThere,
    /// A folder is there.
    Folder,
    /// What is there is no regular file, as a pipe.
    NoFile,
    /// A part of the path is no folder.
    NoFolder,
    /// A name in the path is too long.
    TooLong,
    /// This user may not enter its folder.
    Closed,
    /// This user may not read it.
    NotRead,
    /// This user may not write it.
    NotWritten,
    /// The system says no more.
    Unknown,
}

/// Files at paths, as commands meet them.
///
/// Contracts see what a call did by what was seen of the file at a path ([`saw`](Folders)): the bytes with which it was read,
/// was read once its lock was taken, or was left, on the disk; or how often its lock was another's. What the system does with
/// a file between two calls is outside of it.
pub trait Disk: Folders {
    /// An open file.
    type File: Read + Write + Seek + OpenFile + Drop;

    /// Opens a file to read it.
    fn open(&self, path: &str) -> Result<Self::File, CommandError>;

    /// Why the file at the path can't be read, as far as the system says now; `None` where it can.
    fn cause(&self, path: &str) -> Option<Cause>;

    /// Why the file at the path can't be written, likewise. It stays as it is.
    fn write_cause(&self, path: &str) -> Option<Cause>;

    /// Refuses what isn't to be read as a journal, as `Io` and without waiting: a folder, a pipe, and what else is no
    /// regular file. A path of the system's own, as `/dev/stdin`, may lead to a pipe.
    fn check_journal(&self, path: &str) -> Result<(), CommandError>;

    /// All bytes of a file.
    fn read(&self, path: &str) -> Result<Vec<u8>, CommandError>
        ensures { IfOk result (λ bytes. Self.saw self.now (WasRead path.now bytes.items)) };

    /// The journal at a path, recovered while its bytes are read. What [`check_journal`](Disk::check_journal) refuses is
    /// refused so.
    fn recover(&self, path: &str) -> Result<Recovering<PeerSequence>, CommandError>
        ensures { IfOk result (λ journal. Self.saw self.now (WasRead path.now journal)) };

    /// Who has a file's lock. It isn't taken.
    fn lock(&self, path: &str) -> Lock;

    /// The journal in a file, which has the file's lock until it ends. An absent file is made. While another has the lock it
    /// is tried again, four times a second for `wait` seconds, and then refused as `Busy`; where they are 0 at once. What
    /// [`check_journal`](Disk::check_journal) refuses is refused so.
    fn make_journal(
        &self,
        path: &str,
        wait: u64,
    ) -> Result<DurableJournal<Self::File>, CommandError>
        ensures taken { IfOk result
            (λ j. Self.saw self.now (WasLocked path.now j.file.content)) }
        ensures busy { IfErr result
            (λ e. e ≡ Busy → Self.saw self.now (WasRefused path.now (tries_in wait))) };

    /// The journal in a file, as [`make_journal`](Disk::make_journal) gives it, with what its content recovers to; it
    /// holds no copy of the content. An absent file is refused, and a journal that doesn't recover. What opening it
    /// cuts off is put into a file of its own first where a whole record is in it, at the path with `.cut-` and the
    /// offset of the first byte; one that is there already with other bytes is refused as `JournalNotEmpty`.
    fn journal(&self, path: &str, wait: u64) -> Result<Opened<Self::File>, CommandError>
        ensures busy { IfErr result
            (λ e. e ≡ Busy → Self.saw self.now (WasRefused path.now (tries_in wait))) }
        ensures taken { IfOk result
            (λ o. Self.saw self.now (WasLocked path.now o.journal.file.content)) }
        ensures recovers { IfOk result (λ o. Recovers o.journal.file.content o.recovered.document.id
            o.recovered.document.applied o.recovered.keep
            × (o.recovered.document.waiting ≡ [])) }
        ensures cuts { IfOk result
            (λ o. CutsJournal (Self.saw self.now) path.now o.journal.file.content o.cut) };

    /// By what the file at the path is known, as far as the system says now.
    fn stamp(&self, path: &str) -> Option<Stamp>;

    /// The journal in a file, as [`make_journal`](Disk::make_journal) gives it, where the file is as the stamp says: one that was
    /// changed is refused as `Io`, and so is an absent one.
    fn resume(
        &self,
        path: &str,
        stamp: &Stamp,
        wait: u64,
    ) -> Result<DurableJournal<Self::File>, CommandError>
        ensures taken { IfOk result
            (λ j. Self.saw self.now (WasLocked path.now j.file.content)) }
        ensures busy { IfErr result
            (λ e. e ≡ Busy → Self.saw self.now (WasRefused path.now (tries_in wait))) };

    /// The journal that was taken from the path was left with what is in it, and all of that is on the disk.
    fn leave(
        &self,
        path: &str,
        journal: &mut DurableJournal<Self::File>,
    ) -> Result<(), CommandError>
        ensures settled { OnOk result (IsAllSynced journal.new.file.asked) }
        ensures left { OnOk result
            (Self.saw self.now (WasLeft path.now journal.new.file.content)) }
        ensures stays { journal.new.file.content ≡ journal.old.file.content };
}

// The journal at the path with what it recovers to, once what opening it cuts off is kept.
fn opened_journal<R: Files + AllocGlobal>(
    rt: &R,
    path: &str,
    journal: DurableJournal<R::File>,
    recovery: Recovery,
) -> Result<Opened<R::File>, CommandError>
    ensures same { IfOk result
        (λ o. (o.journal ≡ journal) × (recovery ≡ Ok o.recovered)) }
    ensures cut { IfOk result (λ o. KeepsTail (λ _. Unit {0}) path.now
        o.recovered.keep o.recovered.tail.items o.cut) }
{
    match recovery {
        Ok(recovered) => match keep_cut(rt, path, &recovered) {
            Ok(cut) => Ok(Opened {
                journal,
                recovered,
                cut,
            }),
            Err(error) => {
                drop(journal);
                drop(recovered);
                Err(error)
            }
        },
        Err(error) => {
            drop(journal);
            Err(CommandError::from(error))
        }
    }
}

// Why the system has no file at the path.
fn cause_of(kind: ErrorKind) -> Cause {
    match kind {
        ErrorKind::NotFound => Cause::NotThere,
        ErrorKind::NotADirectory => Cause::NoFolder,
        ErrorKind::InvalidFilename => Cause::TooLong,
        ErrorKind::PermissionDenied => Cause::Closed,
        _ => Cause::Unknown,
    }
}

// What the path leads to, where that is no regular file.
fn other_than_file<R: Files>(rt: &R, path: &str) -> Option<Cause> {
    match fs::metadata(rt, path) {
        Ok(found) if found.is_file() => None,
        Ok(found) if found.is_dir() => Some(Cause::Folder),
        Ok(_) => Some(Cause::NoFile),
        Err(error) => Some(cause_of(error.kind())),
    }
}

/// The files of the system. Its calls promise nothing of them.
impl<R: Files + Clock + AllocGlobal> Disk for R
where
    R::File: Lockable,
{
    type File = R::File;

    fn open(&self, path: &str) -> Result<R::File, CommandError> {
        Ok(fs::open(self, path)?)
    }

    fn cause(&self, path: &str) -> Option<Cause> {
        match other_than_file(self, path) {
            Some(cause) => Some(cause),
            None => match fs::open(self, path) {
                Ok(_) => None,
                Err(_) => Some(Cause::NotRead),
            },
        }
    }

    fn write_cause(&self, path: &str) -> Option<Cause> {
        match other_than_file(self, path) {
            Some(cause) => Some(cause),
            None => match OpenOptions::new().append(true).open(self, path) {
                Ok(_) => None,
                Err(_) => Some(Cause::NotWritten),
            },
        }
    }

    fn check_journal(&self, path: &str) -> Result<(), CommandError> {
        match other_than_file(self, path) {
            Some(Cause::Folder | Cause::NoFile) if !is_of_system(path) => Err(CommandError::Io),
            _ => Ok(()),
        }
    }

    fn read(&self, path: &str) -> Result<Vec<u8>, CommandError> {
        Ok(fs::read(self, path)?)
    }

    fn recover(&self, path: &str) -> Result<Recovering<PeerSequence>, CommandError> {
        self.check_journal(path)?;
        let mut file = fs::open(self, path)?;
        let mut journal = Recovering::new(self.alloc());
        match io::copy(&mut file, &mut journal) {
            Ok(_) => Ok(journal),
            Err(error) => {
                drop(journal);
                Err(CommandError::from(error))
            }
        }
    }

    fn lock(&self, path: &str) -> Lock {
        match (fs::metadata(self, path), fs::read(self, "/proc/locks")) {
            (Ok(found), Ok(locks)) => {
                let file = FileId {
                    device: found.dev(),
                    inode: found.ino(),
                };
                lock_in(&locks, file)
            }
            _ => Lock::Unknown,
        }
    }

    fn make_journal(&self, path: &str, wait: u64) -> Result<DurableJournal<R::File>, CommandError> {
        self.check_journal(path)?;
        Ok(locked_journal(self, path, true, wait)?)
    }

    fn journal(&self, path: &str, wait: u64) -> Result<Opened<R::File>, CommandError> {
        self.check_journal(path)?;
        let (journal, recovery) = locked_recovery(self, path, wait)?;
        opened_journal(self, path, journal, recovery)
    }

    fn stamp(&self, path: &str) -> Option<Stamp> {
        match fs::metadata(self, path) {
            Ok(found) => Some(Stamp::of(&found)),
            Err(_) => None,
        }
    }

    fn resume(
        &self,
        path: &str,
        stamp: &Stamp,
        wait: u64,
    ) -> Result<DurableJournal<R::File>, CommandError> {
        let journal = locked_journal(self, path, false, wait)?;
        if self.stamp(path) == Some(*stamp) {
            Ok(journal)
        } else {
            drop(journal);
            Err(CommandError::Io)
        }
    }

    fn leave(
        &self,
        _path: &str,
        journal: &mut DurableJournal<R::File>,
    ) -> Result<(), CommandError> {
        Ok(journal.settle()?)
    }
}
