//! A journal that has its file only while something is appended.

ghost use Rattle.std.specs.Prelude.{◌≡◌, [], length, false, true, None, IfSome, OnOk, is_some};
ghost use Rattle.tp_journal.specs.Journal.{HasGrown, failing};
ghost use Rattle.tp_journal.specs.declared.error.JournalError.TheVariants.{Io};
ghost use Rattle.tp_recovery.specs.Recovery.{Recovers};

use crate::files::Disk;
use crate::stamps::Stamp;
use tp_commands::CommandError;
use tp_ghost::GhostBytes;
use tp_journal::{DurableJournal, Journal, JournalError};
use tp_peer::PeerSequence;
use tp_recovery::{Recovered, Recovering};

/// The journal in a file that was read, and that is on the disk, while nobody has the file. Of its bytes none is held.
///
/// The first append takes the lock of the file, which is waited for, and goes on only where the file wasn't changed since it was
/// read: by its [`Stamp`]. Where it was, or can't be had, that is a failure of the device. From then on it has the file, as
/// a [`DurableJournal`], until it is left or ends.
///
/// Contracts see its content: what was read, and what its appends and cuts make of that. That the file agrees with it is a
/// matter of the device.
#[derive(Drop)]
pub struct IdleJournal<'a, D: Disk> {
    rt: &'a D,
    path: &'a str,
    stamp: Stamp,
    wait: u64,
    content: GhostBytes,
    len: u64,
    opened: Option<DurableJournal<D::File>>,
    failures: u64,
    is_ahead: bool,
    ghost read: { opened ≡ None → length content.bytes ≡ len },
}

/// The journal was left with all that is in it on the disk: its file's stamp, which was taken before another can have the
/// lock. `None` where that can't be said; it ends in any case.
pub fn left_stamp<D: Disk>(rt: &D, path: &str, journal: DurableJournal<D::File>) -> Option<Stamp> {
    let mut journal = journal;
    match rt.leave(path, &mut journal) {
        Ok(()) => rt.stamp(path),
        Err(_) => None,
    }
}

impl<'a, D: Disk> IdleJournal<'a, D> {
    /// The journal whose bytes were read of the file at the path while it had the stamp, with what they recover to. All of them
    /// are on the disk: who left the file with that stamp brought them there. Its lock is waited for `wait` seconds.
    ///
    /// `None` where they don't recover, and where more is in them than what is kept: another writes them, or they are damaged.
    pub fn finish(
        rt: &'a D,
        path: &'a str,
        stamp: Stamp,
        wait: u64,
        read: Recovering<PeerSequence>,
    ) -> Option<(IdleJournal<'a, D>, Recovered<PeerSequence>)>
        ensures content { IfSome result (λ opened. opened.0.content.bytes ≡ read) }
        ensures recovers { IfSome result (λ opened. Recovers read opened.1.document.id
            opened.1.document.applied opened.1.keep × (opened.1.document.waiting ≡ [])) }
    {
        let content = read.content();
        match read.finish() {
            Ok(recovered) => {
                if !recovered.tail.is_empty() {
                    drop(recovered);
                    return None;
                }
                let journal = IdleJournal {
                    rt,
                    path,
                    stamp,
                    wait,
                    content,
                    len: recovered.keep,
                    opened: None,
                    failures: 0,
                    is_ahead: false,
                };
                Some((journal, recovered))
            }
            Err(_) => None,
        }
    }

    /// It ends, and has brought to the disk what is in it: its file's stamp, as [`left_stamp`] gives it.
    pub fn leave(self) -> Option<Stamp> {
        let IdleJournal {
            rt,
            path,
            stamp,
            wait: _,
            content: _,
            len: _,
            opened,
            failures: _,
            is_ahead: _,
        } = self;
        match opened {
            Some(journal) => left_stamp(rt, path, journal),
            None => Some(stamp),
        }
    }

    /// Whether it has the file, since something was appended or was to be.
    pub fn has_file(&self) -> bool
        ensures { result ≡ is_some self.now.opened }
    {
        self.opened.is_some()
    }

    // Counts a failure of the device.
    fn refuse(&mut self) -> JournalError
        ensures error { result ≡ Io }
        ensures grown { HasGrown self.old.failures self.new.failures }
        ensures same { (self.new.content.bytes ≡ self.old.content.bytes)
            × (self.new.opened ≡ self.old.opened) × (self.new.is_ahead ≡ self.old.is_ahead) }
    {
        self.failures = self.failures.saturating_add(1);
        JournalError::Io
    }

    // Has the file from now on.
    fn resume(&mut self) -> Result<(), JournalError>
        ensures open { OnOk result (is_some self.new.opened ≡ true) }
        ensures same { (self.new.content.bytes ≡ self.old.content.bytes)
            × (self.new.failures ≡ self.old.failures) }
        ensures kept { self.new.is_ahead ≡ self.old.is_ahead }
    {
        if self.opened.is_some() {
            return Ok(());
        }
        match self.rt.resume(self.path, &self.stamp, self.wait) {
            Ok(journal) => {
                self.opened = Some(journal);
                Ok(())
            }
            Err(CommandError::OutOfMemory) => Err(JournalError::OutOfMemory),
            Err(_) => Err(JournalError::Io),
        }
    }
}

// Puts the bytes after those of the journal.
fn append_to<J: Journal>(journal: &mut Option<J>, bytes: &[u8]) -> Result<(), JournalError>
    ensures { is_some journal.new ≡ is_some journal.old }
{
    match journal {
        Some(journal) => journal.append(bytes),
        None => Err(JournalError::Io),
    }
}

// Brings the journal to the disk. Whether that was done.
fn settle_on<J: Journal>(journal: &mut Option<J>) -> bool
    ensures { is_some journal.new ≡ is_some journal.old }
{
    match journal {
        Some(journal) => journal.settle().is_ok(),
        None => false,
    }
}

// Cuts the journal.
fn cut_to<J: Journal>(journal: &mut Option<J>, len: u64) -> Result<(), JournalError>
    ensures { is_some journal.new ≡ is_some journal.old }
{
    match journal {
        Some(journal) => journal.cut(len),
        None => Err(JournalError::Io),
    }
}

impl<D: Disk> IdleJournal<'_, D> {
    // Whether all that the file had is still at its path, while nobody has it.
    fn is_there(&self) -> bool {
        match self.rt.stamp(self.path) {
            Some(now) => now.is_kept_of(&self.stamp),
            None => false,
        }
    }

    // Appends the bytes to the file, and has it from now on.
    fn put(&mut self, bytes: &[u8]) -> Result<(), JournalError>
        ensures open { OnOk result (is_some self.new.opened ≡ true) }
        ensures same { (self.new.content.bytes ≡ self.old.content.bytes)
            × (self.new.failures ≡ self.old.failures) }
    {
        self.resume()?;
        self.is_ahead = true;
        append_to(&mut self.opened, bytes)
    }

    // Cuts the file, and has it from now on.
    fn cut_file(&mut self, len: u64) -> Result<(), JournalError>
        ensures open { OnOk result (is_some self.new.opened ≡ true) }
        ensures same { (self.new.content.bytes ≡ self.old.content.bytes)
            × (self.new.failures ≡ self.old.failures) }
    {
        self.resume()?;
        self.is_ahead = true;
        cut_to(&mut self.opened, len)
    }

    // Brings to the disk what the file was given, where it has the file. Whether all is there.
    fn sync(&mut self) -> bool
        ensures { (self.new.content.bytes ≡ self.old.content.bytes)
            × (self.new.failures ≡ self.old.failures) }
    {
        if self.opened.is_none() {
            return self.is_there();
        }
        settle_on(&mut self.opened)
    }
}

impl<D: Disk> Journal for IdleJournal<'_, D> {
    ghost content = { λ j. j.content.bytes };

    ghost device = { λ j. failing j.failures };

    ghost is_settled = { λ j. j.is_ahead ≡ false };

    #[tactic(auto, using(crate::proofs::IdleLaws::nothing_kept))]
    fn append(&mut self, bytes: &[u8]) -> Result<(), JournalError> {
        match self.put(bytes) {
            Ok(()) => {
                self.content = GhostBytes::with(&self.content, bytes);
                Ok(())
            }
            Err(JournalError::OutOfMemory) => Err(JournalError::OutOfMemory),
            Err(JournalError::Io) => Err(self.refuse()),
        }
    }

    // While nobody has the file all of it is on the disk: it is looked at alone.
    fn settle(&mut self) -> Result<(), JournalError> {
        if self.sync() {
            self.is_ahead = false;
            Ok(())
        } else {
            Err(self.refuse())
        }
    }

    fn cut(&mut self, len: u64) -> Result<(), JournalError> {
        if self.opened.is_none() && self.len <= len {
            return Ok(());
        }
        match self.cut_file(len) {
            Ok(()) => {
                self.content = GhostBytes::first(&self.content, &len);
                Ok(())
            }
            Err(JournalError::OutOfMemory) => Err(JournalError::OutOfMemory),
            Err(JournalError::Io) => Err(self.refuse()),
        }
    }

    fn read_all(&mut self) -> Result<Vec<u8>, JournalError> {
        Err(JournalError::OutOfMemory)
    }

    fn failures(&self) -> u64 {
        self.failures
    }
}
