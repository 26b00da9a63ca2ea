//! A journal that keeps nothing.

ghost use Rattle.std.specs.Prelude.{◌≡◌, ◌++◌, take, Err, IsOk};
ghost use Rattle.tp_journal.specs.Journal.{no_device};
ghost use Rattle.tp_recovery.specs.Layout.{journal};
ghost use Rattle.tp_journal.specs.declared.error.JournalError.TheVariants.{OutOfMemory};

use crate::error::JournalError;
use crate::journal::Journal;
use tp_change::Change;
use tp_document::Document;
use tp_ghost::GhostBytes;
use tp_opid::DocId;
use tp_rga::Sequence;

/// A journal for a peer whose changes are in memory alone: contracts see its content, and it is nowhere. It takes no
/// memory and has no device that could fail. Every call is done but [`read_all`](Journal::read_all), which is refused
/// as `OutOfMemory`.
#[derive(Drop)]
pub struct NullJournal {
    content: GhostBytes,
}

// The bytes of the journal of a document with the identifier and the changes.
fn journal_bytes(_id: &DocId, _changes: &[Change]) -> GhostBytes
    ensures { result.bytes ≡ journal _id.now _changes.now }
{
    GhostBytes {}
}

impl NullJournal {
    /// The journal of the document. Nothing is read of it.
    pub fn of<S: Sequence>(document: &Document<S>) -> NullJournal
        ensures { result.content.bytes ≡ journal document.now.id document.now.applied }
    {
        NullJournal {
            content: journal_bytes(&document.id(), document.changes()),
        }
    }
}

impl Journal for NullJournal {
    ghost content = { λ j. j.content.bytes };

    ghost device = { λ _. no_device };

    ghost is_settled = { λ _. Unit {0} };

    fn append(&mut self, bytes: &[u8]) -> Result<(), JournalError>
        ensures appended { self.new.content.bytes ≡ self.old.content.bytes ++ bytes.now }
        ensures always { IsOk result }
    {
        self.content = GhostBytes::with(&self.content, bytes);
        Ok(())
    }

    fn settle(&mut self) -> Result<(), JournalError>
        ensures stays { self.new ≡ self.old }
        ensures always { IsOk result }
    {
        Ok(())
    }

    fn cut(&mut self, len: u64) -> Result<(), JournalError>
        ensures cut { self.new.content.bytes ≡ take len self.old.content.bytes }
        ensures always { IsOk result }
    {
        self.content = GhostBytes::first(&self.content, &len);
        Ok(())
    }

    fn read_all(&mut self) -> Result<Vec<u8>, JournalError>
        ensures never { result ≡ Err OutOfMemory }
        ensures stays { self.new ≡ self.old }
    {
        Err(JournalError::OutOfMemory)
    }

    fn failures(&self) -> u64
        ensures { result ≡ 0 }
    {
        0
    }
}
