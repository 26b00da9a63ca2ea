//! A journal in a file, or none.

ghost use Rattle.std.specs.Prelude.{◌≡◌};
ghost use Rattle.tp_journal.specs.Journal.{no_device};
ghost use Rattle.tp_recovery.specs.Layout.{journal};
ghost use Rattle.tp_journal.specs.Optional.{content_of, device_of};

use crate::durable::DurableJournal;
use crate::error::JournalError;
use crate::journal::Journal;
use crate::null::NullJournal;
use tp_document::Document;
use tp_file::SystemFile;
use tp_rga::Sequence;

/// The journal of a document that is in a file, or in memory alone.
#[derive(Drop)]
pub enum OptionalJournal {
    /// In memory alone.
    None(NullJournal),
    /// In a file, on the disk once it is settled.
    Durable(DurableJournal<SystemFile>),
}

impl OptionalJournal {
    /// That of the document, in memory alone.
    pub fn none<S: Sequence>(document: &Document<S>) -> OptionalJournal
        ensures content { content_of result ≡ journal document.now.id document.now.applied }
        ensures device { device_of result ≡ no_device }
    {
        OptionalJournal::None(NullJournal::of(document))
    }
}

impl Journal for OptionalJournal {
    ghost use Rattle.tp_journal.specs.Optional.{asked_of, is_settled_of};

    ghost content = { content_of };

    ghost device = { device_of };

    ghost asked = { asked_of };

    ghost is_settled = { is_settled_of };

    fn append(&mut self, bytes: &[u8]) -> Result<(), JournalError> {
        match self {
            OptionalJournal::None(journal) => journal.append(bytes),
            OptionalJournal::Durable(journal) => journal.append(bytes),
        }
    }

    fn settle(&mut self) -> Result<(), JournalError> {
        match self {
            OptionalJournal::None(journal) => journal.settle(),
            OptionalJournal::Durable(journal) => journal.settle(),
        }
    }

    fn cut(&mut self, len: u64) -> Result<(), JournalError> {
        match self {
            OptionalJournal::None(journal) => journal.cut(len),
            OptionalJournal::Durable(journal) => journal.cut(len),
        }
    }

    fn read_all(&mut self) -> Result<Vec<u8>, JournalError> {
        match self {
            OptionalJournal::None(journal) => journal.read_all(),
            OptionalJournal::Durable(journal) => journal.read_all(),
        }
    }

    fn failures(&self) -> u64 {
        match self {
            OptionalJournal::None(journal) => journal.failures(),
            OptionalJournal::Durable(journal) => journal.failures(),
        }
    }
}
