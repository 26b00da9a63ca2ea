//! The journal as what keeps each change before it enters.

ghost use Rattle.std.specs.Prelude.{◌≡◌, OnOk, OnErr, IfErr, IsOkUnless};
ghost use Rattle.tp_peer.specs.Appending.{AppendsRecord, IsDurable, RefusesRecord, StaysUnsettled, journal_state, keep_error_of};
ghost use Rattle.tp_peer.specs.declared.error.PeerError.TheVariants.{JournalFailed};

use crate::error::PeerError;
use std::alloc::Global;
use std::marker::Model;
use std::mem;
use tp_change::Change;
use tp_document::{KeepError, Keeper};
use tp_journal::{Journal, JournalError, put_record};

/// A journal to which the record of each change is appended, from a buffer that is used again: it stays as large as the
/// largest record was.
///
/// Contracts see the journal's content and its device.
#[derive(Drop)]
pub(crate) struct Appender<J: Journal> {
    pub(crate) journal: J,
    buffer: Vec<u8>,
}

impl<J: Journal> Model for Appender<J> {
    ghost use Rattle.tp_peer.specs.Appending.{JournalState};

    ghost Value = { JournalState };

    ghost view = { λ a. record { content = J.content a.journal; device = J.device a.journal } };
}

// Why a change wasn't kept, where its append was refused.
fn reason(error: JournalError) -> KeepError
    ensures { result ≡ keep_error_of error }
{
    match error {
        JournalError::Io => KeepError::NotKept,
        JournalError::OutOfMemory => KeepError::OutOfMemory,
    }
}

// Appends the record of the change to the journal, and leaves it in the buffer for the next one.
fn append<J: Journal>(
    journal: &mut J,
    buffer: &mut Vec<u8>,
    change: &Change,
) -> Result<(), KeepError>
    ensures ok { OnOk result
        (AppendsRecord (journal_state (J.content journal.old) (J.device journal.old)) change.now
        (journal_state (J.content journal.new) (J.device journal.new))) }
    ensures err { IfErr result (λ e.
        RefusesRecord (journal_state (J.content journal.old) (J.device journal.old)) change.now e
        (journal_state (J.content journal.new) (J.device journal.new))) }
{
    let _hash = change.hash();
    let alloc = *buffer.allocator();
    let mut bytes = mem::replace(buffer, Vec::new(alloc));
    bytes.clear();
    match put_record(bytes, change) {
        Ok(bytes) => {
            *buffer = bytes;
            match journal.append(buffer.as_slice()) {
                Ok(()) => Ok(()),
                Err(error) => Err(reason(error)),
            }
        }
        Err(_) => Err(KeepError::OutOfMemory),
    }
}

impl<J: Journal> Appender<J> {
    /// Appends to the journal. No memory.
    pub(crate) fn new(alloc: Global, journal: J) -> Appender<J>
        ensures content { result.content ≡ J.content journal }
        ensures device { result.device ≡ J.device journal }
    {
        Appender {
            journal,
            buffer: Vec::new(alloc),
        }
    }

    /// Settles the journal.
    pub(crate) fn settle(&mut self) -> Result<(), PeerError>
        ensures ok { OnOk result (self.new ≡ self.old) }
        ensures settled { OnOk result (IsDurable J.content J.device J.is_settled self.new) }
        ensures only { IsOkUnless result JournalFailed }
        ensures err { OnErr result (StaysUnsettled self.old self.new) }
    {
        match self.journal.settle() {
            Ok(()) => Ok(()),
            Err(_) => Err(PeerError::JournalFailed),
        }
    }

    /// Appends the record of the change to the journal, and settles it.
    pub(crate) fn keep_settled(&mut self, change: &Change) -> Result<(), KeepError>
        ensures ok { OnOk result (AppendsRecord self.old change.now self.new) }
        ensures settled { OnOk result (IsDurable J.content J.device J.is_settled self.new) }
        ensures err { IfErr result (λ e. RefusesRecord self.old change.now e self.new) }
    {
        match self.keep(change) {
            Ok(()) => match self.settle() {
                Ok(()) => Ok(()),
                Err(_) => Err(KeepError::NotKept),
            },
            Err(error) => Err(error),
        }
    }
}

impl<J: Journal> Keeper for Appender<J> {
    ghost keeps = { AppendsRecord };

    ghost refuses = { RefusesRecord };

    fn keep(&mut self, change: &Change) -> Result<(), KeepError> {
        append(&mut self.journal, &mut self.buffer, change)
    }
}
