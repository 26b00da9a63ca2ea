//! A journal of bytes that were read, and are nowhere in memory.

ghost use Rattle.std.specs.Prelude.{◌≡◌, ◌⊎◌, [], IfOk, IfErr};
ghost use Rattle.tp_journal.specs.Journal.{no_device};
ghost use Rattle.tp_recovery.specs.Recovery.{Recovers};
ghost use Rattle.tp_recovery.specs.Refusals.{IsJournalFault};
ghost use Rattle.tp_store.specs.declared.error.StoreError.TheVariants.{OutOfMemory as Lack};

use crate::error::JournalError;
use crate::journal::Journal;
use std::marker::Model;
use tp_ghost::GhostBytes;
use tp_recovery::{Recovered, Recovering};
use tp_rga::Sequence;
use tp_store::StoreError;

/// The journal of bytes that were recovered from while they came, where none of them is held: for a peer whose changes
/// another merges. It has no device that could fail, and can be cut; it has no memory for a byte, so an append, and reading
/// all, are refused as `OutOfMemory`.
///
/// Contracts see its content.
#[derive(Drop)]
pub struct ReadJournal {
    content: GhostBytes,
}

impl Model for ReadJournal {
    ghost use Rattle.std.specs.Prelude.{ℕ, List};

    ghost Value = { List ℕ };

    ghost view = { λ j. j.content.bytes };
}

impl ReadJournal {
    /// The journal of the bytes that came, with what [`finish`](Recovering::finish) gives of them.
    pub fn finish<S: Sequence>(
        recovering: Recovering<S>,
    ) -> (ReadJournal, Result<Recovered<S>, StoreError>)
        ensures journal { result.0 ≡ recovering }
        ensures ok { IfOk result.1 (λ r. Recovers recovering r.document.id r.document.applied r.keep
            × (r.document.waiting ≡ [])) }
        ensures err { IfErr result.1 (λ e. (e ≡ Lack) ⊎ IsJournalFault recovering e) }
    {
        let journal = ReadJournal {
            content: recovering.content(),
        };
        (journal, recovering.finish())
    }
}

impl Journal for ReadJournal {
    ghost content = { λ j. j };

    ghost device = { λ _. no_device };

    ghost is_settled = { λ _. Unit {0} };

    fn append(&mut self, _bytes: &[u8]) -> Result<(), JournalError> {
        Err(JournalError::OutOfMemory)
    }

    fn settle(&mut self) -> Result<(), JournalError> {
        Ok(())
    }

    fn cut(&mut self, len: u64) -> Result<(), JournalError> {
        self.content = GhostBytes::first(&self.content, &len);
        Ok(())
    }

    fn read_all(&mut self) -> Result<Vec<u8>, JournalError> {
        Err(JournalError::OutOfMemory)
    }

    fn failures(&self) -> u64 {
        0
    }
}
