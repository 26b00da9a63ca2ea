//! A journal in memory whose device fails where it is set to.

ghost use Rattle.std.specs.Prelude.{◌≡◌, ℕ, ◌++◌, length, true, false, None, Some, take, IsErrAnd, IsOk, IsOkUnless, OnErr, OnOk, IsTrue};
ghost use Rattle.tp_journal.specs.Journal.{RefusesArmedAppend, with_failure};
ghost use Rattle.tp_journal.specs.declared.error.JournalError.TheVariants.{Io, OutOfMemory};

use crate::error::JournalError;
use crate::journal::Journal;
use crate::memory::MemJournal;
use std::marker::Model;

/// A journal in memory whose device fails where it is set to: at the next append, or at the next cut. It can fail where
/// it is armed so, and fails then; once it failed it is as if it had never been armed.
///
/// Contracts see its content, how often its device failed, and how it is armed.
#[derive(Drop)]
pub struct FuseJournal {
    memory: MemJournal,
    failures: u64,
    append: Option<u64>,
    cut: bool,
}

impl Model for FuseJournal {
    ghost use Rattle.tp_journal.specs.Journal.{FuseState};

    ghost Value = { FuseState };

    ghost view = { λ j. record { content = j.memory; failures = j.failures; append = j.append; cut = j.cut } };
}

impl FuseJournal {
    /// A journal with the content of another one, not armed. No memory.
    pub fn new(memory: MemJournal) -> FuseJournal
        ensures content { result.content ≡ memory }
        ensures failures { result.failures ≡ 0 }
        ensures append { result.append ≡ None }
        ensures cut { result.cut ≡ false }
    {
        FuseJournal {
            memory,
            failures: 0,
            append: None,
            cut: false,
        }
    }

    /// Lets the next append fail, and keep the first `kept` of its bytes, all where there are fewer. It takes the place
    /// of an arming before.
    pub fn arm(&mut self, kept: u64)
        ensures { self.new ≡ record self.old { append = Some kept } }
    {
        self.append = Some(kept);
    }

    /// Lets the next cut fail, and change nothing.
    pub fn arm_cut(&mut self)
        ensures { self.new ≡ record self.old { cut = true } }
    {
        self.cut = true;
    }

    /// Lets neither fail.
    pub fn disarm(&mut self)
        ensures { self.new ≡ record self.old { append = None; cut = false } }
    {
        self.append = None;
        self.cut = false;
    }

    /// How many bytes the content has.
    pub fn len(&self) -> u64
        ensures { result ≡ length self.now.content }
    {
        self.memory.len()
    }

    /// The content. No memory.
    pub fn into_vec(self) -> Vec<u8>
        ensures { result.items ≡ self.content }
    {
        self.memory.into_vec()
    }
}

impl Journal for FuseJournal {
    ghost content = { λ j. j.content };

    ghost device = { λ j. record { failures = j.failures; can_fail = j.cut; fuse = j.append } };

    ghost is_settled = { λ _. Unit {0} };

    fn append(&mut self, bytes: &[u8]) -> Result<(), JournalError>
        ensures armed { (kept : ℕ) → self.old.append ≡ Some kept
            → IsErrAnd result (λ e. RefusesArmedAppend self.old kept bytes.now e self.new) }
        ensures unarmed { self.old.append ≡ None → IsOkUnless result OutOfMemory
            × OnOk result (self.new ≡ record self.old { content = self.old.content ++ bytes.now })
            × OnErr result (self.new ≡ self.old) }
    {
        match self.append {
            Some(kept) => {
                let kept = kept.min(bytes.len() as u64) as usize;
                self.memory.append(&bytes[..kept])?;
                self.append = None;
                self.failures = self.failures.saturating_add(1);
                Err(JournalError::Io)
            }
            None => self.memory.append(bytes),
        }
    }

    fn settle(&mut self) -> Result<(), JournalError> {
        self.memory.settle()
    }

    fn cut(&mut self, len: u64) -> Result<(), JournalError>
        ensures armed { IsTrue self.old.cut → (result ≡ Err Io)
            × (self.new ≡ record (with_failure self.old) { cut = false }) }
        ensures unarmed { self.old.cut ≡ false → IsOk result
            × (self.new ≡ record self.old { content = take len self.old.content }) }
    {
        if self.cut {
            self.cut = false;
            self.failures = self.failures.saturating_add(1);
            return Err(JournalError::Io);
        }
        self.memory.cut(len)
    }

    fn read_all(&mut self) -> Result<Vec<u8>, JournalError> {
        self.memory.read_all()
    }

    fn failures(&self) -> u64 {
        self.failures
    }
}
