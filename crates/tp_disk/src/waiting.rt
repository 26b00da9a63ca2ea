//! Waiting for the lock of a journal.

ghost use Rattle.std.specs.Prelude.{◌≡◌, ◌≤◌, ◌+◌, ℕ, [], IfErr, IfOk, length};
ghost use Rattle.tp_journal.specs.declared.opening.OpenError.TheVariants.{Busy};
ghost use Rattle.tp_recovery.specs.Recovery.{HasTail, Recovers};
ghost use Rattle.tp_disk.specs.Waiting.{refusals_of, tries_in};

use std::rt::Files;
use std::thread;
use std::time::{Clock, Duration};
use tp_commands::Recovery;
use tp_ghost::GhostBytes;
use tp_journal::{DurableJournal, Lockable, OpenError};

// A lock that another has is tried again so often a second.
const A_SECOND: u64 = 4;

/// What is tried again while another has the lock.
trait Attempt {
    /// What is had with the lock.
    type Opened: Drop;

    /// How many tries found that another has the lock.
    ghost refused: { Self → ℕ };

    /// What is said of what is had.
    ghost gives: { Self → Self.Opened → Type 0 };

    /// Tries it once.
    fn once(&mut self) -> Result<Self::Opened, OpenError>
        ensures counts { refused self.new ≡ refused self.old + refusals_of result }
        ensures gives { IfOk result (λ opened. gives self.new opened) };
}

// Waits for the next try: a quarter of a second.
fn pause<C: Clock>(clock: &C) {
    thread::sleep(clock, Duration::from_millis(1000 / A_SECOND));
}

// Tries it until no other has the lock, four times a second, and for no longer than that many seconds; once where they are
// none. `Busy` is the answer of the last try.
fn try_for<C: Clock, A: Attempt>(
    clock: &C,
    seconds: u64,
    attempt: &mut A,
) -> Result<A::Opened, OpenError>
    ensures few { A.refused attempt.new ≤ A.refused attempt.old + tries_in seconds }
    ensures busy { IfErr result
        (λ e. e ≡ Busy → A.refused attempt.new ≡ A.refused attempt.old + tries_in seconds) }
    ensures gives { IfOk result (λ opened. A.gives attempt.new opened) }
{
    let pauses = seconds.saturating_mul(A_SECOND);
    let mut refused = 0;
    while refused < pauses {
        match attempt.once() {
            Ok(opened) => return Ok(opened),
            Err(OpenError::Busy) => {
                refused += 1;
                pause(clock);
            }
            Err(OpenError::Io) => return Err(OpenError::Io),
            Err(OpenError::OutOfMemory) => return Err(OpenError::OutOfMemory),
        }
    }
    match attempt.once() {
        Ok(opened) => Ok(opened),
        Err(OpenError::Busy) => Err(OpenError::Busy),
        Err(OpenError::Io) => Err(OpenError::Io),
        Err(OpenError::OutOfMemory) => Err(OpenError::OutOfMemory),
    }
}

// The journal in the file at a path, which is made where that is asked for.
#[derive(Drop)]
struct JournalAt<'a, R> {
    rt: &'a R,
    path: &'a str,
    makes: bool,
    refused: GhostBytes,
}

impl<R: Files + AllocGlobal> Attempt for JournalAt<'_, R>
where
    R::File: Lockable,
{
    type Opened = DurableJournal<R::File>;

    ghost refused = { λ a. length a.refused.bytes };

    ghost gives = { λ _ _. Unit {0} };

    fn once(&mut self) -> Result<DurableJournal<R::File>, OpenError> {
        match DurableJournal::at(self.rt, self.rt.alloc(), self.path, self.makes) {
            Ok(journal) => Ok(journal),
            Err(OpenError::Busy) => {
                self.refused = GhostBytes::with(&self.refused, &[0]);
                Err(OpenError::Busy)
            }
            Err(OpenError::Io) => Err(OpenError::Io),
            Err(OpenError::OutOfMemory) => Err(OpenError::OutOfMemory),
        }
    }
}

// The journal in the file at a path, with what it recovers to.
#[derive(Drop)]
struct RecoveryAt<'a, R> {
    rt: &'a R,
    path: &'a str,
    refused: GhostBytes,
}

impl<R: Files + AllocGlobal> Attempt for RecoveryAt<'_, R>
where
    R::File: Lockable,
{
    type Opened = (DurableJournal<R::File>, Recovery);

    ghost refused = { λ a. length a.refused.bytes };

    ghost gives = { λ _ opened. IfOk opened.1 (λ r.
        Recovers opened.0.file.content r.document.id r.document.applied r.keep
        × (r.document.waiting ≡ []))
        × IfOk opened.1 (λ r. HasTail opened.0.file.content r.keep r.tail.items) };

    fn once(&mut self) -> Result<(DurableJournal<R::File>, Recovery), OpenError> {
        match DurableJournal::recovering(self.rt, self.rt.alloc(), self.path, false) {
            Ok(opened) => Ok(opened),
            Err(OpenError::Busy) => {
                self.refused = GhostBytes::with(&self.refused, &[0]);
                Err(OpenError::Busy)
            }
            Err(OpenError::Io) => Err(OpenError::Io),
            Err(OpenError::OutOfMemory) => Err(OpenError::OutOfMemory),
        }
    }
}

/// The journal in the file, once no other has its lock, which is waited for that many seconds. An absent file is made where
/// that is asked for.
pub(crate) fn locked_journal<R: Files + Clock + AllocGlobal>(
    rt: &R,
    path: &str,
    makes: bool,
    seconds: u64,
) -> Result<DurableJournal<R::File>, OpenError>
where
    R::File: Lockable,
{
    let mut attempt = JournalAt {
        rt,
        path,
        makes,
        refused: GhostBytes::none(),
    };
    try_for(rt, seconds, &mut attempt)
}

/// The journal in the file, with what it recovers to, likewise. An absent file is refused.
pub(crate) fn locked_recovery<R: Files + Clock + AllocGlobal>(
    rt: &R,
    path: &str,
    seconds: u64,
) -> Result<(DurableJournal<R::File>, Recovery), OpenError>
where
    R::File: Lockable,
    ensures ok { IfOk result (λ opened. IfOk opened.1 (λ r.
        Recovers opened.0.file.content r.document.id r.document.applied r.keep
        × (r.document.waiting ≡ []))) }
    ensures tail { IfOk result (λ opened. IfOk opened.1
        (λ r. HasTail opened.0.file.content r.keep r.tail.items)) }
{
    let mut attempt = RecoveryAt {
        rt,
        path,
        refused: GhostBytes::none(),
    };
    try_for(rt, seconds, &mut attempt)
}
