//! What a journal does, wherever its bytes are.

ghost use Rattle.std.specs.Prelude.{◌≡◌, ℕ, List, ◌++◌, take, true, false, IfOk, IfErr, IsOkUnless, OnOk, OnErr};
ghost use Rattle.tp_journal.specs.Calls.{AsksOnce, FileCalls, IsCut, IsSync, IsWrite, nothing_asked};
ghost use Rattle.tp_journal.specs.Journal.{CountsFailure, Device, DeviceFailsOnce, RefusesAppend, without_fuse};
ghost use Rattle.tp_journal.specs.declared.error.JournalError.TheVariants.{Io};

use crate::error::JournalError;

/// A place where bytes are kept, one piece after another.
///
/// Contracts see the bytes that were acknowledged (`content`), how often the device failed and whether it can fail
/// (`device`), and what was asked of the file beneath it (`asked`), if there is one. It fails only where it can, or where
/// the next append is armed to.
pub trait Journal: Drop {
    ghost content: { Self → List ℕ };

    ghost device: { Self → Device };

    ghost asked: { Self → FileCalls } = { λ _. nothing_asked };

    /// All of the content is where the journal keeps it for good: on the disk, if that is what it promises.
    ghost is_settled: { Self → Type 0 };

    /// Puts the bytes after the content. Where the device fails, a beginning of them may be there; where memory is
    /// short, the content stays. Where the append was armed to fail, the arming ends with it, unless memory was short.
    fn append(&mut self, bytes: &[u8]) -> Result<(), JournalError>
        ensures asks { AsksOnce (IsWrite bytes.now) (asked self.old) (asked self.new) }
        ensures ok { OnOk result (content self.new ≡ content self.old ++ bytes.now) }
        ensures quiet { OnOk result (device self.new ≡ without_fuse (device self.old)) }
        ensures part { IfErr result
            (λ e. RefusesAppend (content self.old) bytes.now e (content self.new)) }
        ensures counts { IfErr result
            (λ e. CountsFailure true e (device self.old) (device self.new)) };

    /// Brings the content to where the journal keeps it for good. Where it was refused, as `Io`, less than the content may be
    /// kept.
    fn settle(&mut self) -> Result<(), JournalError>
        ensures asks { AsksOnce IsSync (asked self.old) (asked self.new) }
        ensures settled { OnOk result (is_settled self.new) }
        ensures stays { content self.new ≡ content self.old }
        ensures quiet { OnOk result (device self.new ≡ device self.old) }
        ensures err { IsOkUnless result Io }
        ensures counts { OnErr result (DeviceFailsOnce false (device self.old) (device self.new)) };

    /// Cuts the content to `len` bytes; one that has no more stays. A refusal leaves it as it was.
    fn cut(&mut self, len: u64) -> Result<(), JournalError>
        ensures asks { AsksOnce (IsCut len) (asked self.old) (asked self.new) }
        ensures ok { OnOk result (content self.new ≡ take len (content self.old)) }
        ensures quiet { OnOk result (device self.new ≡ device self.old) }
        ensures err { OnErr result (content self.new ≡ content self.old) }
        ensures counts { IfErr result
            (λ e. CountsFailure false e (device self.old) (device self.new)) };

    /// All of the content, which stays.
    fn read_all(&mut self) -> Result<Vec<u8>, JournalError>
        ensures asks { asked self.new ≡ asked self.old }
        ensures ok { IfOk result (λ bytes. bytes.items ≡ content self.old) }
        ensures quiet { OnOk result (device self.new ≡ device self.old) }
        ensures stays { content self.new ≡ content self.old }
        ensures counts { IfErr result
            (λ e. CountsFailure false e (device self.old) (device self.new)) };

    /// How often the device failed. At 2^64 - 1 the number stays, and counts as grown.
    fn failures(&self) -> u64
        ensures { result ≡ (device self.now).failures };
}
