//! The calls of a file, for proofs alone.

ghost use Rattle.std.specs.Prelude.{◌≡◌, List, [], ◌∷◌};
ghost use Rattle.std.specs.Borrow.{ftrue};
ghost use Rattle.tp_journal.specs.declared.calls.FileCall.{FileCall};

use std::marker::Model;
use tp_ghost::GhostBytes;

/// A call of a file that is appended to, and its answer.
#[derive(Drop)]
pub(crate) enum FileCall {
    /// These bytes were to be written at its end, and this many of them were taken: none where it was refused.
    Write(GhostBytes, usize),
    /// It was to be cut to this many bytes, and whether it was.
    Cut(u64, bool),
    /// It was to be brought to the disk, and whether it was.
    Sync(bool),
}

/// The calls of a file, the last one first. It takes no memory, and its functions do nothing at run time.
#[derive(Drop)]
pub(crate) struct Calls {
    ghost list: { List FileCall },
}

impl Model for Calls {
    ghost also_owns = { λ _. ftrue };
}

// It owns nothing.
unsafe impl Send for Calls {}

impl Calls {
    /// No calls.
    pub(crate) fn none() -> Calls
        ensures { result.list ≡ [] }
    {
        Calls {}
    }

    /// One call more than before.
    pub(crate) fn with(_before: &Calls, _call: &FileCall) -> Calls
        ensures { result.list ≡ _call.now ∷ _before.now.list }
    {
        Calls {}
    }
}
