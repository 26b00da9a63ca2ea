//! Bytes that contracts see and no memory holds.

ghost use Rattle.std.specs.Prelude.{◌≡◌, List, ℕ, [], ◌++◌, take};
ghost use Rattle.std.specs.Borrow.{ftrue};

use std::marker::Model;

/// Bytes that contracts see and that no memory holds. It takes none, and its functions do nothing at run time: what is
/// said of it is tied to what is held by the invariant of whoever has it.
#[derive(Drop)]
pub struct GhostBytes {
    pub ghost bytes: { List ℕ },
}

impl Model for GhostBytes {
    ghost also_owns = { λ _. ftrue };
}

// It owns nothing.
unsafe impl Send for GhostBytes {}

impl GhostBytes {
    /// No bytes.
    pub fn none() -> GhostBytes
        ensures { result.bytes ≡ [] }
    {
        GhostBytes {}
    }

    /// These bytes.
    pub fn of(bytes: &[u8]) -> GhostBytes
        ensures { result.bytes ≡ bytes.now }
    {
        GhostBytes::with(&GhostBytes::none(), bytes)
    }

    /// More bytes after those before.
    pub fn with(_before: &GhostBytes, _bytes: &[u8]) -> GhostBytes
        ensures { result.bytes ≡ _before.now.bytes ++ _bytes.now }
    {
        GhostBytes {}
    }

    /// The first of the bytes before, as many as `_len` says.
    pub fn first(_before: &GhostBytes, _len: &u64) -> GhostBytes
        ensures { result.bytes ≡ take _len.now _before.now.bytes }
    {
        GhostBytes {}
    }
}
