//! What bytes are put into: a `Vec` that keeps them, or a hasher that only takes their digest.

ghost use Rattle.std.specs.Prelude.{◌≡◌, ℕ, List, IsOk, OnOk};
ghost use Rattle.tp_layout.specs.Puts.{Puts};

use std::alloc::AllocError;

/// What takes bytes, one piece after another.
pub trait Sink: Drop {
    ghost holds: { Self → List ℕ → Type 0 };

    /// That it takes no memory, and so refuses no bytes.
    ghost takes_all: { Type 0 };

    /// Puts the bytes after those that it has. The cost is that of copying or hashing them.
    fn put(&mut self, bytes: &[u8]) -> Result<(), AllocError>
        ensures puts { OnOk result (Puts holds self.old self.new bytes.now) }
        ensures taken { takes_all → IsOk result };
}

impl Sink for Vec<u8> {
    ghost holds = { λ v m. v.items ≡ m };

    ghost takes_all = { ⊥ };

    fn put(&mut self, bytes: &[u8]) -> Result<(), AllocError> {
        self.extend_from_slice(bytes)
    }
}
