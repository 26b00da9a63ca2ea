//! A hasher that gathers small pieces.

ghost use Rattle.std.specs.Prelude.{◌≡◌, ℕ, ◌+◌, ◌≤◌, ◌++◌, List, [], length};
ghost use Rattle.tp_change.specs.Gathered.{HasGathered};
ghost use Rattle.sha2.specs.Sha256.{sha256};

use sha2::{Digest, Sha256};
use std::alloc::AllocError;
use tp_layout::Sink;

// How many bytes are gathered before they are hashed.
const ROOM: usize = 256;

/// A hasher with the bytes that it hasn't hashed yet. A change is put in pieces of a few bytes, and a call of the hasher
/// costs more than such a piece.
#[derive(Drop)]
pub(crate) struct Gatherer {
    hasher: Sha256,
    held: [u8; ROOM],
    len: usize,
}

impl Gatherer {
    /// Of no bytes.
    pub(crate) fn new() -> Gatherer
        ensures { HasGathered result.hasher result.held result.len [] }
    {
        Gatherer {
            hasher: Sha256::new(),
            held: [0; ROOM],
            len: 0,
        }
    }

    // Hashes what is held.
    fn flush(&mut self)
        ensures len { self.new.len ≡ 0 }
        ensures gathered { (m : List ℕ)
            → HasGathered self.old.hasher self.old.held self.old.len m
            → HasGathered self.new.hasher self.new.held self.new.len m }
    {
        let len = self.len.min(ROOM);
        self.hasher.update(&self.held[..len]);
        self.len = 0;
    }

    // Holds a piece for which there is room.
    fn hold(&mut self, bytes: &[u8])
        requires { self.old.len + length bytes.now ≤ 256 }
        ensures { (m : List ℕ)
            → HasGathered self.old.hasher self.old.held self.old.len m
            → HasGathered self.new.hasher self.new.held self.new.len (m ++ bytes.now) }
    {
        let end = self.len + bytes.len();
        self.held[self.len..end].copy_from_slice(bytes);
        self.len = end;
    }

    /// The digest of all bytes.
    pub(crate) fn finish(mut self) -> [u8; 32]
        ensures { (m : List ℕ)
            → HasGathered self.hasher self.held self.len m → result ≡ sha256 m }
    {
        self.flush();
        let Gatherer {
            hasher,
            held: _,
            len: _,
        } = self;
        hasher.finalize()
    }
}

impl Sink for Gatherer {
    ghost holds = { λ g m. HasGathered g.hasher g.held g.len m };

    ghost takes_all = { Unit {0} };

    fn put(&mut self, bytes: &[u8]) -> Result<(), AllocError> {
        if self.len.saturating_add(bytes.len()) > ROOM {
            self.flush();
            if bytes.len() > ROOM {
                self.hasher.update(bytes);
                return Ok(());
            }
        }
        self.hold(bytes);
        Ok(())
    }
}
