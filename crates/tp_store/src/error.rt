//! Why bytes, a file or a journal were refused.

ghost use Rattle.std.specs.Prelude.{◌≡◌};
ghost use Rattle.tp_store.specs.StoreError.{code_of};
ghost use Rattle.tp_store.specs.declared.error.StoreError.TheVariants.{OutOfMemory};

use std::alloc::{AllocError, AllocFailed};
use thiserror::Error;
use tp_graph::GraphError;

/// What is wrong with the bytes of a saved file or a journal, or why they could not be read or written.
#[derive(Clone, Copy, Debug, PartialEq, Eq, Error)]
pub enum StoreError {
    /// The bytes don't begin with the magic.
    #[error("BadMagic")]
    BadMagic,
    /// A saved file isn't whole: a field, a change or the digest is cut.
    #[error("Truncated")]
    Truncated,
    /// The digest at the end of a saved file isn't that of the bytes before it.
    #[error("BadDigest")]
    BadDigest,
    /// What is at the offset is damaged.
    #[error("Damaged")]
    Damaged {
        /// The offset, in bytes from 0: of a change's length, or of the first byte too many.
        at: u64,
    },
    /// A change doesn't fit the changes before it. It is never `OutOfMemory`.
    #[error("{0}")]
    Refused(GraphError),
    /// A file could not be opened, read or written.
    #[error("Io")]
    Io,
    /// A growth was refused.
    #[error("OutOfMemory")]
    OutOfMemory,
    /// A journal has fewer bytes than its header.
    #[error("NoHeader")]
    NoHeader,
}

impl StoreError {
    /// The number of the refusal, from 1 in the order of the variants.
    pub fn code(&self) -> u8
        ensures { result ≡ code_of self.now }
    {
        match self {
            StoreError::BadMagic => 1,
            StoreError::Truncated => 2,
            StoreError::BadDigest => 3,
            StoreError::Damaged { .. } => 4,
            StoreError::Refused(_) => 5,
            StoreError::Io => 6,
            StoreError::OutOfMemory => 7,
            StoreError::NoHeader => 8,
        }
    }
}

impl From<AllocError> for StoreError {
    ghost from_gives = { λ _ e. e ≡ OutOfMemory };

    fn from(_e: AllocError) -> StoreError {
        StoreError::OutOfMemory
    }
}

impl<T: Drop> From<AllocFailed<T>> for StoreError {
    ghost from_gives = { λ _ e. e ≡ OutOfMemory };

    fn from(_e: AllocFailed<T>) -> StoreError {
        StoreError::OutOfMemory
    }
}
