//! Why a call on a message or a sync state was refused.

ghost use Rattle.std.specs.Prelude.{◌≡◌};
ghost use Rattle.tp_message.specs.SyncError.{code_of};
ghost use Rattle.tp_message.specs.declared.error.SyncError.TheVariants.{OutOfMemory};

use std::alloc::{AllocError, AllocFailed};
use thiserror::Error;

/// Why a call was refused. A refused call leaves the sync state as it was.
#[derive(Clone, Copy, Debug, PartialEq, Eq, Error)]
pub enum SyncError {
    /// The bytes aren't laid out as a message.
    #[error("BadMessage")]
    BadMessage,
    /// The bytes of a change within a message are no change's.
    #[error("BadChange")]
    BadChange,
    /// The document has more than 65,535 heads.
    #[error("TooManyHeads")]
    TooManyHeads,
    /// More than 1,024 changes would wait.
    #[error("PendingFull")]
    PendingFull,
    /// A growth was refused.
    #[error("OutOfMemory")]
    OutOfMemory,
    /// The two documents have different identifiers.
    #[error("OtherDocument")]
    OtherDocument,
    /// The keeper didn't keep a change.
    #[error("NotKept")]
    NotKept,
}

impl SyncError {
    /// The number of the refusal, from 1 in the order of the variants.
    pub fn code(&self) -> u8
        ensures { result ≡ code_of self.now }
    {
        match self {
            SyncError::BadMessage => 1,
            SyncError::BadChange => 2,
            SyncError::TooManyHeads => 3,
            SyncError::PendingFull => 4,
            SyncError::OutOfMemory => 5,
            SyncError::OtherDocument => 6,
            SyncError::NotKept => 7,
        }
    }
}

impl From<AllocError> for SyncError {
    ghost from_gives = { λ _ e. e ≡ OutOfMemory };

    fn from(_e: AllocError) -> SyncError {
        SyncError::OutOfMemory
    }
}

impl<T: Drop> From<AllocFailed<T>> for SyncError {
    ghost from_gives = { λ _ e. e ≡ OutOfMemory };

    fn from(_e: AllocFailed<T>) -> SyncError {
        SyncError::OutOfMemory
    }
}
